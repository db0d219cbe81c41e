ghost use Rattle.std.specs.Prelude.{◌≡◌};
ghost use Rattle.std.specs.List.{list_any};
ghost use Rattle.std.specs.Ordering.{eq_by_cmp};
ghost use Rattle.keep_names.specs.Orders.{name_cmp};
ghost use Rattle.keep_damage.specs.Teller.{adds_kept, is_commit, teller_of, tells_file};

use keep_change::{StoredFile, What};
use keep_journal::{History, Notice};
use keep_names::FileName;
use keep_shelf::Key;

/// The number of the entry that tells the bytes of the file, 0 where none does.
pub(crate) fn teller_of(history: &History, key: Key) -> u64
    ensures { result ≡ teller_of history.now.journal key }
{
    let mut teller = 0;
    for notice in history.notices() {
        if tells_file(history, key, notice) {
            teller = notice.at;
        }
    }
    teller
}

/// Whether the event made a change for the first time that has the bytes of the file.
fn tells_file(history: &History, key: Key, notice: &Notice) -> bool
    ensures { result ≡ tells_file history.now.journal key notice.now }
{
    match key {
        Key::Live(name) => is_commit(notice.what) && adds_kept(history, notice.change, name),
        Key::Trash(n, _) => is_commit(notice.what) && notice.change == n,
        Key::Entry(_) => false,
    }
}

fn is_commit(what: What) -> bool
    ensures { result ≡ is_commit what }
{
    matches!(what, What::Commit)
}

/// Whether change n is kept and adds the file.
fn adds_kept(history: &History, n: u64, name: FileName) -> bool
    ensures { result ≡ adds_kept history.now.journal n name }
{
    match history.kept_change(n) {
        Some(change) => has_file(change.adds.as_slice(), name),
        None => false,
    }
}

fn has_file(files: &[StoredFile], name: FileName) -> bool
    ensures { result ≡ list_any (λ file. eq_by_cmp name_cmp name file.name) files.now }
{
    files.iter().any(|file| is_named(file, name))
}

fn is_named(file: &StoredFile, name: FileName) -> bool
    ensures { result ≡ eq_by_cmp name_cmp name file.now.name }
{
    name == file.name()
}
