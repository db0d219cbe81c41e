ghost use Rattle.std.specs.Prelude.{◌≡◌, Some, if◌then◌else◌};
ghost use Rattle.keep_named.specs.Adding as spec;

use keep_change::StoredFile;
use keep_journal::History;
use keep_names::{FileName, Id};

/// The last kept change that adds the snapshot. Each kept change is looked at.
pub(crate) fn adding(history: &History, snapshot: Id) -> Option<u64>
    ensures { result ≡ spec.adding history.now.journal snapshot }
{
    let mut found = None;
    for before in history.final_number()..history.last_change() {
        found = last_of(history, before + 1, snapshot, found);
    }
    found
}

/// Change n, where it is kept and adds the snapshot, else the one that was found before it.
fn last_of(history: &History, n: u64, snapshot: Id, before: Option<u64>) -> Option<u64>
    ensures { result ≡ if spec.adds history.now.journal n snapshot then Some n else before }
{
    if adds(history, n, snapshot) {
        Some(n)
    } else {
        before
    }
}

/// Whether change n is kept and adds the snapshot.
fn adds(history: &History, n: u64, snapshot: Id) -> bool
    ensures { result ≡ spec.adds history.now.journal n snapshot }
{
    match history.kept_change(n) {
        Some(change) => has_snapshot(snapshot, change.adds.as_slice()),
        None => false,
    }
}

/// Whether the snapshot is one of these files.
fn has_snapshot(snapshot: Id, files: &[StoredFile]) -> bool
    ensures { result ≡ spec.has_snapshot snapshot files.now }
{
    let name = FileName::snapshot(snapshot);
    for file in files {
        if file.name() == name {
            return true;
        }
    }
    false
}
