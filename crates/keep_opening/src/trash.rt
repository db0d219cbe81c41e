ghost use Rattle.std.specs.Prelude.{◌≡◌, ◌<◌, ◌↔◌, ℕ, IfOk, IsTrue, None, OnOk};
ghost use Rattle.std.specs.FinMap as map;
ghost use Rattle.keep_journal.specs.History.{change_of, final_number};
ghost use Rattle.keep_journal.specs.Opening.{AreWellFormed};
ghost use Rattle.keep_moves.specs.Standing.{trashed};
ghost use Rattle.keep_names.specs.declared.file_name.FileName.{FileName};
ghost use Rattle.keep_opening.specs.Filing.{lived_in, trash_put};
ghost use Rattle.keep_opening.specs.Wanted.{AgreeOnFiles, out_of_trash};
ghost use Rattle.keep_shelf.specs.declared.key.Key.TheVariants as key;

use keep_change::StoredFile;
use keep_journal::History;
use keep_names::FileName;
use keep_repo::{Bytes, Repo};
use keep_rope::Rope;
use keep_shelf::{Key, Stock};
use std::alloc::{AllocError, Global};

/// What has to stand under the keys of files: the live ones, and in the trash what the changes that aren't final left
/// there.
pub fn wanted(alloc: Global, history: &History, live: &Repo) -> Result<Stock, AllocError>
    requires formed { AreWellFormed history.now.journal }
    ensures live { IfOk result (λ stock. (name : FileName)
        → map.get stock (key.Live name) ≡ map.get live.now.files name) }
    ensures trash { IfOk result (λ stock. (n : ℕ) (name : FileName)
        → map.get stock (key.Trash n name) ≡ trashed history.now.journal n name) }
{
    let mut stock = Stock::new(alloc);
    put_trash(history, &mut stock)?;
    let (names, _) = live.list()?;
    put_names(live, names.as_slice(), &mut stock)?;
    Ok(stock)
}

fn put_names(live: &Repo, names: &[FileName], stock: &mut Stock) -> Result<(), AllocError>
    ensures { OnOk result (stock.new ≡ lived_in live.now.files names.now stock.old) }
{
    for name in names {
        if let Some(bytes) = live.get(*name) {
            stock.write(Key::Live(*name), Rope::of(bytes.clone()?))?;
        }
    }
    Ok(())
}

/// Puts the trash of the changes that aren't final, where there is none.
fn put_trash(history: &History, stock: &mut Stock) -> Result<(), AllocError>
    requires formed { AreWellFormed history.now.journal }
    requires none { (n : ℕ) (name : FileName) → map.get stock.old (key.Trash n name) ≡ None }
    ensures trash { OnOk result ((n : ℕ) (name : FileName)
        → map.get stock.new (key.Trash n name) ≡ trashed history.now.journal n name) }
    ensures live { OnOk result ((name : FileName)
        → map.get stock.new (key.Live name) ≡ map.get stock.old (key.Live name)) }
{
    for before in history.final_number()..history.last_change() {
        put_trash_of(history, before + 1, stock)?;
    }
    Ok(())
}

fn put_trash_of(history: &History, n: u64, stock: &mut Stock) -> Result<(), AllocError>
    ensures { OnOk result (final_number history.now.journal < n
        → stock.new ≡ trash_put n (out_of_trash history.now.journal n) stock.old) }
{
    if let Some(change) = history.kept_change(n) {
        return put_out(n, change.drops.as_slice(), stock);
    }
    match history.change(n) {
        Some(change) => put_out(n, change.adds.as_slice(), stock),
        None => Ok(()),
    }
}

fn put_out(n: u64, files: &[StoredFile], stock: &mut Stock) -> Result<(), AllocError>
    ensures { OnOk result (stock.new ≡ trash_put n files.now stock.old) }
{
    for file in files {
        let bytes = Rope::of(file.bytes().clone()?);
        stock.write(Key::Trash(n, file.name()), bytes)?;
    }
    Ok(())
}

/// Whether the two have the same under each key but those of entries.
pub(crate) fn agree(one: &Stock, other: &Stock) -> Result<bool, AllocError>
    ensures { IfOk result (λ same. IsTrue same ↔ AgreeOnFiles one.now other.now) }
{
    let keys = one.keys()?;
    let others = other.keys()?;
    let first = agree_at(one, other, keys.as_slice())?;
    let second = agree_at(one, other, others.as_slice())?;
    Ok(first && second)
}

ghost use Rattle.std.specs.List.{list_all};
ghost use Rattle.keep_opening.specs.Wanted.{is_same_at, same_bytes};

fn agree_at(one: &Stock, other: &Stock, keys: &[Key]) -> Result<bool, AllocError>
    ensures { IfOk result (λ same. same ≡ list_all (is_same_at one.now other.now) keys.now) }
{
    for key in keys {
        if !is_same(one, other, *key)? {
            return Ok(false);
        }
    }
    Ok(true)
}

fn is_same(one: &Stock, other: &Stock, key: Key) -> Result<bool, AllocError>
    ensures { IfOk result (λ same. same ≡ is_same_at one.now other.now key) }
{
    match key {
        Key::Entry(_) => Ok(true),
        Key::Live(_) | Key::Trash(_, _) => {
            let held = one.bytes(key)?;
            let others = other.bytes(key)?;
            Ok(hold_same(&held, &others))
        }
    }
}

fn hold_same(one: &Option<Bytes>, other: &Option<Bytes>) -> bool
    ensures { result ≡ same_bytes one.now other.now }
{
    match (one, other) {
        (Some(bytes), Some(others)) => bytes.as_slice() == others.as_slice(),
        (None, None) => true,
        _ => false,
    }
}
