ghost use Rattle.std.specs.Prelude.{◌≡◌, ◌≢◌, IfOk, IsTrue, None, OnOk, false};
ghost use Rattle.std.specs.FinMap as map;
ghost use Rattle.keep_change.specs.Change.{is_met};
ghost use Rattle.keep_change.specs.Fold.{first_break, fold_of};
ghost use Rattle.keep_change.specs.Result as made;
ghost use Rattle.keep_journal.specs.Kept.{kept};
ghost use Rattle.keep_journal.specs.Opening.{unfold_of};
ghost use Rattle.keep_opening.specs.Filing.{live_into, with_live};
ghost use Rattle.keep_repo.specs.Repository.{held};

use keep_change::{Change, StoredFile};
use keep_journal::History;
use keep_repo::Repo;
use keep_shelf::{Key, Stock};
use std::alloc::AllocError;

/// Puts the live files of the stock into the repository.
pub fn put_live(stock: &Stock, repo: &mut Repo) -> Result<(), AllocError>
    ensures { OnOk result (repo.new ≡ live_into stock.now (map.keys stock.now) repo.old) }
{
    let keys = stock.keys()?;
    put_keys(stock, keys.as_slice(), repo)
}

fn put_keys(stock: &Stock, keys: &[Key], repo: &mut Repo) -> Result<(), AllocError>
    ensures { OnOk result (repo.new ≡ live_into stock.now keys.now repo.old) }
{
    for key in keys {
        put_key(stock, *key, repo)?;
    }
    Ok(())
}

fn put_key(stock: &Stock, key: Key, repo: &mut Repo) -> Result<(), AllocError>
    ensures { OnOk result (repo.new ≡ with_live key (map.get stock.now key) repo.old) }
{
    if let Key::Live(name) = key {
        if let Some(bytes) = stock.bytes(key)? {
            repo.insert_file(name, bytes)?;
        }
    }
    Ok(())
}

/// Takes the kept changes back, the last first, what they did to files alone. It isn't tested that they were made.
/// Where memory runs out some are taken back.
pub(crate) fn unmake(history: &History, repo: &mut Repo) -> Result<(), AllocError>
    ensures { let under = unfold_of (kept history.now.journal) repo.old in
        OnOk result (repo.new ≡ record repo.old { files = under.files }) }
{
    let last = history.last_change();
    for done in 0..last.saturating_sub(history.final_number()) {
        if let Some(change) = history.kept_change(last - done) {
            take_back(change, repo)?;
        }
    }
    Ok(())
}

fn take_back(change: &Change, repo: &mut Repo) -> Result<(), AllocError>
    ensures { let files = made.remove_files change.now.adds (made.put_files change.now.drops repo.old.files) in
        OnOk result (repo.new ≡ record repo.old { files = files }) }
{
    put_files(change.drops.as_slice(), repo)?;
    remove_files(change.adds.as_slice(), repo);
    Ok(())
}

/// Does to files what the change does to them, be it met or not. Where memory runs out some are put.
pub fn make_files(change: &Change, repo: &mut Repo) -> Result<(), AllocError>
    ensures { let files = made.remove_files change.now.drops (made.put_files change.now.adds repo.old.files) in
        OnOk result (repo.new ≡ record repo.old { files = files }) }
{
    put_files(change.adds.as_slice(), repo)?;
    remove_files(change.drops.as_slice(), repo);
    Ok(())
}

/// Puts the files one by one, in the place of those that are there.
fn put_files(files: &[StoredFile], repo: &mut Repo) -> Result<(), AllocError>
    ensures { OnOk result (repo.new ≡ record repo.old { files = made.put_files files.now repo.old.files }) }
{
    for file in files {
        repo.insert_file(file.name(), file.bytes().clone()?)?;
    }
    Ok(())
}

fn remove_files(files: &[StoredFile], repo: &mut Repo)
    ensures { repo.new ≡ record repo.old { files = made.remove_files files.now repo.old.files } }
{
    for file in files {
        repo.remove_file(file.name());
    }
}

/// Makes the kept changes in turn, as long as each is met, and answers whether all were.
pub(crate) fn remake(history: &History, repo: &mut Repo) -> Result<bool, AllocError>
    ensures whole { IfOk result (λ whole. IsTrue whole → first_break (kept history.now.journal) repo.old ≡ None) }
    ensures made { IfOk result (λ whole. IsTrue whole → repo.new ≡ fold_of (kept history.now.journal) repo.old) }
    ensures broken { IfOk result (λ whole. whole ≡ false → first_break (kept history.now.journal) repo.old ≢ None) }
{
    for n in history.final_number()..history.last_change() {
        if let Some(change) = history.kept_change(n + 1) {
            if !make_met(change, repo)? {
                return Ok(false);
            }
        }
    }
    Ok(true)
}

/// Makes the change where it is met, and answers whether it is.
fn make_met(change: &Change, repo: &mut Repo) -> Result<bool, AllocError>
    ensures met { IfOk result (λ met. met ≡ is_met (held repo.old) change.now) }
    ensures made { IfOk result (λ met. IsTrue met → repo.new ≡ made.result_of change.now repo.old) }
{
    if let Err(_) = change.meets(repo) {
        return Ok(false);
    }
    change.apply(repo)?;
    Ok(true)
}
