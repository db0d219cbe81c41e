ghost use Rattle.std.specs.Prelude.{◌≡◌, IfOk, OnOk};
ghost use Rattle.std.specs.FinMap as map;
ghost use Rattle.std.specs.Option.{option_map_or};
ghost use Rattle.keep_damage.specs.Asked.{IsAsked, filled, passed, stepped, with_placeholder, without};
ghost use Rattle.keep_journal.specs.Kept.{kept};
ghost use Rattle.keep_journal.specs.Opening.{AreWellFormed};

use crate::half::Half;
use keep_change::Change;
use keep_journal::History;
use keep_names::FileName;
use keep_opening::{make_files, put_live, wanted};
use keep_repo::{Bytes, Repo};
use keep_shelf::Stock;
use std::alloc::{AllocError, Global};

/// What the history asks to stand under the keys of files, where these stand there.
pub(crate) fn asked(alloc: Global, history: &History, there: &Stock) -> Result<Stock, AllocError>
    requires formed { AreWellFormed history.now.journal }
    ensures { IfOk result (λ stock. IsAsked history.now.journal there.now stock) }
{
    let mut live = Repo::new(alloc);
    put_live(there, &mut live)?;
    pass_all(alloc, Half::Look, history, &mut live)?;
    pass_all(alloc, Half::Write, history, &mut live)?;
    wanted(alloc, history, &live)
}

/// Does this of all kept changes in turn, be they met or not.
fn pass_all(alloc: Global, pass: Half, history: &History, repo: &mut Repo) -> Result<(), AllocError>
    ensures { OnOk result (repo.new.files ≡ passed pass (kept history.now.journal) repo.old.files) }
{
    for n in history.final_number()..history.last_change() {
        if let Some(change) = history.kept_change(n + 1) {
            fold_step(alloc, pass, change, repo)?;
        }
    }
    Ok(())
}

fn fold_step(alloc: Global, pass: Half, change: &Change, repo: &mut Repo) -> Result<(), AllocError>
    ensures { OnOk result (repo.new.files ≡ stepped pass change.now repo.old.files) }
{
    match pass {
        Half::Look => {
            fill(alloc, change.present.as_slice(), repo)?;
            remove_named(change.absent.as_slice(), repo);
            Ok(())
        }
        Half::Write => make_files(change, repo),
    }
}

/// Puts something under each name under which nothing is.
fn fill(alloc: Global, names: &[FileName], repo: &mut Repo) -> Result<(), AllocError>
    ensures { OnOk result (repo.new.files ≡ filled names.now repo.old.files) }
{
    for name in names {
        fill_one(alloc, *name, repo)?;
    }
    Ok(())
}

fn fill_one(alloc: Global, name: FileName, repo: &mut Repo) -> Result<(), AllocError>
    ensures { OnOk result (repo.new.files ≡ with_placeholder name repo.old.files) }
{
    if repo.get(name).is_none() {
        let empty = Bytes::new(alloc, Vec::new(alloc))?;
        repo.insert_file(name, empty)?;
    }
    Ok(())
}

fn remove_named(names: &[FileName], repo: &mut Repo)
    ensures { repo.new.files ≡ without names.now repo.old.files }
{
    for name in names {
        repo.remove_file(*name);
    }
}
