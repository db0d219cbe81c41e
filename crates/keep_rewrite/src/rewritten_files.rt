ghost use Rattle.std.specs.Prelude.{◌≡◌, ◌++◌, [], ◌∷◌, map, Err, IfOk, Ok, OnOk, option_to_list, if◌then◌else◌};
ghost use Rattle.keep_docs.specs.Doc.{Answers};
ghost use Rattle.keep_patterns.specs.Matching.{is_nil};
ghost use Rattle.keep_snap.specs.Snap.{snap_view};
ghost use Rattle.keep_snap.specs.Written.{IsCarried};
ghost use Rattle.keep_plan.specs.Storing.{absent_files, is_any_taken};
ghost use Rattle.keep_plan.specs.declared.plan_error.PlanError.TheVariants as the_error;
ghost use Rattle.keep_rewrite.specs.Rewriting.{rewriting};
ghost use Rattle.keep_rewrite.specs.Rewriting as spec;

use keep_catalog::Catalog;
use keep_change::{Change, Listed, StoredFile};
use keep_names::{FileName, Id, Kind};
use keep_plan::{PlanError, Stored, put_file, split_new};
use keep_repo::Repo;
use keep_snap::{Snap, retree, snapshots_read_back, write_snap};
use std::alloc::{AllocError, Global};

/// Snapshots that get another tree.
#[derive(Drop)]
pub(crate) struct Rewritten {
    /// Their names, each with the tree that is left.
    pub(crate) retreed: Vec<(Id, Id)>,
    /// Whether the old ones go.
    pub(crate) forget: bool,
}

impl Rewritten {
    /// The change that stores this and puts the new snapshots beside or in the place of the old ones.
    pub(crate) fn change(
        &self,
        alloc: Global,
        repo: &Repo,
        catalog: &Catalog,
        stored: Stored,
    ) -> Result<Change, PlanError>
        requires { catalog.now ≡ repo.now }
        ensures { Answers the_error.Memory (λ change. change)
            (rewriting repo.now self.now.forget self.now.retreed.items stored) result }
    {
        let adds = self.adds(alloc, repo, catalog)?;
        let change = self.storing(alloc, repo, stored, adds)?;
        Ok(change)
    }

    /// The files of the new snapshots, if there are any and none of them is there.
    fn adds(
        &self,
        alloc: Global,
        repo: &Repo,
        catalog: &Catalog,
    ) -> Result<Vec<StoredFile>, PlanError>
        requires { catalog.now ≡ repo.now }
        ensures { let new = spec.new_files repo.now self.now.forget self.now.retreed.items in
            Answers the_error.Memory (λ adds. adds.items)
            (if is_any_taken repo.now new then Err the_error.SnapshotThere
            else (if is_nil self.now.retreed.items then Err the_error.NothingToDo
            else Ok (absent_files repo.now new))) result }
    {
        let new = self.new_files(alloc, catalog)?;
        let adds = split_new(alloc, repo, new)?.ok_or(PlanError::SnapshotThere)?;
        if self.retreed.is_empty() {
            return Err(PlanError::NothingToDo);
        }
        Ok(adds)
    }

    /// The change that stores this and adds these files of new snapshots.
    fn storing(
        &self,
        alloc: Global,
        repo: &Repo,
        stored: Stored,
        adds: Vec<StoredFile>,
    ) -> Result<Change, AllocError>
        ensures { IfOk result (λ change. change
            ≡ spec.change_of repo.now self.now.forget stored self.now.retreed.items adds.items) }
    {
        let drops = self.dropped_files(alloc, repo)?;
        let present = self.present_names(stored.present.into_vec())?;
        let adds = joined(stored.adds.into_vec(), adds)?;
        let mut change = Change::new(alloc);
        change.adds = Listed::from_vec(adds);
        change.drops = Listed::from_vec(drops);
        change.clears = stored.clears;
        change.present = Listed::from_vec(present);
        change.unmarked = stored.unmarked;
        Ok(change)
    }

    /// The files of the snapshots with the trees that are left.
    fn new_files(&self, alloc: Global, catalog: &Catalog) -> Result<Vec<StoredFile>, AllocError>
        ensures { IfOk result (λ files. files.items
            ≡ spec.new_files catalog.now self.now.forget self.now.retreed.items) }
    {
        let mut files = Vec::new(alloc);
        for new in &self.retreed {
            self.put_new(alloc, catalog, *new, &mut files)?;
        }
        Ok(files)
    }

    /// Puts the new file behind the files, if there is the old snapshot.
    fn put_new(
        &self,
        alloc: Global,
        catalog: &Catalog,
        new: (Id, Id),
        files: &mut Vec<StoredFile>,
    ) -> Result<(), AllocError>
        ensures { OnOk result (files.new.items ≡ files.old.items
            ++ option_to_list (spec.new_file catalog.now self.now.forget new)) }
    {
        let Some(snap) = catalog.snaps().get(&new.0) else {
            return Ok(());
        };
        snapshots_read_back();
        files.push(retreed_file(alloc, snap, self.forget, new)?)?;
        Ok(())
    }

    /// The files of the old snapshots, where they are forgotten.
    fn dropped_files(&self, alloc: Global, repo: &Repo) -> Result<Vec<StoredFile>, AllocError>
        ensures { IfOk result (λ files. files.items
            ≡ (if self.now.forget then spec.old_files repo.now self.now.retreed.items else [])) }
    {
        if !self.forget {
            return Ok(Vec::new(alloc));
        }
        old_files(alloc, repo, &self.retreed)
    }

    /// These names, and behind them those of the old snapshots, where they stay.
    fn present_names(&self, present: Vec<FileName>) -> Result<Vec<FileName>, AllocError>
        ensures { IfOk result (λ names. names.items
            ≡ (if self.now.forget then present.items else present.items ++ spec.old_names self.now.retreed.items)) }
    {
        if self.forget {
            return Ok(present);
        }
        let mut names = present;
        for new in &self.retreed {
            names.push(FileName::snapshot(new.0))?;
        }
        Ok(names)
    }
}

/// The file of the snapshot with another tree.
#[tactic(auto, unfolding(crate::specs::Rewriting::retreed_file))]
fn retreed_file(
    alloc: Global,
    snap: &Snap,
    forget: bool,
    new: (Id, Id),
) -> Result<StoredFile, AllocError>
    requires { IsCarried (snap_view snap.now) }
    ensures { IfOk result (λ file. file ≡ spec.retreed_file forget (snap_view snap.now) new) }
{
    let made = retree(alloc, snap, new.0, new.1, !forget)?;
    let text = write_snap(alloc, &made)?;
    StoredFile::of(alloc, Kind::Snapshot, text)
}

/// The files of the old snapshots.
fn old_files(
    alloc: Global,
    repo: &Repo,
    retreed: &[(Id, Id)],
) -> Result<Vec<StoredFile>, AllocError>
    ensures { IfOk result (λ files. files.items ≡ spec.old_files repo.now retreed.now) }
{
    let mut files = Vec::new(alloc);
    for new in retreed {
        put_file(repo, FileName::snapshot(new.0), &mut files)?;
    }
    Ok(files)
}

/// The first files, and then the others.
fn joined(first: Vec<StoredFile>, others: Vec<StoredFile>) -> Result<Vec<StoredFile>, AllocError>
    ensures { IfOk result (λ files. files.items ≡ first.items ++ others.items) }
{
    let mut files = first;
    let mut others = others;
    files.append(&mut others)?;
    Ok(files)
}
