ghost use Rattle.std.specs.Prelude.{◌≡◌, ◌++◌, [], ◌∷◌, IfOk, OnOk, Some, map, option_to_list, string_bytes};
ghost use Rattle.std.specs.Option.{option_map};
ghost use Rattle.keep_snap.specs.Facts.{facts_view};
ghost use Rattle.keep_snap.specs.Relabel.{retagged};
ghost use Rattle.keep_snap.specs.Shape.{IsSnap};
ghost use Rattle.keep_snap.specs.Snap.{snap_view};
ghost use Rattle.keep_snap.specs.Written.{IsCarried};
ghost use Rattle.keep_catalog.specs.Files.{snap_in};
ghost use Rattle.keep_labels.specs.Edits.{edit_view, edited};
ghost use Rattle.keep_labels.specs.Tagging as spec;

use crate::edit::{Edit, are_changed};
use keep_catalog::Catalog;
use keep_change::StoredFile;
use keep_names::{Id, Kind};
use keep_snap::{Snap, SnapFacts, retag, snapshots_read_back, write_snap};
use std::alloc::{AllocError, Global};

/// Snapshots under other tags.
#[derive(Drop)]
pub(crate) struct Relabeled {
    /// The names of those whose tags are changed.
    pub(crate) names: Vec<Id>,
    /// The files that are to stand in their place.
    pub(crate) files: Vec<StoredFile>,
}

/// Those of the snapshots whose tags the edit changes.
pub(crate) fn retagged(
    alloc: Global,
    catalog: &Catalog,
    edit: &Edit,
    taken: &[SnapFacts],
) -> Result<Relabeled, AllocError>
    ensures names { IfOk result (λ made. made.names.items
        ≡ map (λ s. s.name) (spec.changed_by (edit_view edit.now) (map facts_view taken.now))) }
    ensures files { IfOk result (λ made. made.files.items
        ≡ spec.retagged_files catalog.now (edit_view edit.now)
        (spec.changed_by (edit_view edit.now) (map facts_view taken.now))) }
{
    let mut made = Relabeled {
        names: Vec::new(alloc),
        files: Vec::new(alloc),
    };
    for facts in taken {
        made.put(alloc, catalog, edit, facts)?;
    }
    Ok(made)
}

impl Relabeled {
    /// Puts the snapshot behind the others, if the edit changes its tags.
    fn put(
        &mut self,
        alloc: Global,
        catalog: &Catalog,
        edit: &Edit,
        facts: &SnapFacts,
    ) -> Result<(), AllocError>
        ensures names { OnOk result (self.new.names.items ≡ self.old.names.items
            ++ map (λ s. s.name) (spec.changed_by (edit_view edit.now) (facts_view facts.now ∷ []))) }
        ensures files { OnOk result (self.new.files.items ≡ self.old.files.items
            ++ spec.retagged_files catalog.now (edit_view edit.now)
            (spec.changed_by (edit_view edit.now) (facts_view facts.now ∷ []))) }
    {
        let tags = edit.apply(alloc, &facts.tags)?;
        if are_changed(&facts.tags, &tags) {
            self.names.push(facts.name)?;
            put_retagged(alloc, catalog, facts.name, tags, &mut self.files)?;
        }
        Ok(())
    }
}

/// Puts the file of the snapshot with these tags behind the files.
fn put_retagged(
    alloc: Global,
    catalog: &Catalog,
    name: Id,
    tags: Vec<String>,
    files: &mut Vec<StoredFile>,
) -> Result<(), AllocError>
    ensures { OnOk result (files.new.items ≡ files.old.items ++ option_to_list
        (option_map (λ snap. spec.tagged_file snap name (map string_bytes tags.items)) (snap_in catalog.now name))) }
{
    let Some(snap) = catalog.snaps().get(&name) else {
        return Ok(());
    };
    snapshots_read_back();
    files.push(retagged_file(alloc, snap, name, tags)?)?;
    Ok(())
}

/// The file of the snapshot with these tags.
#[tactic(auto, unfolding(crate::specs::Tagging::tagged_file))]
fn retagged_file(
    alloc: Global,
    snap: &Snap,
    name: Id,
    tags: Vec<String>,
) -> Result<StoredFile, AllocError>
    requires { IsCarried (snap_view snap.now) }
    ensures { IfOk result (λ file. file ≡ spec.tagged_file (snap_view snap.now) name (map string_bytes tags.items)) }
{
    let made = retag(alloc, snap, name, tags)?;
    let text = write_snap(alloc, &made)?;
    StoredFile::of(alloc, Kind::Snapshot, text)
}
