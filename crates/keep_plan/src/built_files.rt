ghost use Rattle.std.specs.Prelude.{◌≡◌, [], ◌∷◌, ◌++◌, ◌||◌, List, is_none, map, IfOk, IfSome, OnOk};
ghost use Rattle.std.specs.BTreeMap.{IsOrdered};
ghost use Rattle.std.specs.BTreeMap as tree;
ghost use Rattle.std.specs.BTreeSet.{contains};
ghost use Rattle.std.specs.BTreeSet as bag;
ghost use Rattle.std.specs.FinMap.{find};
ghost use Rattle.std.specs.List.{list_any};
ghost use Rattle.std.specs.Option.{option_or};
ghost use Rattle.std.specs.Ordering.{eq_by_cmp};
ghost use Rattle.keep_names.specs.Orders.{id_cmp, name_cmp};
ghost use Rattle.keep_names.specs.declared.file_name.FileName as the_name;
ghost use Rattle.keep_names.specs.declared.id.Id as the_id;
ghost use Rattle.keep_change.specs.Marks.{pack_mark};
ghost use Rattle.keep_plan.specs.Storing.{absent_files, absent_of, is_any_taken, marks_on, names_there, packs_among, unmarked_of};
ghost use Rattle.keep_plan.specs.Storing as spec;
ghost use Rattle.keep_plan.specs.Marks.{AreMarks};

use keep_change::{PackMark, StoredFile};
use keep_names::{FileName, Id, Kind};
use keep_repo::{Facet, Mark, Repo};
use std::alloc::{AllocError, Global};
use std::collections::{BTreeMap, BTreeSet};

/// Those of the files that the repository hasn't, by name, and of files of one name the first. The names of the
/// others are put among those that have to be present.
pub fn split_files(
    alloc: Global,
    repo: &Repo,
    files: Vec<StoredFile>,
    present: &mut BTreeSet<FileName>,
) -> Result<Vec<StoredFile>, AllocError>
    ensures adds { IfOk result (λ adds. adds.items ≡ absent_files repo.now files.items) }
    ensures present { OnOk result ((name : the_name.FileName) → contains name_cmp present.new name
        ≡ (contains name_cmp present.old name
        || list_any (eq_by_cmp name_cmp name) (names_there repo.now files.items))) }
{
    let mut adds = BTreeMap::new(alloc);
    for file in files {
        split_file(repo, &mut adds, present, file)?;
    }
    files_in(alloc, adds)
}

/// The files by name, where all are to be new: none, if the repository has one of them, or two have one name.
pub fn split_new(
    alloc: Global,
    repo: &Repo,
    files: Vec<StoredFile>,
) -> Result<Option<Vec<StoredFile>>, AllocError>
    ensures taken { IfOk result (λ new. is_none new ≡ is_any_taken repo.now files.items) }
    ensures adds { IfOk result (λ new. IfSome new (λ adds. adds.items ≡ absent_files repo.now files.items)) }
{
    let count = files.len();
    let mut there = BTreeSet::new(alloc);
    let adds = split_files(alloc, repo, files, &mut there)?;
    if adds.len() < count {
        return Ok(None);
    }
    Ok(Some(adds))
}

fn files_in(
    alloc: Global,
    files: BTreeMap<FileName, StoredFile>,
) -> Result<Vec<StoredFile>, AllocError>
    ensures files { IfOk result (λ listed. listed.items ≡ map (λ e. e.1) files.entries) }
    ensures ordered { IsOrdered name_cmp files }
{
    files.into_iter().map(|(_, file)| file).collect(alloc)
}

/// Adds a file that the repository hasn't, and no second one of its name. Else its name has to be present.
fn split_file(
    repo: &Repo,
    adds: &mut BTreeMap<FileName, StoredFile>,
    present: &mut BTreeSet<FileName>,
    file: StoredFile,
) -> Result<(), AllocError>
    ensures adds { OnOk result ((name : the_name.FileName) → tree.get name_cmp adds.new name
        ≡ option_or (tree.get name_cmp adds.old name) (find name_cmp name (absent_of repo.now (file ∷ [])))) }
    ensures present { OnOk result ((name : the_name.FileName) → contains name_cmp present.new name
        ≡ (contains name_cmp present.old name
        || list_any (eq_by_cmp name_cmp name) (names_there repo.now (file ∷ [])))) }
{
    let name = file.name();
    if repo.facet_filled(Facet::File(name)) {
        present.insert(name)?;
        return Ok(());
    }
    if adds.contains_key(&name) {
        return Ok(());
    }
    adds.insert(name, file)?;
    Ok(())
}

/// The name of the first of the files that the repository has with other bytes. None is hashed.
pub(crate) fn first_differing(repo: &Repo, files: &[StoredFile]) -> Option<FileName>
    ensures { result ≡ spec.first_differing repo.now files.now }
{
    files
        .iter()
        .find(|file| is_there_otherwise(repo, file))
        .map(|file| file.name())
}

/// Whether the repository has a file of this one's name with other bytes.
fn is_there_otherwise(repo: &Repo, file: &StoredFile) -> bool
    ensures { result ≡ spec.is_there_otherwise repo.now file.now }
{
    match repo.get(file.name()) {
        Some(bytes) => bytes.as_slice() != file.bytes().as_slice(),
        None => false,
    }
}

/// The marks on the packs among the files, by pack. The other packs are put among those that must not be
/// marked.
pub(crate) fn split_marks(
    alloc: Global,
    repo: &Repo,
    files: &[StoredFile],
    unmarked: &mut BTreeSet<Id>,
) -> Result<Vec<PackMark>, AllocError>
    ensures clears { IfOk result (λ clears. clears.items ≡ marks_on repo.now (packs_among files.now)) }
    ensures unmarked { OnOk result ((pack : the_id.Id) → contains id_cmp unmarked.new pack
        ≡ (contains id_cmp unmarked.old pack
        || list_any (eq_by_cmp id_cmp pack) (unmarked_of repo.now (packs_among files.now)))) }
{
    let packs = packs_in(alloc, files)?;
    let mut clears = BTreeMap::new(alloc);
    for pack in &packs {
        split_mark(repo, &mut clears, unmarked, *pack)?;
    }
    marks_in(alloc, clears)
}

fn marks_in(alloc: Global, marks: BTreeMap<Id, Mark>) -> Result<Vec<PackMark>, AllocError>
    ensures marks { IfOk result (λ listed. listed.items ≡ map pack_mark marks.entries) }
    ensures ordered { IsOrdered id_cmp marks }
{
    marks
        .into_iter()
        .map(|(pack, mark)| PackMark { pack, mark })
        .collect(alloc)
}

/// The packs among the files.
fn packs_in(alloc: Global, files: &[StoredFile]) -> Result<Vec<Id>, AllocError>
    ensures { IfOk result (λ packs. packs.items ≡ packs_among files.now) }
{
    files
        .iter()
        .map(|file| file.name())
        .filter(|name| name.kind == Kind::Pack)
        .map(|name| name.id)
        .collect(alloc)
}

/// Puts the pack's mark among those to clear, or the pack among those that must not be marked.
fn split_mark(
    repo: &Repo,
    clears: &mut BTreeMap<Id, Mark>,
    unmarked: &mut BTreeSet<Id>,
    pack: Id,
) -> Result<(), AllocError>
    ensures clears { OnOk result ((packs : List the_id.Id) → AreMarks repo.now packs clears.old
        → AreMarks repo.now (packs ++ pack ∷ []) clears.new) }
    ensures unmarked { OnOk result ((id : the_id.Id) → contains id_cmp unmarked.new id
        ≡ (contains id_cmp unmarked.old id
        || list_any (eq_by_cmp id_cmp id) (unmarked_of repo.now (pack ∷ [])))) }
{
    match repo.mark_of(pack) {
        Some(moment) => {
            clears.insert(pack, Mark { moment })?;
            Ok(())
        }
        None => {
            unmarked.insert(pack)?;
            Ok(())
        }
    }
}

/// Names in order.
pub fn names_in(alloc: Global, names: BTreeSet<FileName>) -> Result<Vec<FileName>, AllocError>
    ensures names { IfOk result (λ listed. listed.items ≡ names.keys) }
    ensures ordered { bag.IsOrdered name_cmp names }
{
    names.into_iter().collect(alloc)
}

/// Packs in order.
pub(crate) fn ids_in(alloc: Global, ids: BTreeSet<Id>) -> Result<Vec<Id>, AllocError>
    ensures ids { IfOk result (λ listed. listed.items ≡ ids.keys) }
    ensures ordered { bag.IsOrdered id_cmp ids }
{
    ids.into_iter().collect(alloc)
}
