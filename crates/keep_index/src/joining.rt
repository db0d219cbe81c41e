ghost use Rattle.std.specs.Prelude.{◌≡◌, ◌++◌, IfOk, List, [], OnOk, if◌then◌else◌, map};
ghost use Rattle.std.specs.List.{AllByRecursion, IsDistinct, list_any};
ghost use Rattle.std.specs.Ordering.{eq_by_cmp};
ghost use Rattle.keep_names.specs.Laws.{TellsApart};
ghost use Rattle.keep_names.specs.declared.blob.Blob as the_blob;
ghost use Rattle.keep_names.specs.declared.id.Id as the_id;
ghost use Rattle.keep_index.specs.Index.{Fits, PackData, index_view};
ghost use Rattle.keep_index.specs.Joining.{blobs_of, entry_cmp, ids_of, joined, lists_entry, lists_pack, same_entry, same_id};
ghost use Rattle.keep_index.specs.Joining as spec;
ghost use Rattle.keep_index.specs.Listed.{kept_blobs};

use crate::index::{Index, IndexedPack};
use keep_names::{Blob, Id};
use std::alloc::{AllocError, Global};
use std::collections::{BTreeMap, BTreeSet};

/// Several indexes as one: each pack once, where it is seen first, with the blobs that any of them lists in it,
/// in the order in which they are seen first. Blobs of one id at two places are two.
pub fn join(alloc: Global, indexes: &[Index]) -> Result<Index, AllocError>
    ensures { IfOk result (λ index. index_view index ≡ joined (map index_view indexes.now)) }
{
    let mut listed = Listed::new(alloc);
    for index in indexes {
        listed.add_all(alloc, &index.packs)?;
    }
    let packs = listed.merged(alloc)?;
    Ok(Index { packs })
}

/// What is listed of packs.
#[derive(Drop)]
struct Listed {
    /// The ids of the packs, in order. One may stand twice.
    ids: Vec<Id>,
    /// The blobs of each pack, in order. One may stand twice.
    blobs: BTreeMap<Id, Vec<Blob>>,
}

impl Listed {
    ghost use Rattle.std.specs.Prelude.{◌∷◌};
    ghost use Rattle.keep_index.specs.Index.{pack_view};
    ghost use Rattle.keep_index.specs.Joining.{merged_packs};
    ghost use Rattle.keep_index.specs.Listed.{Gathers};

    /// Nothing is listed yet.
    fn new(alloc: Global) -> Listed
        ensures { Gathers [] result }
    {
        Listed {
            ids: Vec::new(alloc),
            blobs: BTreeMap::new(alloc),
        }
    }

    /// Adds what an index lists.
    fn add_all(&mut self, alloc: Global, packs: &[IndexedPack]) -> Result<(), AllocError>
        ensures { OnOk result ((before : List PackData) → Gathers before self.old
            → Gathers (before ++ map pack_view packs.now) self.new) }
    {
        for pack in packs {
            self.add(alloc, pack)?;
        }
        Ok(())
    }

    /// Adds what an index lists of a pack.
    fn add(&mut self, alloc: Global, pack: &IndexedPack) -> Result<(), AllocError>
        ensures { OnOk result ((before : List PackData) → Gathers before self.old
            → Gathers (before ++ pack_view pack.now ∷ []) self.new) }
    {
        self.ids.push(pack.id)?;
        add_blobs(alloc, &mut self.blobs, pack.id, &pack.blobs)
    }

    /// The packs that are listed, each once, with its blobs, each once.
    fn merged(&self, alloc: Global) -> Result<Vec<IndexedPack>, AllocError>
        ensures { IfOk result (λ packs. (all : List PackData) → Gathers all self.now
            → map pack_view packs.items ≡ merged_packs all) }
    {
        let ids = first_of_each(alloc, &self.ids)?;
        let mut packs = Vec::new(alloc);
        for id in &ids {
            let blobs = self.blobs_once(alloc, *id)?;
            packs.push(IndexedPack { id: *id, blobs })?;
        }
        Ok(packs)
    }

    /// The blobs of a pack, each once.
    fn blobs_once(&self, alloc: Global, id: Id) -> Result<Vec<Blob>, AllocError>
        ensures { IfOk result (λ blobs. blobs.items
            ≡ spec.first_of_each same_entry (kept_blobs self.now.blobs id)) }
    {
        match self.blobs.get(&id) {
            Some(blobs) => first_of_each(alloc, blobs),
            None => Ok(Vec::new(alloc)),
        }
    }
}

/// Puts blobs behind those of their pack.
fn add_blobs(
    alloc: Global,
    blobs: &mut BTreeMap<Id, Vec<Blob>>,
    pack: Id,
    more: &[Blob],
) -> Result<(), AllocError>
    ensures { OnOk result ((id : the_id.Id) → kept_blobs blobs.new id
        ≡ kept_blobs blobs.old id ++ (if same_id id pack then more.now else [])) }
{
    let mut of_pack = blobs.remove(&pack).unwrap_or(Vec::new(alloc));
    of_pack.extend_from_slice(more)?;
    blobs.insert(pack, of_pack)?;
    Ok(())
}

/// The first of each that are equal, in order.
fn first_of_each<T: Ord + Copy>(alloc: Global, items: &[T]) -> Result<Vec<T>, AllocError>
    ensures { IfOk result (λ firsts. firsts.items ≡ spec.first_of_each (eq_by_cmp T.cmp) items.now) }
{
    let mut seen = BTreeSet::new(alloc);
    let mut firsts = Vec::new(alloc);
    for item in items {
        if seen.insert(*item)? {
            firsts.push(*item)?;
        }
    }
    Ok(firsts)
}

/// What is joined lists the packs and the entries that one of the indexes lists, and no others: each pack once, and
/// in it no entry twice. Entries are one where id, type, offset and length are. What fits still fits, so what is
/// joined of indexes that were read can be written and read back.
pub fn what_is_joined_is_listed()
    ensures packs { (indexes : List (List PackData)) (id : the_id.Id)
        → lists_pack (joined indexes) id ≡ list_any (λ packs. lists_pack packs id) indexes }
    ensures entries { (indexes : List (List PackData)) (id : the_id.Id) (entry : the_blob.Blob)
        → lists_entry (joined indexes) id entry ≡ list_any (λ packs. lists_entry packs id entry) indexes }
    ensures packs_once { (indexes : List (List PackData)) → IsDistinct same_id (ids_of (joined indexes)) }
    ensures entries_once { (indexes : List (List PackData)) (id : the_id.Id)
        → IsDistinct same_entry (blobs_of (joined indexes) id) }
    ensures exact { TellsApart entry_cmp }
    ensures fits { (indexes : List (List PackData)) → AllByRecursion Fits indexes → Fits (joined indexes) }
{}
