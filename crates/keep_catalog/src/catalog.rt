ghost use Rattle.std.specs.Prelude.{◌≡◌, ◌≢◌, [], Some, IfOk, IfErr, map, option_map, slice_get};
ghost use Rattle.std.specs.BTreeMap.{IsOrdered};
ghost use Rattle.std.specs.FinMap as finite;
ghost use Rattle.keep_names.specs.Orders.{id_cmp};
ghost use Rattle.keep_names.specs.declared.id.Id as the_id;
ghost use Rattle.keep_snap.specs.Snap.{snap_view};
ghost use Rattle.keep_tree.specs.Tree.{node_view};
ghost use Rattle.keep_catalog.specs.Files.{indexes_in, packs_in, packs_view, snap_in, snaps_in, unread_in};
ghost use Rattle.keep_catalog.specs.Naming.{missing, named_by, nodes_at_spot, nodes_under};
ghost use Rattle.keep_catalog.specs.Places.{chosen, chosen_listing, reuse_of};
ghost use Rattle.keep_catalog.specs.Places as spec;
ghost use Rattle.keep_catalog.specs.Kept.{IsKept, packs_at, snap_at};
ghost use Rattle.keep_docs.specs.Doc.{Answers};
ghost use Rattle.keep_catalog.specs.declared.reach_error.ReachError.TheVariants as the_reach_error;
ghost use Rattle.keep_catalog.specs.declared.catalog_error.CatalogError.TheVariants as the_error;

use crate::bytes_there::bytes_at;
use crate::catalog_error::CatalogError;
use crate::named_blobs::{Named, names_at, nodes_at};
use crate::reach_error::ReachError;
use crate::spot::{PackedBlob, Spot};
use crate::tables::{Tables, unread_files};
use crate::unread::Unread;
use crate::usable_listings::{first_usable, some_honest, some_stored};
use keep_index::IndexedPack;
use keep_names::{BlobId, Id};
use keep_repo::Repo;
use keep_snap::Snap;
use keep_tree::Node;
use std::alloc::{AllocError, Global};
use std::collections::BTreeMap;
use std::marker::Model;

/// A repository, and where its blobs are.
///
/// It is lent by a `LiveRepo`, which has read each pack, index and snapshot once, or makes its tables by reading
/// them. Nothing is hashed then: a blob's spots are hashed when it is asked for, up to the first that is honest,
/// unless the `LiveRepo` hashed them before.
#[derive(Drop)]
pub struct Catalog<'a> {
    pub(crate) repo: &'a Repo,
    source: Source<'a>,
}

/// Tables of a catalog's own, or those of a live repository.
#[derive(Drop)]
enum Source<'a> {
    Own(Tables),
    Lent(&'a Tables),
}

impl<'a> Model for Catalog<'a> {
    ghost use Rattle.keep_repo.specs.Repository.{Repository, coded_repository};
    ghost use Rattle.keep_catalog.specs.Source.{IsSource};

    ghost Value = { Repository };

    ghost coded = { coded_repository };

    ghost view = { λ c. c.repo.now };

    ghost invariant = { λ c. IsSource c.repo.now c.source };
}

impl<'a> Catalog<'a> {
    /// The catalog, if each pack, index and snapshot can be read. Else the first that can't, by name.
    pub fn of(alloc: Global, repo: &'a Repo) -> Result<Catalog<'a>, CatalogError>
        ensures catalog { IfOk result (λ catalog. catalog ≡ repo.entry.now) }
        ensures all_read { IfOk result (λ _. unread_in repo.entry.now ≡ []) }
        ensures refused { IfErr result (λ error. error ≢ the_error.Memory
            → option_map the_error.Unread (slice_get (unread_in repo.entry.now) 0) ≡ Some error) }
    {
        Catalog::read_past(alloc, repo)?.if_all_read()
    }

    /// The catalog past the files that can't be read. Those have and list nothing.
    pub fn read_past(alloc: Global, repo: &'a Repo) -> Result<Catalog<'a>, AllocError>
        ensures { IfOk result (λ catalog. catalog ≡ repo.entry.now) }
    {
        let source = Source::Own(Tables::of(alloc, repo)?);
        Ok(Catalog { repo, source })
    }

    /// The catalog itself, if nothing was passed over in it. Else the first file that was, by name.
    pub(crate) fn if_all_read(self) -> Result<Catalog<'a>, CatalogError>
        ensures catalog { IfOk result (λ catalog. catalog ≡ self.entry) }
        ensures all_read { IfOk result (λ _. unread_in self.entry ≡ []) }
        ensures refused { IfErr result (λ error.
            option_map the_error.Unread (slice_get (unread_in self.entry) 0) ≡ Some error) }
    {
        match self.tables().first_unread() {
            Some(first) => Err(CatalogError::Unread(first)),
            None => Ok(self),
        }
    }

    /// The files that can't be read, by name.
    pub fn unread(&self, alloc: Global) -> Result<Vec<Unread>, AllocError>
        ensures { IfOk result (λ files. files.items ≡ unread_in self.now) }
    {
        let files = unread_files(alloc, &self.tables().unread)?;
        Ok(files)
    }

    /// The catalog of a repository that lends its tables.
    pub(crate) fn lent(repo: &'a Repo, tables: &'a Tables) -> Catalog<'a>
        requires { IsKept repo.now tables.now }
        ensures { result ≡ repo.entry.now }
    {
        let source = Source::Lent(tables);
        Catalog { repo, source }
    }

    pub(crate) fn tables(&self) -> &Tables
        ensures { IsKept self.now result.now }
    {
        match &self.source {
            Source::Own(tables) => tables,
            Source::Lent(tables) => tables,
        }
    }

    /// What each index that can be read says of packs, by name. It is kept as it was read.
    pub fn indexes(&self) -> &BTreeMap<Id, Vec<IndexedPack>>
        ensures each { (name : the_id.Id) → packs_at result.now name ≡ packs_in self.now name }
        ensures all { map packs_view result.now.entries ≡ indexes_in self.now }
        ensures ordered { IsOrdered id_cmp result.now }
    {
        &self.tables().indexes
    }

    /// The snapshots that can be read, by name.
    pub fn snaps(&self) -> &BTreeMap<Id, Snap>
        ensures each { (name : the_id.Id) → snap_at result.now name ≡ snap_in self.now name }
        ensures all { map (λ e. (e.0, snap_view e.1)) result.now.entries
            ≡ finite.entries (snaps_in self.now) }
        ensures ordered { IsOrdered id_cmp result.now }
    {
        &self.tables().snaps
    }

    /// The bytes at the spot, if its pack is there and has as many. Whose id they have isn't asked.
    pub fn bytes_at(&self, spot: Spot) -> Option<&[u8]>
        ensures { option_map (λ bytes. bytes.now) result ≡ spec.bytes_at self.entry.now spot }
    {
        bytes_at(self.repo, spot)
    }

    /// The chosen place of the blob: the least in an unmarked pack.
    pub fn place(&self, blob: BlobId) -> Option<PackedBlob>
        ensures { result ≡ chosen self.now blob }
    {
        let (spot, _) = self.choose(blob)?;
        Some(PackedBlob { blob, spot })
    }

    /// The pack of the chosen place, and the least-named index that lists it.
    pub fn reuse(&self, blob: BlobId) -> Option<(Id, Id)>
        ensures { result ≡ reuse_of self.now blob }
    {
        let (spot, index) = self.choose(blob)?;
        Some((spot.pack, index))
    }

    /// The nodes of a tree at its chosen place. Else why it can't be had: no place is chosen, or its bytes aren't
    /// a tree.
    pub fn nodes(&self, alloc: Global, tree: Id) -> Result<Vec<Node>, ReachError>
        ensures { Answers the_reach_error.Memory (λ nodes. map node_view nodes.items)
            (nodes_under self.now tree) result }
    {
        let blob = BlobId::tree(tree);
        let Some((spot, _)) = self.choose(blob) else {
            return Err(self.missing(blob));
        };
        self.nodes_at(alloc, spot)
    }

    /// The nodes of the tree at this spot, as where a walk found one. Nothing is hashed.
    pub fn nodes_at(&self, alloc: Global, spot: Spot) -> Result<Vec<Node>, ReachError>
        ensures { Answers the_reach_error.Memory (λ nodes. map node_view nodes.items)
            (nodes_at_spot self.now spot) result }
    {
        nodes_at(alloc, self.repo, spot)
    }

    /// The chosen spot, and the least-named index that lists the blob there.
    fn choose(&self, blob: BlobId) -> Option<(Spot, Id)>
        ensures { result ≡ chosen_listing self.now blob }
    {
        let tables = self.tables();
        let listings = tables.listed.get(&blob)?;
        first_usable(self.repo, &tables.stored, blob, listings)
    }

    /// The chosen listing of the blob, and what it names there: a tree the trees and pieces of its nodes, a piece
    /// nothing. Else why it can't be had.
    pub fn named(&self, alloc: Global, blob: BlobId) -> Result<Named, ReachError>
        ensures names { Answers the_reach_error.Memory (λ named. named.names.items)
            (named_by self.now blob) result }
        ensures chosen { IfOk result (λ named.
            chosen_listing self.now blob ≡ Some (named.spot, named.index)) }
    {
        let Some((spot, index)) = self.choose(blob) else {
            return Err(self.missing(blob));
        };
        let names = names_at(alloc, self.repo, blob.blob_type, spot)?;
        Ok(Named { spot, index, names })
    }

    /// Why the blob has no chosen place.
    fn missing(&self, blob: BlobId) -> ReachError
        ensures { result ≡ missing self.now blob }
    {
        let tables = self.tables();
        let Some(listings) = tables.listed.get(&blob) else {
            return ReachError::MissingBlob(blob.id);
        };
        let stored = &tables.stored;
        if some_stored(self.repo, stored, blob, listings)
            && !some_honest(self.repo, stored, blob, listings)
        {
            ReachError::WrongHash(blob.id)
        } else {
            ReachError::MissingBlob(blob.id)
        }
    }
}
