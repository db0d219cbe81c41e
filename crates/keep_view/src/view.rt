ghost use Rattle.std.specs.Prelude.{◌≡◌, ◌≢◌, [], Some, IfErr, IfOk, option_map, slice_get};
ghost use Rattle.std.specs.BTreeSet.{contains};
ghost use Rattle.std.specs.FinSet as set;
ghost use Rattle.keep_names.specs.Orders.{id_cmp};
ghost use Rattle.keep_names.specs.declared.id.Id as the_id;
ghost use Rattle.keep_catalog.specs.Files.{unread_in};
ghost use Rattle.keep_catalog.specs.declared.catalog_error.CatalogError.TheVariants as the_error;
ghost use Rattle.keep_journal.specs.Opening.{IsOpen, opening_under};
ghost use Rattle.keep_view.specs.Shown.{shown_alone, shown_of};

use crate::known::known_snapshots;
use keep_catalog::{Catalog, CatalogError, LiveRepo};
use keep_journal::History;
use keep_names::Id;
use keep_repo::Repo;
use std::alloc::{AllocError, Global};
use std::collections::BTreeSet;
use std::marker::Model;

/// A repository at a moment of its history, as planners and readers are shown it.
///
/// It borrows both, and computes nothing that isn't asked for.
#[derive(Drop)]
pub struct View<'a> {
    live: &'a LiveRepo,
    history: &'a History,
}

impl<'a> Model for View<'a> {
    ghost use Rattle.keep_view.specs.Shown.{Shown, coded_shown, shown_of};
    ghost use Rattle.keep_journal.specs.Opening.{IsOpen, opening_under};

    ghost Value = { Shown };

    ghost coded = { coded_shown };

    ghost view = { λ v. shown_of
        (opening_under v.history.now.journal v.live.now) v.history.now.journal v.live.now };

    ghost invariant = { λ v. IsOpen
        (opening_under v.history.now.journal v.live.now) v.history.now.journal v.live.now };
}

impl<'a> View<'a> {
    /// The live repository under its history.
    pub fn of(live: &'a LiveRepo, history: &'a History) -> View<'a>
        requires { let journal = history.now.journal in
            IsOpen (opening_under journal live.now) journal live.now }
        ensures { let journal = history.entry.now.journal in
            result ≡ shown_of (opening_under journal live.entry.now) journal live.entry.now }
    {
        View { live, history }
    }

    /// The repository under a history that has no events yet.
    pub fn without_events(live: &'a LiveRepo, history: &'a History) -> View<'a>
        requires { history.now.journal.entries ≡ [] }
        ensures { result ≡ shown_alone live.entry.now }
    {
        View { live, history }
    }

    pub fn repo(&self) -> &'a Repo
        ensures { result.now ≡ self.now.repo }
    {
        self.live.repo()
    }

    /// The number of the last event, 0 where there is none.
    pub fn length(&self) -> u64
        ensures { result ≡ self.now.length }
    {
        self.history.length()
    }

    /// The catalog, if each pack, index and snapshot can be read. Else the first that can't, by name.
    pub fn catalog(&self, alloc: Global) -> Result<Catalog<'a>, CatalogError>
        ensures catalog { IfOk result (λ catalog. catalog ≡ self.now.repo) }
        ensures all_read { IfOk result (λ _. unread_in self.now.repo ≡ []) }
        ensures refused { IfErr result (λ error. error ≢ the_error.Memory
            → option_map the_error.Unread (slice_get (unread_in self.now.repo) 0) ≡ Some error) }
    {
        self.live.catalog(alloc)
    }

    /// The catalog past the files that can't be read. Those have and list nothing.
    pub fn read_past(&self, alloc: Global) -> Result<Catalog<'a>, AllocError>
        ensures { IfOk result (λ catalog. catalog ≡ self.now.repo) }
    {
        self.live.read_past(alloc)
    }

    /// The names of the snapshots of the opening and of every change that isn't final and adds one.
    pub fn known(&self, alloc: Global) -> Result<BTreeSet<Id>, AllocError>
        ensures all { IfOk result (λ known. set.from_list known.keys ≡ self.now.known) }
        ensures each { IfOk result (λ known. (id : the_id.Id) →
            contains id_cmp known id ≡ set.contains self.now.known id) }
    {
        known_snapshots(alloc, self.history, self.live.repo())
    }
}
