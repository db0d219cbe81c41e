ghost use Rattle.std.specs.Prelude.{◌≡◌, IfOk, map};
ghost use Rattle.keep_names.specs.declared.id.Id as the_id;
ghost use Rattle.keep_nodes.specs.Entries.{entry_view};
ghost use Rattle.keep_nodes.specs.Tallies.{tally_of};

use crate::PathNode;
use crate::tally::{Tally, tally_with};
use keep_catalog::Catalog;
use keep_names::Id;
use std::alloc::{AllocError, Global};
use std::collections::BTreeMap;
use std::marker::Model;

/// The lengths of the pieces of a repository, each looked up once: what tallies of many snapshots share.
#[derive(Drop)]
pub struct Lengths<'a> {
    catalog: &'a Catalog<'a>,
    known: BTreeMap<Id, u32>,
}

impl<'a> Model for Lengths<'a> {
    ghost use Rattle.keep_repo.specs.Repository.{Repository, coded_repository};
    ghost use Rattle.keep_nodes.specs.Lengths.{AreLengths};

    ghost Value = { Repository };

    ghost coded = { coded_repository };

    ghost view = { λ l. l.catalog.now };

    ghost invariant = { λ l. AreLengths l.catalog.now l.known };
}

impl<'a> Lengths<'a> {
    /// Nothing is known of the repository yet.
    pub fn new(alloc: Global, catalog: &'a Catalog<'a>) -> Lengths<'a>
        ensures { result ≡ catalog.entry.now }
    {
        Lengths {
            catalog,
            known: BTreeMap::new(alloc),
        }
    }

    /// How many nodes there are of each kind, and how many bytes the files have. A piece that wasn't looked up before is
    /// hashed, unless the repository hashed it.
    pub fn tally(&mut self, entries: &[PathNode]) -> Result<Tally, AllocError>
        ensures same { self.new ≡ self.old }
        ensures tally { IfOk result (λ tally. tally ≡ tally_of self.old (map entry_view entries.now)) }
    {
        tally_with(self.catalog, entries, &mut self.known)
    }
}
