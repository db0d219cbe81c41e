ghost use Rattle.std.specs.Prelude.{◌≡◌, IfOk, Ok, OnOk, Some, string_bytes};
ghost use Rattle.keep_archive.specs.Archive.{archive_view, carried_view};
ghost use Rattle.keep_archive.specs.Walked.{nothing};
ghost use Rattle.keep_members.specs.Carried.{IsCarried};
ghost use Rattle.keep_quoted.specs.Quote as spec;
ghost use Rattle.keep_backups.specs.Sighted.{sighted};

use crate::begun::Begun;
use crate::keeps::Keeps;
use crate::lent::Lent;
use crate::node_members::members_of;
use keep_archive::{Archive, Carried};
use keep_build::Cut;
use keep_catalog::Hashing;
use keep_members::carried;
use keep_plan::PlanError;
use keep_quoted::quote;
use keep_sources::{Skipped, Stat, Stop};
use std::alloc::{AllocError, Global};

/// What a walk gives, on its way into an archive over a book.
#[derive(Drop)]
pub(crate) struct Intake<'a, 'b, B: Begun, K: Keeps, H> {
    pub(crate) alloc: Global,
    pub(crate) lent: &'a mut Lent<'b, B, K, H>,
    pub(crate) archive: Archive,
    /// How many parts were committed.
    pub(crate) parts: u64,
}

/// All that was taken.
#[derive(Drop)]
pub(crate) struct Filled {
    pub(crate) archive: Archive,
    /// How many parts of it were committed.
    pub(crate) parts: u64,
    /// What isn't in it, or not as it was seen.
    pub(crate) skipped: Vec<Skipped>,
}

impl<'a, 'b, B: Begun, K: Keeps, H: Hashing + Copy> Intake<'a, 'b, B, K, H> {
    /// Nothing is given yet.
    pub(crate) fn new(
        alloc: Global,
        lent: &'a mut Lent<'b, B, K, H>,
        cut: Cut,
    ) -> Intake<'a, 'b, B, K, H>
        ensures { archive_view result.archive ≡ Some (nothing cut.bytes) }
    {
        Intake {
            alloc,
            lent,
            archive: Archive::new(alloc, cut),
            parts: 0,
        }
    }

    /// What was taken, where all of it was.
    pub(crate) fn filled(self, done: Result<Vec<Skipped>, Stop>) -> Result<Filled, Stop>
        ensures archive { IfOk result (λ filled. filled.archive ≡ self.entry.archive) }
        ensures skipped { IfOk result (λ filled. done ≡ Ok filled.skipped) }
    {
        let Intake {
            alloc: _,
            lent: _,
            archive,
            parts,
        } = self;
        match done {
            Ok(skipped) => Ok(Filled {
                archive,
                parts,
                skipped,
            }),
            Err(stop) => Err(stop),
        }
    }

    /// What the archive answered.
    pub(crate) fn heed(&mut self, done: Result<(), PlanError>) -> Result<(), Stop>
        ensures done { OnOk result (done ≡ Ok tt) }
        ensures archive { self.new.archive ≡ self.old.archive }
    {
        match done {
            Ok(()) => Ok(()),
            Err(error) => Err(self.lent.unplanned(error)),
        }
    }
}

/// The name as a tree has it.
pub(crate) fn name_of(alloc: Global, name: &str) -> Result<String, AllocError>
    ensures { IfOk result (λ quoted. string_bytes quoted ≡ spec.quoted name.now) }
{
    quote(alloc, name.as_bytes())
}

/// What was seen, as a node carries it.
pub(crate) fn others_of(alloc: Global, sight: &Stat) -> Result<Carried, AllocError>
    ensures { IfOk result (λ others. IsCarried (sighted sight.now) (carried_view others)) }
{
    let members = members_of(sight)?;
    Ok(Carried::of(carried(alloc, &members)?))
}
