ghost use Rattle.std.specs.Prelude.{◌≡◌};
ghost use Rattle.keep_ledger.specs.Sums.{AreSums};
ghost use Rattle.keep_backups.specs.Parts.{IsCauseIfAny, IsPartOn, StoresParts};

use crate::begun::Begun;
use crate::keeps::Keeps;
use crate::not_backed_up::NotBackedUp;
use keep_archive::{Archive, KnownHashing};
use keep_catalog::Hashing;
use keep_change::Planned;
use keep_plan::PlanError;
use keep_sources::Stop;
use std::alloc::Global;
use std::marker::PhantomData;

/// The book as it is given.
pub(crate) struct Given<'b, K: Keeps> {
    pub(crate) book: &'b mut K,
}

/// The book while a backup goes on: parts were committed since it began, and nothing else.
#[derive(Drop)]
pub(crate) struct Lent<'b, B: Begun, K: Keeps, H> {
    pub(crate) book: &'b mut K,
    pub(crate) hashing: H,
    /// Why no more is taken, if it isn't memory that ran out.
    pub(crate) refusal: Option<NotBackedUp>,
    pub(crate) of: PhantomData<B>,
    pub ghost same: { book.ghost_name ≡ B.name },
    pub ghost sums: { AreSums (K.ledger book.now).events (K.hooks book.now).watches (K.tallies book.now) },
    pub ghost parts: { ∥ StoresParts B.before (K.ledger book.now) ∥₁ },
    pub ghost cause: { ∥ IsCauseIfAny (K.ledger book.now) refusal ∥₁ },
}

impl<'b, B: Begun, K: Keeps, H: Hashing + Copy> Lent<'b, B, K, H> {
    ghost use Rattle.std.specs.Prelude.{IfErr, IfOk, IfSome, None, OnOk};
    ghost use Rattle.keep_acts.specs.Shown.{shown_by};
    ghost use Rattle.keep_archive.specs.Archive.{archive_view};
    ghost use Rattle.keep_archive.specs.Plans.{part_differing};
    ghost use Rattle.keep_backups.specs.Parts.{IsCause};

    /// Commits what the archive holds, unless all of it is stored. It tells whether that was a change. After a refusal
    /// nothing is. Where it goes on, no file that was built for the part is there with other bytes.
    pub(crate) fn store(&mut self, alloc: Global, archive: &Archive) -> Result<bool, Stop>
        ensures { OnOk result (IfSome (archive_view archive.now)
            (λ a. part_differing (shown_by (K.ledger self.old.book.now)).repo a ≡ None)) }
    {
        if self.refusal.is_some() {
            return Err(Stop::Refused);
        }
        match self.part(alloc, archive) {
            Ok(Some(planned)) => {
                self.commit(planned)?;
                remember(self.book, archive);
                Ok(true)
            }
            Ok(None) => Ok(false),
            Err(cause) => Err(self.stop(cause)),
        }
    }

    /// Nothing more is taken, as this isn't planned.
    pub(crate) fn unplanned(&mut self, error: PlanError) -> Stop {
        self.stop(NotBackedUp::Unplanned(error))
    }

    /// Nothing more is taken for this cause.
    fn stop(&mut self, cause: NotBackedUp) -> Stop
        requires { ∥ IsCause (K.ledger self.old.book.now) cause ∥₁ }
    {
        self.refusal = Some(cause);
        Stop::Refused
    }

    /// The change that stores what the archive holds.
    fn part(&self, alloc: Global, archive: &Archive) -> Result<Option<Planned>, NotBackedUp>
        ensures part { IfOk result (λ part. IfSome part (λ planned. ∥ IsPartOn (K.ledger self.now.book.now) planned ∥₁)) }
        ensures none_differs { OnOk result (IfSome (archive_view archive.now)
            (λ a. part_differing (shown_by (K.ledger self.now.book.now)).repo a ≡ None)) }
        ensures cause { IfErr result (λ cause. ∥ IsCause (K.ledger self.now.book.now) cause ∥₁) }
    {
        let view = self.book.view();
        let mut hashing = self.hashing;
        let part = archive.plan_part(alloc, &view, &mut hashing)?;
        Ok(part)
    }

    /// Commits a part.
    fn commit(&mut self, planned: Planned) -> Result<(), Stop>
        requires part { ∥ IsPartOn (K.ledger self.old.book.now) planned ∥₁ }
        requires going { self.old.refusal ≡ None }
    {
        match self.book.commit(planned) {
            Ok(_) => Ok(()),
            Err(refusal) => {
                self.refusal = Some(NotBackedUp::Refused(refusal));
                Err(Stop::Refused)
            }
        }
    }
}

/// Remembers what the book has of the blobs that the archive holds, as if it were hashed: bytes that are held aren't.
pub(crate) fn remember<K: Keeps>(book: &mut K, archive: &Archive)
    requires { AreSums (K.ledger book.old).events (K.hooks book.old).watches (K.tallies book.old) }
    ensures ledger { K.ledger book.new ≡ K.ledger book.old }
    ensures sums { AreSums (K.ledger book.new).events (K.hooks book.new).watches (K.tallies book.new) }
{
    for held in archive.waiting() {
        book.hash_blobs(&[held.name()], &mut KnownHashing::of(held));
    }
}
