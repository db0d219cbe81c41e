ghost use Rattle.std.specs.Prelude.{◌≡◌, IfErr, IfOk, IfSome, Ok, Some, map, string_bytes};
ghost use Rattle.std.specs.Option.{unwrap_or};
ghost use Rattle.keep_archive.specs.Archive.{ArchiveData, archive_view};
ghost use Rattle.keep_backup.specs.Backup.{facts_view};
ghost use Rattle.keep_book.specs.Armed.{HasSums, ledger_of};
ghost use Rattle.keep_ledger.specs.Sums.{AreSums};
ghost use Rattle.keep_sources.specs.Took.{TookAll, skip_view};
ghost use Rattle.keep_sources.specs.Walked.{archive_of, skipped_of};
ghost use Rattle.keep_backups.specs.Parts.{AddsSnapshot, BacksUp, IsCause, StoresParts};
ghost use Rattle.keep_backups.specs.Taken.{Gives, kept_in, taken_of};
ghost use Rattle.keep_backups.specs.Trees.{IsTreeOf};
ghost use Rattle.keep_backups.specs.declared.not_backed_up.NotBackedUp.TheVariants.{Unplanned};
ghost use Rattle.keep_plan.specs.declared.plan_error.PlanError.TheVariants.{Memory};

use crate::backed_up::BackedUp;
use crate::begun::Begun;
use crate::intake::{Filled, Intake};
use crate::keeps::Keeps;
use crate::lent::{Given, Lent, remember};
use crate::not_backed_up::NotBackedUp;
use keep_backup::BackupFacts;
use keep_book::Book;
use keep_build::Cut;
use keep_catalog::Hashing;
use keep_plan::PlanError;
use keep_shelf::Shelf;
use keep_sources::{Receives, Scope, Skipped, Source, Stop, Taking};
use std::alloc::{AllocError, Global};
use std::marker::{Brand, PhantomData};

/// What of a source a backup takes, and how its files are cut.
#[derive(Drop)]
pub struct Wish<'a> {
    pub job: &'a Scope,
    pub facts: &'a BackupFacts,
    pub tags: &'a [String],
    pub cut: Cut,
}

/// Backs up what the job asks for of the source, where packs and the blobs that it rests on are hashed by this: parts of 64 MiB and more are committed one after another, and then the
/// change that adds the snapshot, with these facts and tags. What isn't in the snapshot's tree, or not as it was seen, is
/// named.
///
/// Where no snapshot is added the parts that were committed stay. No change is planned over a file that was built for it
/// and is there with other bytes: the first such file is named.
pub fn back_up<S: Shelf, R: Source, H: Hashing + Copy>(
    alloc: Global,
    book: &mut Book<S>,
    source: R,
    hashing: H,
    wish: &Wish<'_>,
) -> Result<BackedUp, NotBackedUp>
    requires { HasSums book.old }
    ensures backed_up { IfOk result (λ done. ∥ BacksUp R.told wish.now.job.now wish.now.cut.bytes
        (facts_view wish.now.facts.now) (map string_bytes wish.now.tags.now)
        (ledger_of book.old) (ledger_of book.new) done.skipped.items ∥₁) }
    ensures refused { IfErr result (λ _. ∥ StoresParts (ledger_of book.old) (ledger_of book.new) ∥₁) }
    ensures cause { IfErr result (λ cause. ∥ IsCause (ledger_of book.new) cause ∥₁) }
    ensures sums { HasSums book.new }
{
    let given = Given { book };
    let (given, filled) = filled::<Brand, Book<S>, R, H>(alloc, given, source, hashing, wish);
    let Given { book } = given;
    let filled = filled?;
    add_snapshot(alloc, book, filled, hashing, wish)
}

/// Takes what the job asks for, and commits parts of it. It hands the book back.
fn filled<'b, B: Begun, K: Keeps, R: Source, H: Hashing + Copy>(
    alloc: Global,
    given: Given<'b, K>,
    source: R,
    hashing: H,
    wish: &Wish<'_>,
) -> (Given<'b, K>, Result<Filled, NotBackedUp>)
    requires sums { let k = given.book.now in AreSums (K.ledger k).events (K.hooks k).watches (K.tallies k) }
    requires name { given.book.ghost_name ≡ B.name }
    requires before { K.ledger given.book.now ≡ B.before }
    ensures same_reference { result.0.book.ghost_name ≡ given.entry.book.ghost_name }
    ensures sums { let k = result.0.book.now in AreSums (K.ledger k).events (K.hooks k).watches (K.tallies k) }
    ensures parts { ∥ StoresParts B.before (K.ledger result.0.book.now) ∥₁ }
    ensures cause { IfErr result.1 (λ cause. ∥ IsCause (K.ledger result.0.book.now) cause ∥₁) }
    ensures tree { IfOk result.1 (λ filled. IfSome (archive_view filled.archive) (λ archive.
        IsTreeOf R.told wish.now.job.now wish.now.cut.bytes (kept_in archive.blobs) archive.place.nodes
        filled.skipped.items)) }
{
    let Given { book } = given;
    let mut lent: Lent<'b, B, K, H> = Lent {
        book,
        hashing,
        refusal: None,
        of: PhantomData,
    };
    let filled = fill(alloc, &mut lent, source, wish);
    let Lent {
        book,
        hashing: _,
        refusal,
        of: _,
    } = lent;
    (Given { book }, filled_or_why(filled, refusal))
}

/// What was taken, or why not all of it was: that is kept, unless memory ran out.
fn filled_or_why(
    filled: Result<Filled, Stop>,
    refusal: Option<NotBackedUp>,
) -> Result<Filled, NotBackedUp>
    ensures filled { IfOk result (λ all. filled ≡ Ok all) }
    ensures cause { IfErr result (λ cause. cause ≡ unwrap_or refusal (Unplanned Memory)) }
{
    match filled {
        Ok(filled) => Ok(filled),
        Err(_) => Err(refusal.unwrap_or(NotBackedUp::Unplanned(PlanError::Memory))),
    }
}

/// Commits the change that adds the snapshot. What it rests on is hashed first, unless it was stored by this backup.
fn add_snapshot<K: Keeps, H: Hashing + Copy>(
    alloc: Global,
    book: &mut K,
    filled: Filled,
    mut hashing: H,
    wish: &Wish<'_>,
) -> Result<BackedUp, NotBackedUp>
    requires { AreSums (K.ledger book.old).events (K.hooks book.old).watches (K.tallies book.old) }
    ensures added { IfOk result (λ _. (archive : ArchiveData) × (archive_view filled.archive ≡ Some archive)
        × AddsSnapshot (K.ledger book.old) (K.ledger book.new) archive
        (facts_view wish.now.facts.now) (map string_bytes wish.now.tags.now)) }
    ensures skipped { IfOk result (λ done. done.skipped ≡ filled.skipped) }
    ensures refused { IfErr result (λ _. K.ledger book.new ≡ K.ledger book.old) }
    ensures cause { IfErr result (λ cause. ∥ IsCause (K.ledger book.new) cause ∥₁) }
    ensures sums { AreSums (K.ledger book.new).events (K.hooks book.new).watches (K.tallies book.new) }
{
    let Filled {
        archive,
        parts,
        skipped,
    } = filled;
    remember(book, &archive);
    book.hash_blobs(archive.named(), &mut hashing);
    let view = book.view();
    let planned = archive.plan_backup(alloc, &view, wish.facts, wish.tags, &mut hashing)?;
    match book.commit(planned) {
        Ok(made) => Ok(BackedUp {
            made,
            parts,
            skipped,
        }),
        Err(refusal) => Err(NotBackedUp::Refused(refusal)),
    }
}

/// Takes what the job asks for, and commits parts of it.
fn fill<B: Begun, K: Keeps, R: Source, H: Hashing + Copy>(
    alloc: Global,
    lent: &mut Lent<'_, B, K, H>,
    source: R,
    wish: &Wish<'_>,
) -> Result<Filled, Stop>
    ensures same_reference { lent.new.book.ghost_name ≡ lent.old.book.ghost_name }
    ensures tree { IfOk result (λ filled. IfSome (archive_view filled.archive) (λ archive.
        IsTreeOf R.told wish.now.job.now wish.now.cut.bytes (kept_in archive.blobs) archive.place.nodes
        filled.skipped.items)) }
{
    let intake = Intake::new(alloc, lent, wish.cut);
    let taking = Taking::new(alloc, source, intake)?;
    walk(alloc, taking, wish.job)
}

/// Takes what the job asks for, by a walk that has taken nothing yet, and commits parts of it.
fn walk<B: Begun, K: Keeps, R: Source, H: Hashing + Copy>(
    alloc: Global,
    mut taking: Taking<R, Intake<'_, '_, B, K, H>>,
    job: &Scope,
) -> Result<Filled, Stop>
    ensures { IfOk result (λ filled. TookAll R.told Gives job.now
        (taken_of (archive_view (archive_of taking.entry).archive)) (taken_of (archive_view filled.archive))
        (skipped_of taking.entry) filled.skipped.items) }
{
    let done = walk_source(alloc, &mut taking, job);
    let (_source, intake) = taking.into_parts();
    intake.filled(done)
}

/// Goes the walk. It gives what isn't taken, or not as it was seen.
fn walk_source<A: Receives, R: Source>(
    alloc: Global,
    taking: &mut Taking<R, A>,
    job: &Scope,
) -> Result<Vec<Skipped>, Stop>
    ensures { IfOk result (λ skipped. TookAll R.told A.gives job.now
        (A.seen (archive_of taking.old)) (A.seen (archive_of taking.new)) (skipped_of taking.old) skipped.items) }
{
    taking.take(job)?;
    let skipped = copies(alloc, taking.skipped())?;
    Ok(skipped)
}

/// A copy of the list.
fn copies(alloc: Global, skipped: &[Skipped]) -> Result<Vec<Skipped>, AllocError>
    ensures { IfOk result (λ copies. map skip_view copies.items ≡ map skip_view skipped.now) }
{
    let mut copies = Vec::new(alloc);
    for one in skipped {
        let path = one.path.clone()?;
        copies.push(Skipped { path, why: one.why })?;
    }
    Ok(copies)
}
