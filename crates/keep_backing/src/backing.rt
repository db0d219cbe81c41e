ghost use Rattle.std.specs.Prelude.{◌≡◌, [], IfErr, IfOk, IfSome, None, map, string_bytes};
ghost use Rattle.keep_backing.specs.Asked.{IsAskedAnew, facts_of as asked_facts, job_of as asked_job};
ghost use Rattle.keep_backing.specs.Backed.{MayBeBackedUp};
ghost use Rattle.keep_backups.specs.Parts.{BacksUp, StoresParts};
ghost use Rattle.keep_book.specs.Armed.{HasSums, ledger_of};
ghost use Rattle.keep_run.specs.Cutting.{piece_length};

use crate::asked::Asked;
use crate::printing::print_end;
use keep_backups::{BackedUp, NotBackedUp, Wish, back_up};
use keep_book::Book;
use keep_catalog::Hashing;
use keep_plan::PlanError;
use keep_progress::{CountedSource, Meter};
use keep_run::{Failure, Run, require_sure};
use keep_shelf::Shelf;
use keep_sources::Source;
use keep_words::Backup;
use std::collections::HashMap;

/// `keep backup` of what is asked for of this source. Where it is tried alone, the book is one over a copy in memory. This
/// hashes what can be hashed together.
///
/// Where it ends well nothing was left out. Where a file that was known lacks a piece by now there is no snapshot, and what is handed back is to be asked for: of
/// it no file is known.
pub fn backup<S: Shelf, R: Source, H: Hashing + Copy>(
    run: &Run<'_>,
    source: R,
    hashing: H,
    book: &mut Book<S>,
    words: &Backup<'_>,
    asked: Asked,
) -> Result<Option<Asked>, Failure>
    requires { HasSums book.old }
    ensures added { IfOk result (λ again. again ≡ None → ∥ BacksUp R.told (asked_job asked) piece_length (asked_facts asked)
        (map (λ tag. tag.now) words.now.tags.items) (ledger_of book.old) (ledger_of book.new) [] ∥₁) }
    ensures again { IfOk result (λ again. IfSome again (λ anew. IsAskedAnew asked anew)) }
    ensures parts { IfOk result (λ again. IfSome again (λ _. ∥ StoresParts (ledger_of book.old) (ledger_of book.new) ∥₁)) }
    ensures failed { IfErr result (λ _. ∥ MayBeBackedUp R.told (asked_job asked) (asked_facts asked)
        (map (λ tag. tag.now) words.now.tags.items) (ledger_of book.old) (ledger_of book.new) ∥₁) }
    ensures sums { HasSums book.new }
{
    let came = walked(run, source, hashing, book, words, &asked)?;
    let is_gone = matches!(&came, Err(NotBackedUp::Unplanned(PlanError::Reach(_))));
    let Asked { facts, job } = asked;
    if is_gone && !job.known.is_empty() {
        let anew = Asked::of(run, words, facts, HashMap::new(run.alloc))?;
        return Ok(Some(anew));
    }
    print_end(run, came, words.dry_run)?;
    Ok(None)
}

/// Takes in what is asked for. Files that are known and unchanged aren't read.
fn walked<S: Shelf, R: Source, H: Hashing + Copy>(
    run: &Run<'_>,
    source: R,
    hashing: H,
    book: &mut Book<S>,
    words: &Backup<'_>,
    asked: &Asked,
) -> Result<Result<BackedUp, NotBackedUp>, Failure>
    requires { HasSums book.old }
    ensures added { IfOk result (λ came. IfOk came (λ done. ∥ BacksUp R.told (asked_job asked.now) piece_length
        (asked_facts asked.now) (map (λ tag. tag.now) words.now.tags.items) (ledger_of book.old) (ledger_of book.new)
        done.skipped.items ∥₁)) }
    ensures parts { IfOk result (λ came. IfErr came (λ _. ∥ StoresParts (ledger_of book.old) (ledger_of book.new) ∥₁)) }
    ensures failed { IfErr result (λ _. ∥ MayBeBackedUp R.told (asked_job asked.now) (asked_facts asked.now)
        (map (λ tag. tag.now) words.now.tags.items) (ledger_of book.old) (ledger_of book.new) ∥₁) }
    ensures sums { HasSums book.new }
{
    let tags = texts_of(run, words.tags.as_slice())?;
    let source = CountedSource::new(source, Meter::new(run.rt, "backup", "files"));
    let wish = Wish {
        job: &asked.job,
        facts: &asked.facts,
        tags: tags.as_slice(),
        cut: run.settings().cut,
    };
    let came = back_up(run.alloc, book, source, hashing, &wish);
    require_sure(run, book)?;
    Ok(came)
}

/// The words as texts.
fn texts_of(run: &Run<'_>, words: &[&str]) -> Result<Vec<String>, Failure>
    ensures { IfOk result (λ texts. map string_bytes texts.items ≡ map (λ word. word.now) words.now) }
{
    let mut texts = Vec::new(run.alloc);
    for word in words {
        texts.push(String::from_str(run.alloc, word)?)?;
    }
    Ok(texts)
}
