ghost use Rattle.std.specs.Prelude.{◌≡◌, IfOk, Ok, Some, map};
ghost use Rattle.keep_acts.specs.Shown.{shown_by};
ghost use Rattle.keep_book.specs.Armed.{ledger_of};
ghost use Rattle.keep_looks.specs.Shown.{IsNamed};
ghost use Rattle.keep_patterns.specs.Parsing.{pattern_of as pattern_due, pattern_view};

use crate::failure::Failure;
use crate::run::Run;
use keep_book::Book;
use keep_looks::{NamedAdvice, snapshot_named};
use keep_named::NamedError;
use keep_names::Id;
use keep_patterns::{Pattern, PatternError, parse_pattern};
use keep_shelf::Shelf;

/// The snapshot that the text means: a first part of its id, `latest`, or `@N`.
pub fn meant<S: Shelf>(run: &Run<'_>, book: &Book<S>, text: &str) -> Result<Id, Failure>
    ensures { IfOk result (λ id. let b = ledger_of book.now in
        ∥ IsNamed b.events (shown_by b).repo text.now (Ok id) ∥₁) }
{
    let view = book.ledger().view();
    match snapshot_named(run.alloc, &view, book.ledger().history(), text) {
        Ok(id) => Ok(id),
        Err(NamedError::Memory) => Err(Failure::Memory),
        Err(error) => Err(Failure::refused(run.alloc, &NamedAdvice { text, error })),
    }
}

/// The patterns that the words are.
pub fn patterns_of(run: &Run<'_>, words: &[&str]) -> Result<Vec<Pattern>, Failure>
    ensures { IfOk result (λ patterns. map (λ pattern. Some (pattern_view pattern)) patterns.items
        ≡ map (λ word. pattern_due word.now) words.now) }
{
    let mut patterns = Vec::new(run.alloc);
    for word in words {
        patterns.push(pattern_of(run, word)?)?;
    }
    Ok(patterns)
}

/// The pattern that the word is.
pub fn pattern_of(run: &Run<'_>, word: &str) -> Result<Pattern, Failure>
    ensures { IfOk result (λ pattern. pattern_due word.now ≡ Some (pattern_view pattern)) }
{
    match parse_pattern(run.alloc, word) {
        Ok(pattern) => Ok(pattern),
        Err(PatternError::Memory) => Err(Failure::Memory),
        Err(PatternError::BadPattern) => {
            let cause = format!(in run.alloc; "{word} isn't a pattern")?;
            Err(Failure::Unmeant(cause))
        }
    }
}
