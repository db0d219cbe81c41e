ghost use Rattle.keep_words.specs.Faults.{wait_fault, wait_in};
ghost use Rattle.keep_words.specs.Read.{Reads, rows_in};
ghost use Rattle.std.specs.Prelude.{◌≡◌, Some};

use clap::error::ErrorKind;
use clap::{ArgMatches, Error};
use keep_words::{parse_span, refusal, text};
use std::alloc::Global;

/// How many seconds packs have to have been marked: none where the words don't say.
pub(crate) fn wait(alloc: Global, matches: &ArgMatches<'_>, usage: &str) -> Result<u64, Error>
    ensures { Reads (wait_fault (rows_in matches.now)) (λ wait. wait_in (rows_in matches.now) ≡ Some wait) result }
{
    let Some(span) = text(matches, "older-than") else {
        return Ok(0);
    };
    match parse_span(span) {
        Some(seconds) => Ok(seconds),
        None => {
            let message = "--older-than takes a number and s, m, h, d or w, as 7d";
            Err(refusal(alloc, usage, ErrorKind::ValueValidation, message))
        }
    }
}
