//! What the words give an argument.
ghost use Rattle.std.specs.Prelude.{◌≡◌, ◌≤◌, IfOk, IfSome, map};
ghost use Rattle.clap.specs.Words.{first_of};
ghost use Rattle.keep_words.specs.Read.{count_of, has_flag, number_of, rows_in, text_of, texts_of};

use clap::ArgMatches;
use std::alloc::{AllocError, Global};

/// The text that the option or the place of this name is given.
pub fn text<'a>(matches: &ArgMatches<'a>, name: &str) -> Option<&'a str>
    ensures { text_of result ≡ first_of name.now (rows_in matches.now) }
{
    matches.get_str(name)
}

/// All texts that the option or the place is given.
pub fn texts<'a>(
    alloc: Global,
    matches: &ArgMatches<'a>,
    name: &str,
) -> Result<Vec<&'a str>, AllocError>
    ensures { IfOk result (λ texts. map (λ text. text.now) texts.items ≡ texts_of name.now (rows_in matches.now)) }
{
    match matches.get_strs(name) {
        Some(texts) => texts.to_vec(alloc),
        None => Ok(Vec::new(alloc)),
    }
}

/// Whether the flag is given.
pub fn flag(matches: &ArgMatches<'_>, name: &str) -> bool
    ensures { result ≡ has_flag name.now (rows_in matches.now) }
{
    matches.get_one::<bool>(name).unwrap_or(false)
}

/// The number that the option or the place is given.
pub fn number(matches: &ArgMatches<'_>, name: &str) -> Option<u64>
    ensures { result ≡ number_of name.now (rows_in matches.now) }
{
    matches.get_one::<u64>(name)
}

/// The number that the option or the place is given, from 1 to 1,048,576, as snapshots and events are counted.
pub fn count(matches: &ArgMatches<'_>, name: &str) -> Option<u32>
    ensures value { result ≡ count_of name.now (rows_in matches.now) }
    ensures range { IfSome result (λ count. (1 ≤ count) × (count ≤ 1_048_576)) }
{
    let number = number(matches, name)?;
    if number < 1 || 1_048_576 < number {
        return None;
    }
    Some(number as u32)
}
