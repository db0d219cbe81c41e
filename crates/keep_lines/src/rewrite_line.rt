ghost use Rattle.std.specs.Prelude.{IfOk, map};
ghost use Rattle.keep_names.specs.Parses.{Parses};
ghost use Rattle.keep_lines.specs.RewriteLine.{CutsFlag, IsRewrite, rewrite_text};

use crate::word_list::{Word, parse_words};
use std::alloc::{AllocError, Global};

/// Snapshots to make anew without what the patterns match, of those that a filter takes.
#[derive(Drop)]
pub struct RewriteLine {
    /// The filter's name.
    pub filter: String,
    /// Whether the old snapshots go.
    pub forget: bool,
    /// As [`keep_patterns::parse_pattern`] reads them.
    pub patterns: Vec<String>,
}

/// The rewrite that these words ask for: `FILTER PATTERN ..`, or `FILTER forget PATTERN ..`. Whether the patterns are
/// some isn't asked.
pub(crate) fn parse_rewrite(alloc: Global, text: &str) -> Result<Option<RewriteLine>, AllocError>
    ensures { IfOk result (Parses IsRewrite rewrite_text text.now) }
{
    let words: Vec<&str> = text.split(' ').collect(alloc)?;
    let [filter, behind @ ..] = words.as_slice() else {
        return Ok(None);
    };
    if filter.is_empty() {
        return Ok(None);
    }
    let (forget, rest) = cut_flag(behind);
    let Some(patterns) = parse_words(alloc, rest)? else {
        return Ok(None);
    };
    let filter = String::from_str(alloc, filter)?;
    Ok(Some(RewriteLine {
        filter,
        forget,
        patterns,
    }))
}

/// Whether the first word is `forget`, and the words without it.
fn cut_flag<'a, 'b>(words: &'a [&'b str]) -> (bool, &'a [&'b str])
    ensures { CutsFlag (map (λ word. word.now) words.now) result.0 (map (λ word. word.now) result.1.now) }
{
    if let [first, rest @ ..] = words {
        if *first == "forget" {
            return (true, rest);
        }
    }
    (false, words)
}

/// The text of a pattern, which isn't empty.
impl Word for String {
    ghost use Rattle.std.specs.Prelude.{string_bytes};
    ghost use Rattle.keep_lines.specs.WordList.{IsWord};

    ghost IsSaid = { λ word. IsWord (string_bytes word) };

    ghost text = { string_bytes };

    ghost spaceless = { λ word said. said.1 };

    fn parse(alloc: Global, word: &str) -> Result<Option<String>, AllocError> {
        if word.is_empty() {
            return Ok(None);
        }
        let text = String::from_str(alloc, word)?;
        Ok(Some(text))
    }
}
