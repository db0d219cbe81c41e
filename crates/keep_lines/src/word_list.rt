ghost use Rattle.std.specs.Prelude.{ℕ, List, IfOk, map};
ghost use Rattle.std.specs.Str.Iter.{LacksByte};
ghost use Rattle.keep_names.specs.Parses.{Parses};
ghost use Rattle.keep_lines.specs.WordList.{AreAll, AreSpaceless, IsForFilter, filter_text, words_for};

use std::alloc::{AllocError, Global};

/// What a word says that may stand in a line any number of times.
pub(crate) trait Word: Drop + Sized {
    ghost IsSaid: { Self → Type 0 };

    ghost text: { Self → List ℕ };

    /// The value of this word, which has no space.
    fn parse(alloc: Global, word: &str) -> Result<Option<Self>, AllocError>
        requires { LacksByte 32 word.now }
        ensures { IfOk result (Parses IsSaid text word.now) };

    ghost spaceless: { (value : Self) → IsSaid value → LacksByte 32 (text value) };
}

/// The values of these words, which have no spaces.
pub(crate) fn parse_words<W: Word>(
    alloc: Global,
    words: &[&str],
) -> Result<Option<Vec<W>>, AllocError>
    requires { AreSpaceless (map (λ word. word.now) words.now) }
    ensures { IfOk result (Parses (AreAll W.IsSaid) (words_for W.text) (map (λ word. word.now) words.now)) }
{
    let mut values = Vec::with_capacity(alloc, words.len())?;
    for word in words {
        let Some(value) = W::parse(alloc, word)? else {
            return Ok(None);
        };
        values.push(value)?;
    }
    Ok(Some(values))
}

/// The name of a filter, and the values behind it: `FILTER WORD ..`.
pub(crate) fn parse_for_filter<W: Word>(
    alloc: Global,
    text: &str,
) -> Result<Option<(String, Vec<W>)>, AllocError>
    ensures { IfOk result (Parses (IsForFilter W.IsSaid) (filter_text W.text) text.now) }
{
    let words: Vec<&str> = text.split(' ').collect(alloc)?;
    let [filter, words @ ..] = words.as_slice() else {
        return Ok(None);
    };
    if filter.is_empty() {
        return Ok(None);
    }
    let Some(values) = parse_words(alloc, words)? else {
        return Ok(None);
    };
    let filter = String::from_str(alloc, filter)?;
    Ok(Some((filter, values)))
}
