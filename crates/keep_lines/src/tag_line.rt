ghost use Rattle.std.specs.Prelude.{◌≡◌, IfOk, option_map, string_bytes};
ghost use Rattle.keep_names.specs.Parses.{Parses};
ghost use Rattle.keep_lines.specs.TagLine.{IsTag, tag_text};

use crate::word_list::{Word, parse_for_filter};
use std::alloc::{AllocError, Global};

/// Other tags for the snapshots that a filter takes.
#[derive(Drop)]
pub struct TagLine {
    /// The filter's name.
    pub filter: String,
    pub words: Vec<TagWord>,
}

/// A part of an edit of tags.
#[derive(Drop)]
pub enum TagWord {
    Add(String),
    Remove(String),
    /// To put a list in the tags' place, with this one in it. The empty text names none.
    Set(String),
}

/// What a word does with its tag.
#[derive(Clone, Copy)]
pub(crate) enum TagUse {
    Add,
    Remove,
    Set,
}

impl TagWord {
    ghost use Rattle.keep_lines.specs.Edits.{tag_by};

    /// The tag of the word, if it does this with it. The empty text is none to set.
    pub(crate) fn tag_for(&self, deed: TagUse) -> Option<&String>
        ensures { option_map (λ tag. string_bytes tag.now) result ≡ tag_by deed self.now }
    {
        match (deed, self) {
            (TagUse::Add, TagWord::Add(tag)) => Some(tag),
            (TagUse::Remove, TagWord::Remove(tag)) => Some(tag),
            (TagUse::Set, TagWord::Set(tag)) if !tag.is_empty() => Some(tag),
            _ => None,
        }
    }
}

/// The other tags that these words ask for: `FILTER WORD ..`. Whether they make an edit isn't asked.
pub(crate) fn parse_tag(alloc: Global, text: &str) -> Result<Option<TagLine>, AllocError>
    ensures { IfOk result (Parses IsTag tag_text text.now) }
{
    let Some((filter, words)) = parse_for_filter(alloc, text)? else {
        return Ok(None);
    };
    Ok(Some(TagLine { filter, words }))
}

/// `+T`, `-T` or `=T`, where T may be empty.
impl Word for TagWord {
    ghost use Rattle.keep_lines.specs.TagLine.{IsTagWord, tag_word_text};

    ghost IsSaid = { IsTagWord };

    ghost text = { tag_word_text };

    ghost spaceless = { λ word said. said };

    fn parse(alloc: Global, word: &str) -> Result<Option<TagWord>, AllocError> {
        if let Some(tag) = word.strip_prefix('+') {
            let tag = String::from_str(alloc, tag)?;
            return Ok(Some(TagWord::Add(tag)));
        }
        if let Some(tag) = word.strip_prefix('-') {
            let tag = String::from_str(alloc, tag)?;
            return Ok(Some(TagWord::Remove(tag)));
        }
        if let Some(tag) = word.strip_prefix('=') {
            let tag = String::from_str(alloc, tag)?;
            return Ok(Some(TagWord::Set(tag)));
        }
        Ok(None)
    }
}
