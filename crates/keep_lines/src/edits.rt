ghost use Rattle.std.specs.Prelude.{◌≡◌, IfOk, IsOk, map, string_bytes, true};
ghost use Rattle.std.specs.List.{filter_map, list_any};
ghost use Rattle.keep_lines.specs.Edits.{edit_data, is_set, said_edit, tag_by};
ghost use Rattle.keep_lines.specs.Edits as spec;
ghost use Rattle.keep_labels.specs.Edits.{edit_view, is_bad_edit};

use crate::tag_line::{TagUse, TagWord};
use keep_labels::Edit;
use std::alloc::{AllocError, Global};

/// The edit that the words make. A word that sets makes it one that sets, even if it names no tag.
///
/// Words that can't be asked at once, or ask for nothing, make one that asks for nothing: that it is bad is found
/// without memory.
pub fn edit_of(alloc: Global, words: &[TagWord]) -> Result<Edit, AllocError>
    ensures value { IfOk result (λ edit. edit_view edit ≡ edit_data words.now) }
    ensures bad { is_bad_edit (edit_data words.now) ≡ true → IsOk result }
{
    if are_bad(words) {
        return Ok(no_edit(alloc));
    }
    good_edit(alloc, words)
}

/// The edit that the words say.
fn good_edit(alloc: Global, words: &[TagWord]) -> Result<Edit, AllocError>
    ensures { IfOk result (λ edit. edit_view edit ≡ said_edit words.now) }
{
    let add = tags_of(alloc, words, TagUse::Add)?;
    let remove = tags_of(alloc, words, TagUse::Remove)?;
    let set = tags_of(alloc, words, TagUse::Set)?;
    let replace = if sets(words) { Some(set) } else { None };
    Ok(Edit {
        replace,
        add,
        remove,
    })
}

/// The edit that asks for nothing.
fn no_edit(alloc: Global) -> Edit
    ensures { edit_view result ≡ spec.no_edit }
{
    Edit {
        replace: None,
        add: Vec::new(alloc),
        remove: Vec::new(alloc),
    }
}

/// Whether the words say no good edit: they ask for nothing, or set beside adding or removing, or add or remove the
/// empty tag.
#[tactic(auto, using(crate::proofs::EditWords::bad_words))]
fn are_bad(words: &[TagWord]) -> bool
    ensures { result ≡ is_bad_edit (said_edit words.now) }
{
    if sets(words) {
        return moves(words);
    }
    !moves(words) || moves_empty(words)
}

/// The tags of the words that do this with theirs, in their order. The empty text is none to set.
fn tags_of(alloc: Global, words: &[TagWord], deed: TagUse) -> Result<Vec<String>, AllocError>
    ensures { IfOk result (λ tags. map string_bytes tags.items ≡ filter_map (tag_by deed) words.now) }
{
    let mut tags = Vec::new(alloc);
    for word in words {
        if let Some(tag) = word.tag_for(deed) {
            tags.push(tag.clone()?)?;
        }
    }
    Ok(tags)
}

/// Whether a word sets.
fn sets(words: &[TagWord]) -> bool
    ensures { result ≡ list_any is_set words.now }
{
    for word in words {
        if let TagWord::Set(_) = word {
            return true;
        }
    }
    false
}

/// Whether a word adds or removes.
fn moves(words: &[TagWord]) -> bool
    ensures { result ≡ list_any spec.moves words.now }
{
    for word in words {
        if let TagWord::Add(_) | TagWord::Remove(_) = word {
            return true;
        }
    }
    false
}

/// Whether a word adds or removes the empty tag.
fn moves_empty(words: &[TagWord]) -> bool
    ensures { result ≡ list_any spec.moves_empty words.now }
{
    for word in words {
        if let TagWord::Add(tag) | TagWord::Remove(tag) = word {
            if tag.is_empty() {
                return true;
            }
        }
    }
    false
}
