ghost use Rattle.std.specs.Prelude.{◌≡◌, ◌↔◌, false, IfOk, map, not, string_bytes};
ghost use Rattle.keep_labels.specs.Edits.{are_same, edit_view, edited, is_bad_edit, with_added, with_removed};
ghost use Rattle.keep_labels.specs.Edits as spec;

use std::alloc::{AllocError, Global};

/// What becomes of a list of tags: another list, or tags that are added and tags that are then removed.
#[derive(Drop)]
pub struct Edit {
    pub replace: Option<Vec<String>>,
    pub add: Vec<String>,
    pub remove: Vec<String>,
}

impl Edit {
    /// Whether the edit asks nothing, sets beside adding or removing, or has an empty tag.
    pub fn is_bad(&self) -> bool
        ensures { result ≡ is_bad_edit (edit_view self.now) }
    {
        let moves_none = self.add.is_empty() && self.remove.is_empty();
        match &self.replace {
            None => moves_none || has_empty_tag(&self.add) || has_empty_tag(&self.remove),
            Some(set) => !moves_none || has_empty_tag(set),
        }
    }

    /// The tags after the edit: the list that it sets, where the first of equal tags stays; or the tags that
    /// were there, those that it adds, where one that is there isn't added again, and of these all but those
    /// that it removes.
    pub fn apply(&self, alloc: Global, tags: &[String]) -> Result<Vec<String>, AllocError>
        ensures { IfOk result (λ made. map string_bytes made.items
            ≡ edited (edit_view self.now) (map string_bytes tags.now)) }
    {
        let Some(set) = &self.replace else {
            let mut made = Vec::with_capacity(alloc, tags.len())?;
            for tag in tags {
                made.push(tag.clone()?)?;
            }
            let made = added(made, &self.add)?;
            return removed(alloc, &made, &self.remove);
        };
        added(Vec::new(alloc), set)
    }
}

/// Whether the tags are others, or stand in another order.
pub fn are_changed(before: &[String], after: &[String]) -> bool
    ensures value { result ≡ not (are_same (map string_bytes before.now) (map string_bytes after.now)) }
    ensures same { result ≡ false ↔ map string_bytes before.now ≡ map string_bytes after.now }
{
    before != after
}

/// The tags with those that aren't there yet behind them.
fn added(tags: Vec<String>, add: &[String]) -> Result<Vec<String>, AllocError>
    ensures { IfOk result (λ made. map string_bytes made.items
        ≡ with_added (map string_bytes tags.items) (map string_bytes add.now)) }
{
    let mut tags = tags;
    for tag in add {
        let there = has_tag(&tags, tag);
        if !there {
            tags.push(tag.clone()?)?;
        }
    }
    Ok(tags)
}

/// The tags that aren't removed.
fn removed(alloc: Global, tags: &[String], remove: &[String]) -> Result<Vec<String>, AllocError>
    ensures { IfOk result (λ made. map string_bytes made.items
        ≡ with_removed (map string_bytes tags.now) (map string_bytes remove.now)) }
{
    let mut made = Vec::new(alloc);
    for tag in tags {
        let gone = has_tag(remove, tag);
        if !gone {
            made.push(tag.clone()?)?;
        }
    }
    Ok(made)
}

pub(crate) fn has_tag(tags: &[String], tag: &String) -> bool
    ensures { result ≡ spec.has_tag (map string_bytes tags.now) (string_bytes tag.now) }
{
    tags.contains(tag)
}

fn has_empty_tag(tags: &[String]) -> bool
    ensures { result ≡ spec.has_empty_tag (map string_bytes tags.now) }
{
    for tag in tags {
        if tag.is_empty() {
            return true;
        }
    }
    false
}
