ghost use Rattle.std.specs.Prelude.{◌≡◌, IfOk, option_map, string_bytes};
ghost use Rattle.keep_acts.specs.Choosing.{Meeting, choice_view};
ghost use Rattle.keep_labels.specs.Edits.{edit_view};
ghost use Rattle.keep_labels.specs.Keeping.{policy_view};
ghost use Rattle.keep_deeds.specs.Deed.{aim_in, count_in, edit_in, needs_in, policy_in};
ghost use Rattle.keep_words.specs.Read.{text_of};

use crate::deed::NoDeed;
use crate::deed_texts::texts_of;
use keep_acts::Choice;
use keep_labels::{Count, Edit, Policy};
use keep_names::Id;
use keep_plan::Needs;
use keep_words::{Chosen, Keep, Tag};
use std::alloc::{AllocError, Global};

/// The most that a policy keeps of a sort.
const MOST: u32 = 1_048_576;

/// The snapshots that the words choose: those that meet all that is given.
pub(crate) fn chosen(alloc: Global, chosen: Chosen<'_>) -> Result<Choice, AllocError>
    ensures { IfOk result (λ choice. choice_view choice ≡ Meeting (needs_in chosen.entry)) }
{
    let host = copied(alloc, chosen.host)?;
    let tag = copied(alloc, chosen.tag)?;
    let path = copied(alloc, chosen.path)?;
    Ok(Choice::Meeting(Needs { host, tag, path }))
}

fn copied(alloc: Global, text: Option<&str>) -> Result<Option<String>, AllocError>
    ensures { IfOk result (λ made. option_map string_bytes made ≡ text_of text.entry) }
{
    match text {
        Some(text) => Ok(Some(String::from_str(alloc, text)?)),
        None => Ok(None),
    }
}

/// The snapshots that tags are edited of: the one that the words name, which is this, or all.
pub(crate) fn aimed(words: &Tag<'_>, named: Option<Id>) -> Result<Choice, NoDeed>
    ensures { result ≡ aim_in named words.now.snapshot }
{
    match (words.snapshot, named) {
        (None, _) => Ok(Choice::All),
        (Some(_), Some(name)) => Ok(Choice::Named(name)),
        (Some(_), None) => Err(NoDeed::Unnamed),
    }
}

/// The policy that the words say.
pub(crate) fn policy_of(alloc: Global, keep: &Keep<'_>) -> Result<Policy, AllocError>
    ensures { IfOk result (λ policy. policy_view policy ≡ policy_in keep.now) }
{
    let tags = texts_of(alloc, &keep.tags)?;
    Ok(Policy {
        last: count_of(keep.last),
        daily: count_of(keep.daily),
        weekly: count_of(keep.weekly),
        monthly: count_of(keep.monthly),
        yearly: count_of(keep.yearly),
        tags,
    })
}

/// The count of this number, where one is given that a count can have.
fn count_of(number: Option<u32>) -> Option<Count>
    ensures { option_map (λ count. count.number) result ≡ count_in number }
{
    let number = number?;
    if number == 0 || number > MOST {
        return None;
    }
    match Count::new(number) {
        Some(count) => Some(count),
        None => unreachable!(),
    }
}

/// The edit of tags that the words say.
pub(crate) fn edit_of(alloc: Global, words: &Tag<'_>) -> Result<Edit, AllocError>
    ensures { IfOk result (λ edit. edit_view edit ≡ edit_in words.now) }
{
    let add = texts_of(alloc, &words.add)?;
    let remove = texts_of(alloc, &words.remove)?;
    if words.set.is_empty() {
        return Ok(Edit {
            replace: None,
            add,
            remove,
        });
    }
    let set = texts_of(alloc, &words.set)?;
    Ok(Edit {
        replace: Some(set),
        add,
        remove,
    })
}
