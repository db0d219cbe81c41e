ghost use Rattle.std.specs.Prelude.{◌≡◌, ◌<◌, ◌≤◌, ◌++◌, drop, length, option_to_list, vec_capacity, vec_len, IfOk};
ghost use Rattle.keep_journal.specs.History.{final_after as final_number_after};
ghost use Rattle.keep_journal.specs.Standings.{last_after as last_change_after, Follow, Reaches};

use crate::event::{Event, EventKind, Notice};
use keep_change::{Listed, SharedChange};
use keep_names::FileName;
use std::alloc::{AllocError, Global};

/// A change that isn't final, and whether it is in force.
#[derive(Drop)]
pub(crate) struct Standing {
    pub change: SharedChange,
    pub in_force: bool,
}

/// Brings the standings of the changes after the last final one up to date with an event that comes next.
pub(crate) fn note(standings: &mut Vec<Standing>, final_number: u64, event: Event)
    requires room { vec_len standings.old < vec_capacity standings.old }
    requires reaches { Reaches final_number (length standings.old.items) event }
    ensures { Follow final_number standings.old.items standings.new.items event }
{
    let Event { number, kind } = event;
    match kind {
        EventKind::Commit(change) => standings.push_reserved(Standing {
            change,
            in_force: true,
        }),
        EventKind::Undo => {
            let place = (number - final_number - 1) as usize;
            standings[place].in_force = false;
        }
        EventKind::Redo => {
            let place = (number - final_number - 1) as usize;
            standings[place].in_force = true;
        }
        EventKind::Empty(_) => let_go(standings, (number - final_number) as usize),
    }
}

/// Lets the first so many changes go, with their bytes.
fn let_go(standings: &mut Vec<Standing>, count: usize)
    requires { count ≤ vec_len standings.old }
    ensures { standings.new.items ≡ drop count standings.old.items }
{
    standings.drain(..count);
}

/// Keeps the names that a commit adds.
pub(crate) fn note_names(names: &mut Vec<Listed<FileName>>, added: Option<Listed<FileName>>)
    requires { vec_len names.old < vec_capacity names.old }
    ensures { names.new.items ≡ names.old.items ++ option_to_list added }
{
    if let Some(added) = added {
        names.push_reserved(added);
    }
}

/// The last final change's number after the event.
pub(crate) fn final_after(before: u64, event: &Event) -> u64
    ensures { result ≡ final_number_after before event.now }
{
    match &event.kind {
        EventKind::Empty(_) => event.number,
        _ => before,
    }
}

/// The last change's number after the event.
pub(crate) fn last_after(before: u64, event: &Event) -> u64
    ensures { result ≡ last_change_after before event.now }
{
    match &event.kind {
        EventKind::Commit(_) => event.number,
        _ => before,
    }
}

/// A copy of the notices.
pub(crate) fn copy_notices(alloc: Global, notices: &[Notice]) -> Result<Vec<Notice>, AllocError>
    ensures { IfOk result (λ copy. copy.items ≡ notices.now) }
{
    let mut copy = Vec::with_capacity(alloc, notices.len())?;
    for notice in notices {
        copy.push(*notice)?;
    }
    Ok(copy)
}

/// A copy of the lists of names.
pub(crate) fn copy_names(
    alloc: Global,
    lists: &[Listed<FileName>],
) -> Result<Vec<Listed<FileName>>, AllocError>
    ensures { IfOk result (λ copy. copy.items ≡ lists.now) }
{
    let mut copy = Vec::with_capacity(alloc, lists.len())?;
    for list in lists {
        copy.push(list.copy(alloc)?)?;
    }
    Ok(copy)
}

/// A copy of the standings. The changes are shared.
pub(crate) fn copy_standings(
    alloc: Global,
    standings: &[Standing],
) -> Result<Vec<Standing>, AllocError>
    ensures { IfOk result (λ copy. copy.items ≡ standings.now) }
{
    let mut copy = Vec::with_capacity(alloc, standings.len())?;
    for standing in standings {
        copy.push(Standing {
            change: standing.change.clone()?,
            in_force: standing.in_force,
        })?;
    }
    Ok(copy)
}
