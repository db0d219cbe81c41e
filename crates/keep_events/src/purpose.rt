ghost use Rattle.std.specs.Prelude.{◌≡◌, ◌++◌, IfOk, OnOk, codes, option_map, string_bytes};
ghost use Rattle.keep_events.specs.Deeds as spec;
ghost use Rattle.keep_events.specs.Deeds.{at_time, of_host, taken_view};

use crate::shape::Shape;
use crate::taken::Taken;
use keep_rows::When;
use std::alloc::{AllocError, Global};

/// What a change did, told from the files and marks that it writes.
#[derive(Clone, Copy, Debug, PartialEq, Eq)]
pub enum Purpose {
    /// It adds one snapshot that isn't made from another one, and drops none.
    Backup,
    /// It drops snapshots and adds none.
    Forget,
    /// It has as many new snapshots as it drops, and adds nothing else.
    Tag,
    /// It adds snapshots otherwise.
    Rewrite,
    /// It adds packs, as a part of a backup.
    Store,
    /// It drops packs.
    Sweep,
    /// It writes indexes alone.
    Repair,
    Mark,
    /// It clears marks alone.
    Unmark,
    Other,
}

/// What a change of this shape did, whose first new snapshot was made from another one or not.
pub(crate) fn deed_of(shape: &Shape, is_made: bool) -> Purpose
    ensures { result ≡ spec.deed_of shape.now is_made }
{
    if shape.adds.snapshots > 0 {
        adding(shape, is_made)
    } else if shape.drops.snapshots > 0 {
        Purpose::Forget
    } else {
        upkeep(shape)
    }
}

fn adding(shape: &Shape, is_made: bool) -> Purpose
    ensures { result ≡ spec.adding shape.now is_made }
{
    let new = shape.adds.snapshots;
    if shape.drops.snapshots == 0 {
        if new == 1 && !is_made {
            Purpose::Backup
        } else {
            Purpose::Rewrite
        }
    } else if new == shape.drops.snapshots && shape.added == new {
        Purpose::Tag
    } else {
        Purpose::Rewrite
    }
}

fn upkeep(shape: &Shape) -> Purpose
    ensures { result ≡ spec.upkeep shape.now }
{
    if shape.drops.packs > 0 {
        Purpose::Sweep
    } else if shape.adds.packs > 0 {
        Purpose::Store
    } else if shape.added > 0 || shape.dropped > 0 {
        Purpose::Repair
    } else if shape.sets > 0 {
        Purpose::Mark
    } else if shape.clears > 0 {
        Purpose::Unmark
    } else {
        Purpose::Other
    }
}

/// What a change did, as people read it.
pub(crate) fn deed_text(
    alloc: Global,
    deed: Purpose,
    shape: &Shape,
    taken: &Option<Taken>,
) -> Result<String, AllocError>
    ensures { IfOk result (λ text. string_bytes text
        ≡ spec.deed_text deed shape.now (option_map taken_view taken.now)) }
{
    match deed {
        Purpose::Backup => backup_text(alloc, taken),
        Purpose::Forget => of_some(alloc, "forget", shape.drops.snapshots, "snapshot"),
        Purpose::Tag => of_some(alloc, "tag", shape.adds.snapshots, "snapshot"),
        Purpose::Rewrite => of_some(alloc, "rewrite", shape.adds.snapshots, "snapshot"),
        Purpose::Store => of_some(alloc, "store", shape.adds.packs, "pack"),
        Purpose::Sweep => of_some(alloc, "sweep", shape.drops.packs, "pack"),
        Purpose::Repair => String::from_str(alloc, "repair of indexes"),
        Purpose::Mark => of_some(alloc, "mark", shape.sets, "pack"),
        Purpose::Unmark => of_some(alloc, "unmark", shape.clears, "pack"),
        Purpose::Other => String::from_str(alloc, "change"),
    }
}

fn of_some(alloc: Global, verb: &str, count: usize, noun: &str) -> Result<String, AllocError>
    ensures { IfOk result (λ text. string_bytes text ≡ spec.of_some verb.now count noun.now) }
{
    let plural = if count == 1 { "" } else { "s" };
    format!(in alloc; "{verb} of {count} {noun}{plural}")
}

fn backup_text(alloc: Global, taken: &Option<Taken>) -> Result<String, AllocError>
    ensures { IfOk result (λ text. string_bytes text ≡ codes "backup" ++ of_host (option_map taken_view taken.now)) }
{
    let mut text = String::from_str(alloc, "backup")?;
    if let Some(taken) = taken {
        text.push_str(" of ")?;
        text.push_str(taken.host.as_str())?;
        push_time(alloc, &mut text, taken.at)?;
    }
    Ok(text)
}

fn push_time(alloc: Global, text: &mut String, at: Option<When>) -> Result<(), AllocError>
    ensures { OnOk result (string_bytes text.new ≡ string_bytes text.old ++ at_time at) }
{
    let Some(at) = at else {
        return Ok(());
    };
    let time = at.local(alloc)?;
    text.push_str(" at ")?;
    text.push_str(time.as_str())
}
