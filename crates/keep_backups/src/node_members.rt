ghost use Rattle.std.specs.Prelude.{◌≡◌, IfOk, option_map, string_bytes};
ghost use Rattle.keep_members.specs.Members.{members_data, stamp_view, text_view};
ghost use Rattle.keep_backups.specs.Sighted as spec;

use keep_members::{Members, Stamp, go_mode};
use keep_sources::{Moment, Stat, StatKind};
use std::alloc::AllocError;

/// What its node says beside its name and what it is. A number that doesn't matter for its kind is 0.
pub fn members_of(sight: &Stat) -> Result<Members, AllocError>
    ensures { IfOk result (λ members. members_data members ≡ spec.sighted sight.now) }
{
    let user = text_copy(&sight.user)?;
    let group = text_copy(&sight.group)?;
    let link_target = target_copy(&sight.kind)?;
    Ok(Members {
        mode: go_mode(sight.mode),
        mtime: stamp(sight.mtime),
        atime: stamp(sight.mtime),
        ctime: stamp(sight.ctime),
        uid: sight.uid,
        gid: sight.gid,
        user,
        group,
        inode: sight.inode,
        device_id: sight.device,
        size: size_of(&sight.kind, sight.size),
        links: links_of(&sight.kind, sight.links),
        link_target,
        device: device_of(&sight.kind, sight.stands_for),
    })
}

fn stamp(moment: Moment) -> Stamp
    ensures { stamp_view result ≡ spec.stamp_of moment }
{
    Stamp::nearest(moment.seconds, moment.nanoseconds)
}

fn size_of(kind: &StatKind, size: u64) -> u64
    ensures { result ≡ spec.size_of kind.now size }
{
    match kind {
        StatKind::File => size,
        _ => 0,
    }
}

fn links_of(kind: &StatKind, links: u64) -> u64
    ensures { result ≡ spec.links_of kind.now links }
{
    match kind {
        StatKind::Folder | StatKind::Fifo | StatKind::Socket => 0,
        _ => links,
    }
}

fn device_of(kind: &StatKind, stands_for: u64) -> u64
    ensures { result ≡ spec.device_of kind.now stands_for }
{
    match kind {
        StatKind::Device | StatKind::CharDevice => stands_for,
        _ => 0,
    }
}

fn target_copy(kind: &StatKind) -> Result<Option<String>, AllocError>
    ensures { IfOk result (λ target. text_view target ≡ spec.target_of kind.now) }
{
    match kind {
        StatKind::Link(target) => Ok(Some(target.clone()?)),
        _ => Ok(None),
    }
}

fn text_copy(text: &Option<String>) -> Result<Option<String>, AllocError>
    ensures { IfOk result (λ copy. text_view copy ≡ text_view text.now) }
{
    match text {
        Some(text) => Ok(Some(text.clone()?)),
        None => Ok(None),
    }
}
