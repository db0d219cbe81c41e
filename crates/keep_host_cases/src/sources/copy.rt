use keep_sources::{Stat, StatKind};
use std::alloc::AllocError;

/// Another one like this.
pub(crate) fn copy_of(sight: &Stat) -> Result<Stat, AllocError> {
    let kind = kind_copy(&sight.kind)?;
    let user = text_copy(&sight.user)?;
    let group = text_copy(&sight.group)?;
    Ok(Stat {
        kind,
        mode: sight.mode,
        mtime: sight.mtime,
        ctime: sight.ctime,
        uid: sight.uid,
        gid: sight.gid,
        user,
        group,
        inode: sight.inode,
        device: sight.device,
        size: sight.size,
        links: sight.links,
        stands_for: sight.stands_for,
    })
}

fn kind_copy(kind: &StatKind) -> Result<StatKind, AllocError> {
    match kind {
        StatKind::File => Ok(StatKind::File),
        StatKind::Folder => Ok(StatKind::Folder),
        StatKind::Link(target) => Ok(StatKind::Link(target.clone()?)),
        StatKind::Fifo => Ok(StatKind::Fifo),
        StatKind::Socket => Ok(StatKind::Socket),
        StatKind::Device => Ok(StatKind::Device),
        StatKind::CharDevice => Ok(StatKind::CharDevice),
    }
}

fn text_copy(text: &Option<String>) -> Result<Option<String>, AllocError> {
    match text {
        Some(text) => Ok(Some(text.clone()?)),
        None => Ok(None),
    }
}
