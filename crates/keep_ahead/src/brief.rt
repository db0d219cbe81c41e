use keep_sources::{FolderListing, Stat, StatKind, Why};
use std::alloc::{AllocError, Global};

/// What of a sight it takes to list a folder, to open a file and to know that it is unchanged.
pub(crate) fn brief(seen: &Stat) -> Stat {
    let kind = match &seen.kind {
        StatKind::File => StatKind::File,
        StatKind::Folder => StatKind::Folder,
        _ => StatKind::Fifo,
    };
    Stat {
        kind,
        mode: seen.mode,
        mtime: seen.mtime,
        ctime: seen.ctime,
        uid: seen.uid,
        gid: seen.gid,
        user: None,
        group: None,
        inode: seen.inode,
        device: seen.device,
        size: seen.size,
        links: seen.links,
        stands_for: seen.stands_for,
    }
}

/// A copy of the names, to be gone through.
pub(crate) fn names_of(
    alloc: Global,
    listing: &Result<FolderListing, Why>,
) -> Result<Result<FolderListing, Why>, AllocError> {
    let listing = match listing {
        Ok(listing) => listing,
        Err(why) => return Ok(Err(*why)),
    };
    let mut names = Vec::with_capacity(alloc, listing.names.len())?;
    for name in &listing.names {
        names.push(name.clone()?)?;
    }
    Ok(Ok(FolderListing {
        names,
        unsayable: listing.unsayable,
    }))
}
