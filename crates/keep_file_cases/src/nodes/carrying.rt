use crate::case_words::{text_of, words_in};
use crate::no_answer::No;
use crate::nodes::node_words::{long_in, short_in, text_in};
use keep_docs::write_doc;
use keep_members::{Members, Stamp};
use serde_json::Value;
use std::alloc::Global;

/// The document of the members that a node carries which says these fourteen words.
pub(crate) fn carried(alloc: Global, text: &str) -> Result<String, No> {
    let words = words_in(alloc, text)?;
    let members = members_of(alloc, &words)?;
    let carried = keep_members::carried(alloc, &members)?;
    let document = write_doc(alloc, &Value::Object(carried))?;
    text_of(alloc, &document)
}

fn members_of(alloc: Global, words: &[&str]) -> Result<Members, No> {
    let [mode, mtime, atime, ctime, uid, gid, rest @ ..] = words else {
        return Err(No::Case);
    };
    let [
        user,
        group,
        inode,
        device_id,
        size,
        links,
        link_target,
        device,
    ] = rest
    else {
        return Err(No::Case);
    };
    let user = text_in(alloc, user)?;
    let group = text_in(alloc, group)?;
    let link_target = text_in(alloc, link_target)?;
    Ok(Members {
        mode: short_in(mode)?,
        mtime: stamp_in(mtime)?,
        atime: stamp_in(atime)?,
        ctime: stamp_in(ctime)?,
        uid: short_in(uid)?,
        gid: short_in(gid)?,
        user,
        group,
        inode: long_in(inode)?,
        device_id: long_in(device_id)?,
        size: long_in(size)?,
        links: long_in(links)?,
        link_target,
        device: long_in(device)?,
    })
}

/// Seconds and nanoseconds, with a colon between.
fn stamp_in(word: &str) -> Result<Stamp, No> {
    let (seconds, nanoseconds) = word.split_once(':').ok_or(No::Case)?;
    let seconds: i64 = seconds.parse().map_err(|_| No::Case)?;
    Ok(Stamp::nearest(seconds, short_in(nanoseconds)?))
}
