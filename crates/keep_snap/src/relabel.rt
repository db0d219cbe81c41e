ghost use Rattle.std.specs.Prelude.{◌≡◌, IfOk, map, string_bytes};
ghost use Rattle.keep_snap.specs.Relabel as spec;
ghost use Rattle.keep_snap.specs.Relabel.{retagged, retreed, rewritten_tags};
ghost use Rattle.keep_snap.specs.Snap.{snap_view};

use crate::copies::{text_copies, text_copy, value_copy};
use crate::snap::Snap;
use keep_docs::members_copy;
use keep_names::Id;
use std::alloc::{AllocError, Global};

/// The snapshot that is to stand in place of the one of the name `old`, with these tags. It keeps all else, what
/// it doesn't know as well, so that it differs from the old one in its tags and in naming where it came from.
pub fn retag(alloc: Global, snap: &Snap, old: Id, tags: Vec<String>) -> Result<Snap, AllocError>
    ensures { IfOk result (λ made.
        snap_view made ≡ retagged (snap_view snap.now) old (map string_bytes tags.items)) }
{
    let time = snap.time.clone()?;
    let paths = text_copies(alloc, &snap.paths)?;
    let hostname = text_copy(alloc, snap.hostname.as_deref())?;
    let username = text_copy(alloc, snap.username.as_deref())?;
    let dir = value_copy(snap.dir.as_ref())?;
    let others = members_copy(&snap.others)?;
    Ok(Snap {
        time,
        tree: snap.tree,
        paths,
        hostname,
        username,
        tags,
        original: Some(snap.original.unwrap_or(old)),
        dir,
        others,
    })
}

/// The snapshot with this root tree that is to stand beside or in place of the one of the name `old`. It names that
/// one as the snapshot that it was made of, whatever stood there, and where it is asked for it has the tag `rewrite`
/// once. It keeps all else, what it doesn't know as well.
pub fn retree(
    alloc: Global,
    snap: &Snap,
    old: Id,
    tree: Id,
    tagged: bool,
) -> Result<Snap, AllocError>
    ensures { IfOk result (λ made. snap_view made ≡ retreed (snap_view snap.now) old tree tagged) }
{
    let tags = tags_of_rewritten(alloc, &snap.tags, tagged)?;
    let made = retag(alloc, snap, old, tags)?;
    Ok(Snap {
        tree,
        original: Some(old),
        ..made
    })
}

/// The tags, with `rewrite` behind them where it is asked for and isn't among them.
fn tags_of_rewritten(
    alloc: Global,
    tags: &[String],
    tagged: bool,
) -> Result<Vec<String>, AllocError>
    ensures { IfOk result (λ made. map string_bytes made.items ≡ rewritten_tags tagged (map string_bytes tags.now)) }
{
    let mut made = text_copies(alloc, tags)?;
    if tagged && !has_rewrite(tags) {
        made.push(String::from_str(alloc, "rewrite")?)?;
    }
    Ok(made)
}

fn has_rewrite(tags: &[String]) -> bool
    ensures { result ≡ spec.has_rewrite (map string_bytes tags.now) }
{
    for tag in tags {
        if tag.as_str() == "rewrite" {
            return true;
        }
    }
    false
}
