ghost use Rattle.std.specs.Prelude.{◌≡◌, IfOk, option_map};
ghost use Rattle.keep_members.specs.Members.{stamp_view};
ghost use Rattle.keep_tree.specs.Tree.{node_view};
ghost use Rattle.keep_backups.specs.Known.{known_due, known_view};

use keep_members::{Stamp, mtime_in, size_in};
use keep_names::Id;
use keep_sources::{Known, Moment};
use keep_tree::{Node, NodeKind};
use std::alloc::AllocError;

/// What is known of a node, if it is a file that says its size and its time.
pub(crate) fn known_file(node: &Node) -> Result<Option<Known>, AllocError>
    ensures { IfOk result (λ known. option_map known_view known ≡ known_due (node_view node.now)) }
{
    let NodeKind::File { content } = &node.kind else {
        return Ok(None);
    };
    let Some(size) = size_in(&node.others) else {
        return Ok(None);
    };
    let Some(mtime) = mtime_in(&node.others) else {
        return Ok(None);
    };
    Ok(Some(known_with(size, mtime, content)?))
}

fn known_with(size: u64, mtime: Stamp, content: &Vec<Id>) -> Result<Known, AllocError>
    ensures { IfOk result (λ known. known_view known
        ≡ record { size = size; mtime = stamp_view mtime; content = content.now.items }) }
{
    let content = content.clone()?;
    Ok(Known {
        size,
        mtime: moment_of(mtime),
        content,
    })
}

fn moment_of(stamp: Stamp) -> Moment
    ensures seconds { result.seconds ≡ stamp.seconds }
    ensures nanoseconds { result.nanoseconds ≡ stamp.nanoseconds }
{
    Moment {
        seconds: stamp.seconds(),
        nanoseconds: stamp.nanoseconds(),
    }
}
