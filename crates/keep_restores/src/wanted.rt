ghost use Rattle.std.specs.Prelude.{IfOk, codes, string_bytes};
ghost use Rattle.std.specs.Str.{bytes_eq};
ghost use Rattle.keep_restores.specs.Wanted.{IsLink, IsName, IsOther, IsWantedOf, IsWhat};

use crate::attributes::{mode_of, owner_of, times_of};
use keep_members::members_in;
use keep_nodes::PathNode;
use keep_putting::{Wanted, What};
use keep_quoted::unquote;
use keep_tree::NodeKind;
use std::alloc::{AllocError, Global};

/// What is to be put back of a node.
pub fn wanted_of(alloc: Global, entry: &PathNode) -> Result<Wanted, AllocError>
    ensures { IfOk result (λ wanted. IsWantedOf entry.now wanted) }
{
    let found = members_in(alloc, &entry.node.others)?;
    let path = entry.path.clone()?;
    let name = name_of(alloc, entry.node.name.as_str())?;
    let what = what_of(&entry.node.kind, &found.link_target)?;
    Ok(Wanted {
        path,
        name,
        what,
        owner: owner_of(&found),
        mode: mode_of(&found),
        times: times_of(&found),
    })
}

/// The name that a tree spells so, where it is UTF-8.
fn name_of(alloc: Global, quoted: &str) -> Result<Option<String>, AllocError>
    ensures { IfOk result (λ name. IsName quoted.now name) }
{
    let Some(bytes) = unquote(alloc, quoted)? else {
        return Ok(None);
    };
    match String::from_utf8(bytes) {
        Ok(name) => Ok(Some(name)),
        Err(_) => Ok(None),
    }
}

fn what_of(kind: &NodeKind, to: &Option<String>) -> Result<What, AllocError>
    ensures { IfOk result (λ what. IsWhat kind.now to.now what) }
{
    match kind {
        NodeKind::Dir { subtree: _ } => Ok(What::Folder),
        NodeKind::File { content } => {
            let content = content.clone()?;
            Ok(What::File(content))
        }
        NodeKind::Other { type_name } => other_of(type_name.as_str(), to),
    }
}

fn other_of(type_name: &str, to: &Option<String>) -> Result<What, AllocError>
    ensures { IfOk result (λ what. IsOther (bytes_eq type_name.now (codes "symlink")) to.now what) }
{
    if type_name == "symlink" {
        return link_of(to);
    }
    Ok(What::Other)
}

fn link_of(to: &Option<String>) -> Result<What, AllocError>
    ensures { IfOk result (λ what. IsLink to.now what) }
{
    match to {
        Some(to) => {
            let to = to.clone()?;
            Ok(What::Link(to))
        }
        None => Ok(What::Other),
    }
}
