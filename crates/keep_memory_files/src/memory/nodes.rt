//! What stands in a tree in memory, looked up and changed.
ghost use Rattle.std.specs.Prelude.{◌≡◌, ◌↔◌, ℕ, None, Some, List, IfOk, IsTrue, OnOk, OnErr, is_some};
ghost use Rattle.keep_files.specs.Path.{IsHeldIn, IsListed};
ghost use Rattle.keep_files.specs.Stands.{HasHome, put_at};
ghost use Rattle.keep_files.specs.Stands as stands;

use super::MemoryTree;
use crate::path_bounds::{bounds_of, is_held_in};
use keep_files::{Node, home_of};
use std::alloc::AllocError;

impl MemoryTree {
    ghost use Rattle.keep_memory_files.specs.Memory.{changed, seen_in};

    /// What stands at the path, with another holder of its bytes.
    pub(super) fn shared(&self, path: &str) -> Result<Option<Node>, AllocError>
        ensures { IfOk result (λ found. found ≡ (seen_in self.now).stands path.now) }
    {
        match self.nodes.get(path) {
            None => Ok(None),
            Some(Node::Folder) => Ok(Some(Node::Folder)),
            Some(Node::File(bytes)) => Ok(Some(Node::File(bytes.clone()?))),
        }
    }

    /// Whether a folder stands at the path.
    pub(super) fn is_folder(&self, path: &str) -> bool
        ensures { result ≡ stands.is_folder ((seen_in self.now).stands path.now) }
    {
        matches!(self.nodes.get(path), Some(Node::Folder))
    }

    /// Whether the folder stands that holds the path, as the root always does.
    pub(super) fn has_home(&self, path: &str) -> bool
        ensures { IsTrue result ↔ HasHome (seen_in self.now).stands path.now }
    {
        match home_of(path) {
            Some(home) => self.is_folder(home),
            None => true,
        }
    }

    /// The paths of what lies right in the folder. It looks at all that lies below it.
    pub(super) fn paths_in(&self, folder: &str) -> Result<Vec<String>, AllocError>
        ensures { IfOk result (λ found. (path : List ℕ) → IsListed found.items path
            ↔ (IsTrue (is_some ((seen_in self.now).stands path)) × IsHeldIn path folder.now)) }
    {
        let bounds = bounds_of(self.alloc, folder)?;
        let mut found = Vec::new(self.alloc);
        for (path, _) in self.nodes.range(bounds) {
            if is_held_in(path.as_str(), folder) {
                found.push(path.clone()?)?;
            }
        }
        Ok(found)
    }

    /// Has this stand at the path, and answers what stood there.
    pub(super) fn put(&mut self, path: &str, node: Node) -> Result<Option<Node>, AllocError>
        ensures stood { IfOk result (λ stood. stood ≡ (seen_in self.old).stands path.now) }
        ensures ok { let stands = put_at (seen_in self.old).stands path.now (Some node) in
            OnOk result (seen_in self.new ≡ changed (seen_in self.old) stands) }
        ensures err { OnErr result (seen_in self.new ≡ seen_in self.old) }
    {
        let name = String::from_str(self.alloc, path)?;
        Ok(self.nodes.insert(name, node)?)
    }

    /// Has nothing stand at the path.
    pub(super) fn clear(&mut self, path: &str)
        ensures { let stands = put_at (seen_in self.old).stands path.now None in
            seen_in self.new ≡ changed (seen_in self.old) stands }
    {
        self.nodes.remove(path);
    }

    /// Has this stand at the path again, where something else stands now.
    pub(super) fn put_back(&mut self, path: &str, stood: Option<Node>)
        requires { IsTrue (is_some ((seen_in self.old).stands path.now)) }
        ensures { let stands = put_at (seen_in self.old).stands path.now stood in
            seen_in self.new ≡ changed (seen_in self.old) stands }
    {
        match stood {
            Some(node) => {
                if let Some(place) = self.nodes.get_mut(path) {
                    *place = node;
                }
            }
            None => self.clear(path),
        }
    }
}
