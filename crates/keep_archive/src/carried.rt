ghost use Rattle.serde_json.specs.View.{members_view};
ghost use Rattle.keep_archive.specs.Carried.{CanBeCarried};

use serde_json::{Map, Value};
use std::alloc::Global;

/// What a node says beside its name and what it is, as its tree carries it.
#[derive(Drop)]
pub struct Carried {
    pub(crate) members: Map<String, Value>,
    pub ghost stands: { ∥ CanBeCarried (members_view members.entries) ∥₁ },
}

impl Carried {
    ghost use Rattle.std.specs.Prelude.{◌≡◌};
    ghost use Rattle.serde_json.specs.Data.{no_members};
    ghost use Rattle.keep_archive.specs.Archive.{carried_view};

    /// Nothing.
    pub fn none(alloc: Global) -> Carried
        ensures { carried_view result ≡ no_members }
    {
        Carried {
            members: Map::new(alloc),
        }
    }

    /// These members, which a node of any name and kind can carry.
    pub fn of(members: Map<String, Value>) -> Carried
        requires { CanBeCarried (members_view members.entries) }
        ensures { carried_view result ≡ members_view members.entries }
    {
        Carried { members }
    }
}
