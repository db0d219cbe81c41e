ghost use Rattle.std.specs.Prelude.{◌≡◌, IfOk, map};
ghost use Rattle.keep_damage.specs.Entries.{sign_of};

use keep_reading::Leaf;
use std::alloc::{AllocError, Global};

/// What is kept of a leaf, when its event is handed on.
#[derive(Clone, Copy)]
pub(crate) struct Sign {
    pub(crate) at: u64,
    pub(crate) is_entry: bool,
}

/// The signs of the leaves.
pub(crate) fn signs_of(alloc: Global, leaves: &[Leaf]) -> Result<Vec<Sign>, AllocError>
    ensures { IfOk result (λ signs. signs.items ≡ map sign_of leaves.now) }
{
    let mut signs = Vec::new(alloc);
    for leaf in leaves {
        signs.push(sign_of(leaf))?;
    }
    Ok(signs)
}

fn sign_of(leaf: &Leaf) -> Sign
    ensures { result ≡ sign_of leaf.now }
{
    Sign {
        at: leaf.at,
        is_entry: leaf.event.is_some(),
    }
}
