ghost use Rattle.std.specs.Prelude.{◌≡◌, IfOk};

use crate::change::Change;
use std::alloc::{AllocError, Global};
use std::marker::Model;
use std::sync::Arc;

/// A change, shared by all that hold it.
#[derive(Drop)]
pub struct SharedChange {
    shared: Arc<Change>,
}

impl Model for SharedChange {
    ghost use Rattle.keep_change.specs.declared.change.Change as the_change;

    ghost Value = { the_change.Change };

    ghost view = { λ s. s.shared.value };
}

impl SharedChange {
    /// Takes the change over, to be shared from now on.
    pub fn new(alloc: Global, change: Change) -> Result<SharedChange, AllocError>
        ensures { IfOk result (λ shared. shared ≡ change) }
    {
        Ok(SharedChange {
            shared: Arc::new(alloc, change)?,
        })
    }

    pub fn as_change(&self) -> &Change
        ensures { result.now ≡ self.now }
    {
        &self.shared
    }
}

/// Another holder of the same change. Nothing of it is copied.
impl Clone for SharedChange {
    ghost is_clone = { λ source made. made ≡ source };

    fn clone(&self) -> Result<SharedChange, AllocError> {
        Ok(SharedChange {
            shared: self.shared.clone()?,
        })
    }
}
