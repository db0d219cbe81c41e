ghost use Rattle.std.specs.Prelude.{◌≡◌, ℕ, List, IfOk};
ghost use Rattle.std.specs.Cmp.{partial_equiv_from_equiv};
ghost use Rattle.std.specs.Cmp.Lexicographic.{nat_list_eq_equiv};
ghost use Rattle.std.specs.Str.{bytes_eq};

use std::alloc::{AllocError, Global};
use std::marker::Model;
use std::sync::Arc;

/// A file's bytes, shared by all that hold them.
#[derive(Drop)]
pub struct Bytes {
    shared: Arc<Vec<u8>>,
}

impl Model for Bytes {
    ghost Value = { List ℕ };

    ghost view = { λ b. b.shared.value.items };
}

impl Bytes {
    /// Takes the bytes over, to be shared from now on. Room that they don't use is given back.
    pub fn new(alloc: Global, bytes: Vec<u8>) -> Result<Bytes, AllocError>
        ensures { IfOk result (λ shared. shared ≡ bytes.items) }
    {
        let mut bytes = bytes;
        bytes.shrink_to_fit();
        Ok(Bytes {
            shared: Arc::new(alloc, bytes)?,
        })
    }

    pub fn as_slice(&self) -> &[u8]
        ensures { result.now ≡ self.now }
    {
        self.shared.as_slice()
    }
}

/// Another holder of the same bytes. None are copied.
impl Clone for Bytes {
    ghost is_clone = { λ source made. made ≡ source };

    fn clone(&self) -> Result<Bytes, AllocError> {
        Ok(Bytes {
            shared: self.shared.clone()?,
        })
    }
}

impl PartialEq for Bytes {
    ghost eq = { bytes_eq };

    ghost laws = { partial_equiv_from_equiv nat_list_eq_equiv };

    fn eq(&self, other: &Bytes) -> bool {
        self.as_slice() == other.as_slice()
    }
}

impl Eq for Bytes {
    ghost laws = { nat_list_eq_equiv };
}
