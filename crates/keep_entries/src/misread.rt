use keep_docs::DocError;
use std::alloc::{AllocError, AllocFailed};

/// Why bytes weren't read.
#[derive(Clone, Copy)]
pub(crate) enum Misread {
    /// They are something else.
    OtherShape,
    /// Memory ran out.
    Memory,
}

impl From<DocError> for Misread {
    ghost use Rattle.std.specs.Prelude.{◌≡◌};
    ghost use Rattle.keep_entries.specs.Shape.{misread_of};

    ghost from_gives = { λ refusal misread. misread ≡ misread_of refusal };

    fn from(refusal: DocError) -> Misread {
        match refusal {
            DocError::NotJson | DocError::BadNumber => Misread::OtherShape,
            DocError::Memory => Misread::Memory,
        }
    }
}

impl From<AllocError> for Misread {
    ghost use Rattle.std.specs.Prelude.{◌≡◌};
    ghost use Rattle.keep_entries.specs.declared.misread.Misread.TheVariants.{Memory};

    ghost from_gives = { λ _ misread. misread ≡ Memory };

    fn from(_error: AllocError) -> Misread {
        Misread::Memory
    }
}

impl<T: Drop> From<AllocFailed<T>> for Misread {
    ghost use Rattle.std.specs.Prelude.{◌≡◌};
    ghost use Rattle.keep_entries.specs.declared.misread.Misread.TheVariants.{Memory};

    ghost from_gives = { λ _ misread. misread ≡ Memory };

    fn from(_error: AllocFailed<T>) -> Misread {
        Misread::Memory
    }
}
