use std::alloc::AllocError;

/// A call of a tree failed.
#[derive(Clone, Copy, Debug, PartialEq, Eq)]
pub enum TreeError {
    /// Nothing was done.
    Broken,
    /// An act was done or not, and the tree can't tell.
    Unknown,
}

/// Want of memory is a failure like any other, and nothing was done.
impl From<AllocError> for TreeError {
    ghost use Rattle.std.specs.Prelude.{◌≡◌};
    ghost use Rattle.keep_files.specs.declared.tree_error.TreeError.TheVariants.{Broken};

    ghost from_gives = { λ _ error. error ≡ Broken };

    fn from(_error: AllocError) -> TreeError {
        TreeError::Broken
    }
}
