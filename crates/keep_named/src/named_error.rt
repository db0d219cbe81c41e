use std::alloc::AllocError;

/// Why a text names no snapshot.
#[derive(Clone, Copy, Debug, PartialEq, Eq)]
pub enum NamedError {
    /// There is no latest one: none is listed.
    NoneLatest,
    /// What stands behind `@` is no number, or no change of this number added a snapshot.
    NoneAdded,
    /// The change added several snapshots.
    SeveralAdded,
    /// The text is empty, or the id of no snapshot begins with it.
    NoneBegins,
    /// The ids of several snapshots begin with the text.
    SeveralBegin,
    /// Memory ran out.
    Memory,
}

impl From<AllocError> for NamedError {
    ghost use Rattle.std.specs.Prelude.{◌≡◌};
    ghost use Rattle.keep_named.specs.declared.named_error.NamedError.TheVariants.{Memory};

    ghost from_gives = { λ _ error. error ≡ Memory };

    fn from(_error: AllocError) -> NamedError {
        NamedError::Memory
    }
}
