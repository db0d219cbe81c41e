use keep_catalog::ReachError;
use keep_names::Id;

/// Why what is reached from a tree can't be told. Unlike a `ReachError` it is never want of memory.
#[derive(Clone, Copy, Debug, PartialEq, Eq)]
pub enum Unreached {
    /// A tree stands deeper than level 256.
    TooDeep,
    /// The bytes of a tree aren't one.
    BadTree,
    /// No index and header in an unmarked pack have the blob.
    MissingBlob(Id),
    /// An index and a header have the blob, and none of its bytes have its id.
    WrongHash(Id),
}

impl From<Unreached> for ReachError {
    ghost use Rattle.std.specs.Prelude.{◌≡◌};
    ghost use Rattle.keep_plan.specs.Refusal.{reach_error};

    ghost from_gives = { λ why error. error ≡ reach_error why };

    fn from(why: Unreached) -> ReachError {
        match why {
            Unreached::TooDeep => ReachError::TooDeep,
            Unreached::BadTree => ReachError::BadTree,
            Unreached::MissingBlob(id) => ReachError::MissingBlob(id),
            Unreached::WrongHash(id) => ReachError::WrongHash(id),
        }
    }
}
