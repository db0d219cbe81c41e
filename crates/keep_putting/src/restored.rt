use crate::left_out::LeftOut;
use std::alloc::AllocError;

/// What a restore did. Each count ends at 2^64 - 1.
#[derive(Debug, Drop)]
pub struct Restored {
    /// Files that have all their bytes.
    pub files: u64,
    pub folders: u64,
    pub links: u64,
    /// How many bytes those files have.
    pub bytes: u64,
    /// Of how many the owner isn't the one that the snapshot says, since only the superuser gives things away.
    pub owners: u64,
    /// How many links have the time of the restore.
    pub link_times: u64,
    /// All else that isn't as the snapshot says, in the order in which it was met.
    pub left_out: Vec<LeftOut>,
}

/// Why a restore ended.
#[derive(Clone, Copy, Debug, PartialEq, Eq)]
pub enum PutError {
    /// Something was in the folder already. Nothing was done.
    NotEmpty,
    /// Memory ran out. What was made until then is there.
    Memory,
}

impl From<AllocError> for PutError {
    ghost use Rattle.std.specs.Prelude.{◌≡◌};
    ghost use Rattle.keep_putting.specs.declared.restored.PutError.TheVariants.{Memory};

    ghost from_gives = { λ _ error. error ≡ Memory };

    fn from(_error: AllocError) -> PutError {
        PutError::Memory
    }
}
