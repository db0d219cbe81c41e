use keep_targets::TargetError;

/// Why a new file doesn't hold all that it is to hold.
#[derive(Clone, Copy, Debug, PartialEq, Eq)]
pub(crate) enum Hurt {
    /// It isn't there.
    NotMade(TargetError),
    /// It has so many first bytes, and no more could be written.
    Cut { written: u64, refusal: TargetError },
    /// It has so many first bytes, and the piece behind them can't be had.
    Lost { written: u64 },
}
