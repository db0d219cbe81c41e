/// The first components of a pattern: those behind them are left to be matched. They are in order by pattern, and
/// then by how many are used.
#[derive(Clone, Copy, PartialEq, Eq, PartialOrd, Ord)]
pub(crate) struct Rest {
    /// The place of the pattern among others.
    pub(crate) pattern: usize,
    pub(crate) used: usize,
}
