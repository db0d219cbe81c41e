use crate::made::Made;
use keep_change::Change;

/// What came of a job.
#[derive(Drop)]
pub enum Outcome {
    /// This change is planned. The book was asked for nothing.
    Planned(Change),
    /// The change is in the history, under the number that this has.
    Made(Made),
}
