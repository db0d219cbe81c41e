use crate::shape::Shape;
use crate::taken::Taken;

/// What is known of what a commit's change wrote.
#[derive(Drop)]
pub enum Wrote {
    /// How much it wrote, and what the first snapshot says that it adds.
    Whole(Shape, Option<Taken>),
    /// The change is final: how many files it added is all that is known.
    Final(usize),
}
