/// What an operator of a crew is asked for.
#[derive(Drop)]
pub enum Work<P> {
    /// To plan on what is shown, and to commit what was planned.
    Plan(P),
    /// To take the change of this number back.
    Undo(u64),
    /// To make it again, at its place.
    Redo(u64),
    /// To make all changes up to this number final.
    Empty(u64),
}
