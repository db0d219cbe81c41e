/// Which of the two things that a change does to files is done.
#[derive(Clone, Copy)]
pub(crate) enum Half {
    /// What the change only looks at is made as it has to be.
    Look,
    /// What it writes is written.
    Write,
}
