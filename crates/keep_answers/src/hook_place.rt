/// Where the veto or the watch of a name is.
#[derive(Clone, Copy)]
pub(crate) enum HookPlace {
    /// It is armed.
    Armed,
    /// At this place of the kit's vetoes.
    Veto(usize),
    /// At this place of the kit's watches.
    Watch(usize),
}
