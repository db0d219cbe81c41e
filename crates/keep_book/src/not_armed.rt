/// Why a veto or a watch isn't armed. It is handed back.
#[derive(Drop)]
pub enum NotArmed<H> {
    /// A veto or a watch of this name is armed.
    DoubleName(H),
    /// Memory ran out.
    Memory(H),
}
