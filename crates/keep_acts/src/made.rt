/// What an event that is in came to.
#[derive(Clone, Copy, Debug, PartialEq, Eq)]
pub struct Made {
    /// The change that it is about. A new one got this number.
    pub number: u64,
    /// The number of the event.
    pub event: u64,
    /// Whether a call of the shelf failed behind it. The moves that are left of it are due then, and the next request
    /// begins with them.
    pub is_unsettled: bool,
}
