use keep_shelf::Key;

/// Something that is wrong with what stands on a shelf.
#[derive(Clone, Copy, Debug, PartialEq, Eq)]
pub enum Finding {
    /// Under this number stands something that isn't an entry of that number.
    NoEntry(u64),
    /// The entry of this number tells what can't follow those before it.
    Misplaced(u64),
    /// The file has other bytes than the entry of this number tells.
    OtherBytes(Key, u64),
    /// The file is there, and no entry tells it.
    Untold(Key),
    /// The file isn't there, and the entries tell it, or look for it.
    Missing(Key),
    /// The changes that the entries tell can't be made in turn, though each file is as they ask.
    Unmade,
}
