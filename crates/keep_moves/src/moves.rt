use keep_rope::Rope;
use keep_shelf::Key;

/// What one call does to a shelf.
#[derive(Drop)]
pub enum Move {
    /// Bytes come under a key that has none.
    Put(Key, Rope),
    /// What is under the first key goes under the second, which has nothing.
    Shift(Key, Key),
    /// What is under a key goes.
    Erase(Key),
}
