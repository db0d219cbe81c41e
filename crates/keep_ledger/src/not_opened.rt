ghost use Rattle.std.specs.Prelude.{◌≡◌};

use keep_opening::OpenError;
use std::fmt;

/// A shelf that isn't opened, and why. It is handed back.
#[derive(Drop)]
pub struct NotOpened<S> {
    pub shelf: S,
    pub error: OpenError,
}

impl<S: Drop> From<NotOpened<S>> for OpenError {
    ghost from_gives = { λ given error. error ≡ given.error };

    /// The shelf is let go.
    fn from(given: NotOpened<S>) -> OpenError {
        given.error
    }
}

impl<S> fmt::Debug for NotOpened<S> {
    fn fmt<W: fmt::Write>(&self, f: &mut fmt::Formatter<W>) -> fmt::Result {
        write!(f, "NotOpened({:?})", self.error)
    }
}
