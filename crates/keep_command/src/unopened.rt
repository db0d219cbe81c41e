ghost use Rattle.std.specs.Prelude.{◌≡◌};

use keep_shelf::Shelf;

/// A shelf that wasn't opened. No call can be made on it anymore.
#[derive(Drop)]
pub struct Unopened<S> {
    shelf: S,
}

impl<S: Shelf> Unopened<S> {
    pub(crate) fn new(shelf: S) -> Unopened<S>
        ensures { result.shelf ≡ shelf }
    {
        Unopened { shelf }
    }
}
