ghost use Rattle.std.specs.Prelude.{◌≡◌, List, [], ◌∷◌, ◌++◌};
ghost use Rattle.std.specs.Borrow.{ftrue};

use std::marker::{Model, PhantomData};

/// A list of values, for clauses alone: they read it as `items`. None of the values is kept, and no code can tell one
/// log from another.
///
/// So a log is no evidence of what a program did. Nothing in memory ties its items down: the calls below do nothing,
/// and a proof by hand may give any log any items. A clause on the log of one type therefore tells its callers nothing
/// that they could find out. It restricts only code that is generic over a trait, and reads the list through a ghost
/// member of that trait: such code can't choose the items, and is proved also of those that keep such a list in earnest.
#[derive(Drop)]
pub struct Log<E> {
    of: PhantomData<E>,
    pub ghost items: { List E },
}

impl<E> Model for Log<E> {
    ghost also_owns = { λ _. ftrue };
}

// A struct with `also_owns` has neither by itself. A log owns nothing, whatever its items are.
unsafe impl<E> Send for Log<E> {}

unsafe impl<E> Sync for Log<E> {}

impl<E> Log<E> {
    /// The log without items.
    pub fn new() -> Log<E>
        ensures { result.items ≡ [] }
    {
        Log { of: PhantomData }
    }

    /// The log of these items and then this one.
    pub fn and(&self, item: &E) -> Log<E>
        ensures { result.items ≡ self.now.items ++ item.now ∷ [] }
    {
        Log { of: PhantomData }
    }

    /// Another log of the same items.
    pub fn again(&self) -> Log<E>
        ensures { result.items ≡ self.now.items }
    {
        Log { of: PhantomData }
    }
}
