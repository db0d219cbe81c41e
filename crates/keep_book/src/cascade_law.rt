ghost use Rattle.keep_book.specs.Cascade.{NothingLeansOnTheNext};

/// While a change is taken back with what leans on it, from the greatest number down, nothing leans on the next one:
/// its undo is refused only where there is no room for one more event.
pub fn nothing_leans_on_the_next()
    ensures { NothingLeansOnTheNext }
{}
