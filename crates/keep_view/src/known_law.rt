ghost use Rattle.keep_view.specs.Laws.{KnownAreThereOrAdded};

/// A view knows the snapshots that the opening has, and those that a change adds which isn't final, and no others.
pub fn the_known_are_there_or_added()
    ensures { KnownAreThereOrAdded }
{}
