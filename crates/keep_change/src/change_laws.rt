ghost use Rattle.keep_change.specs.Filling.{FacetsFollow, FilesComeFrom, WrittenFacetsTurn};
ghost use Rattle.keep_change.specs.Law.{RedoIsExact, TakingBackRestores, UndoIsExact};
ghost use Rattle.keep_change.specs.Lists.{SortedListsAreWellFormed, WhatIsAskedIsMet};

/// The law under `unapply`: it gives back the repository that the change was made in.
pub fn taking_back_restores()
    ensures { TakingBackRestores }
{}

/// The law under undo: what becomes of a history when one of its changes is taken out.
pub fn undo_is_exact()
    ensures { UndoIsExact }
{}

/// The law under redo: what becomes of a history when a change is put in at its place.
pub fn redo_is_exact()
    ensures { RedoIsExact }
{}

/// What a planner shows of its change's lists, so that the change can be committed to some repository.
pub fn sorted_lists_are_well_formed()
    ensures { SortedListsAreWellFormed }
{}

/// What a planner shows of the repository that it plans on, so that its change is met there.
pub fn what_is_asked_is_met()
    ensures { WhatIsAskedIsMet }
{}

/// What a change that is met finds and leaves, facet by facet, as its lists say; and where the files of its
/// result come from.
pub fn results_follow_the_lists()
    ensures facets { FacetsFollow }
    ensures files { FilesComeFrom }
{}

/// What the facets that a change writes hold before it and after it, and that no others change.
pub fn written_facets_turn()
    ensures { WrittenFacetsTurn }
{}
