ghost use Rattle.keep_repo.specs.Facet.{FacetsAreOrdered};

/// The order in which facets are listed, and by which the least of them is found.
pub fn facets_are_ordered()
    ensures { FacetsAreOrdered }
{}
