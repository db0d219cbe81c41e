ghost use Rattle.keep_restores.specs.Choosing.{NoPatternMeansAll};

/// Without patterns all nodes of a snapshot are put back.
pub fn no_pattern_means_all()
    ensures { NoPatternMeansAll }
{}
