ghost use Rattle.keep_names.specs.Laws.{TellsApart};
ghost use Rattle.keep_shelf.specs.Key.{KeysAreOrdered, key_cmp};

/// The order in which keys are listed. Two keys of which neither comes before the other are one.
pub fn keys_are_ordered()
    ensures ordered { KeysAreOrdered }
    ensures apart { TellsApart key_cmp }
{}
