ghost use Rattle.keep_sound.specs.Forms.{CoveringIsCareful, MarkingIsCareful, RelistingIsCareful};

use keep_names::orders_tell_apart;

/// A change that drops snapshots alone, and covers those that it adds, is careful.
pub fn covering_changes_are_careful()
    ensures { CoveringIsCareful }
{
    orders_tell_apart();
}

/// A change that adds indexes alone, drops marked packs alone, and lists elsewhere what dropped indexes list, is
/// careful.
pub fn relisting_changes_are_careful()
    ensures { RelistingIsCareful }
{
    orders_tell_apart();
}

/// A change that sets and clears marks alone, and gives all that the known snapshots reach, is careful.
pub fn marking_changes_are_careful()
    ensures { MarkingIsCareful }
{}
