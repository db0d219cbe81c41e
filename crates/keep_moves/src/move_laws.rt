ghost use Rattle.std.specs.Prelude.{ℕ};
ghost use Rattle.keep_journal.specs.Journal.{Journal};
ghost use Rattle.keep_moves.specs.Laws.{AllAreMade, CallsAreCounted, CallsAreRecorded, CommitIsBegun, EmptyIsBegun, EventsAreSettled, MovesAreMade, OneIsMade, ReadsLeaveAll, RedoIsBegun, StopsStayBehind, UndoIsBegun};

/// What moves without a key in common leave doesn't depend on their order, nor on which of them are made already.
pub fn moves_can_be_finished()
    ensures one { OneIsMade }
    ensures all { AllAreMade }
{}

/// What each call leaves, and what a shelf has where the making of moves stops.
pub fn stops_stay_behind()
    ensures reads { ReadsLeaveAll }
    ensures moves { MovesAreMade }
    ensures stops { StopsStayBehind }
{}

/// How many calls each event makes, and that the record has each of them.
pub fn calls_are_counted()
    ensures recorded { CallsAreRecorded }
    ensures counted { (j : Journal) (k n : ℕ) → CallsAreCounted j k n }
{}

/// Once the entry of an event is on the shelf, its moves can all be made, and lead to what stands there after the event.
pub fn events_are_begun()
    ensures commit { CommitIsBegun }
    ensures undo { UndoIsBegun }
    ensures redo { RedoIsBegun }
    ensures empty { EmptyIsBegun }
    ensures settled { EventsAreSettled }
{}
