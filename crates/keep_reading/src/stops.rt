ghost use Rattle.keep_reading.specs.Laws.{AMoveReads, CallsAreAdded, EmptyingBegins, EventBegins, MovesRead};

/// A shelf says the same all the while the moves of its last event are made, in any order.
pub fn a_shelf_says_what_is_in()
    ensures one { AMoveReads }
    ensures all { MovesRead }
{}

/// The entry of an event is what makes a shelf say that the event is in.
pub fn events_begin_at_their_entries()
    ensures events { EventBegins }
    ensures emptyings { EmptyingBegins }
{}

/// The record of a shelf has what each call left.
pub fn calls_are_added()
    ensures { CallsAreAdded }
{}
