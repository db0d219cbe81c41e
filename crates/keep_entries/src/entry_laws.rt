ghost use Rattle.keep_entries.specs.Laws.{EventsOfOpenHistoriesAreEntries, FormsDiffer, OneEventIsSpelled};

/// Two events never have one text, and the two texts of an event differ.
pub fn one_event_is_spelled()
    ensures events { OneEventIsSpelled }
    ensures forms { FormsDiffer }
{}

/// The events of a history that stays open can be written, and are read back: so what a ledger appends is an entry,
/// event for event. An open history says of its last emptying alone that the marks are in order; of an earlier one's,
/// that has to be known.
pub fn events_of_open_histories_are_entries()
    ensures { EventsOfOpenHistoriesAreEntries }
{}
