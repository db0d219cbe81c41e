ghost use Rattle.keep_opening.specs.Remaining.{WhatIsDueLeadsOn};

/// The moves that are due on a shelf that reads can all be made, belong to the last event, and lead to the files that
/// the reading is told by.
pub fn what_is_due_leads_on()
    ensures { WhatIsDueLeadsOn }
{}
