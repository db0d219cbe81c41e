ghost use Rattle.keep_journal.specs.Laws.{LastingGrows, LastingHasTheMarks, LastingIsAsLong, LastingIsOpen, LastingLasts, LastingShrinks, WhatLastsIsKept};

/// What a history still tells says all of the changes that aren't final that the history says.
pub fn what_lasts_is_kept()
    ensures kept { WhatLastsIsKept }
    ensures stays { LastingIsOpen }
    ensures long { LastingIsAsLong }
    ensures marks { LastingHasTheMarks }
{}

/// What a history still tells, after one more event.
pub fn what_lasts_grows()
    ensures once { LastingLasts }
    ensures grows { LastingGrows }
    ensures shrinks { LastingShrinks }
{}
