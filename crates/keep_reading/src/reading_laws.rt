ghost use Rattle.keep_reading.specs.Bad.{NoneIsBad, OneIsBad};
ghost use Rattle.keep_reading.specs.Checks.{WhatPassesIsRead, WhatReadsPasses};
ghost use Rattle.keep_reading.specs.Reads.{OneReading};

/// What stands on a shelf has one meaning at most.
pub fn one_reading()
    ensures { OneReading }
{}

/// What is tested where a shelf is opened is just what makes a reading.
pub fn what_passes_is_read()
    ensures passes { WhatPassesIsRead }
    ensures reads { WhatReadsPasses }
{}

/// The first entry with which something is wrong keeps a shelf from being read, and where there is none the entries are
/// those of a reading.
pub fn one_bad_entry_is_enough()
    ensures none { NoneIsBad }
    ensures one { OneIsBad }
{}
