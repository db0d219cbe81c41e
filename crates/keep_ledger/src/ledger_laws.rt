ghost use Rattle.keep_ledger.specs.Ends.{AcceptedIsCounted, FaultsAreCounted};
ghost use Rattle.keep_ledger.specs.Opened.{FilesAloneAreOpened};

/// How many calls of its shelf an accepted request makes where no move was due, and how many fail at each answer.
pub fn calls_are_counted()
    ensures accepted { AcceptedIsCounted }
    ensures failed { FaultsAreCounted }
{}

/// A shelf that has live files alone is opened as a ledger without changes over them, and never refused for what stands
/// there.
pub fn live_files_alone_are_opened()
    ensures { FilesAloneAreOpened }
{}
