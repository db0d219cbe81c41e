ghost use Rattle.std.specs.Prelude.{◌≡◌, IfOk};
ghost use Rattle.keep_entries.specs.Entry.{Fits};
ghost use Rattle.keep_entries.specs.Spelling.{entry_text};

use keep_entries::write_entry;
use keep_journal::Entry;
use keep_rope::Rope;
use std::alloc::{AllocError, Global};

/// The text of the entry's event, as it is put on a shelf.
pub fn entry_of(alloc: Global, entry: &Entry) -> Result<Rope, AllocError>
    ensures text { IfOk result (λ text. text ≡ entry_text entry.now.event) }
    ensures fits { IfOk result (λ _. Fits entry.now.event) }
{
    write_entry(alloc, entry)
}
