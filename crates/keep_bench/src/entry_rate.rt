ghost use Rattle.std.specs.Prelude.{◌≡◌, ◌↔◌, IfOk, IsTrue};
ghost use Rattle.keep_entries.specs.Spelling.{entry_text};

use keep_entries::write_entry;
use keep_journal::Entry;
use std::alloc::{AllocError, Global};

/// Writes an entry, and says whether these are the bytes.
pub(crate) fn is_written_so(alloc: Global, entry: &Entry, bytes: &[u8]) -> Result<bool, AllocError>
    ensures { IfOk result (λ same. IsTrue same ↔ (bytes.now ≡ entry_text entry.now.event)) }
{
    let text = write_entry(alloc, entry)?;
    let text = text.bytes(alloc)?;
    Ok(bytes == text.as_slice())
}
