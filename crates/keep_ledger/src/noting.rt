ghost use Rattle.std.specs.Prelude.{◌≡◌, IfOk};
ghost use Rattle.keep_journal.specs.History.{final_number};
ghost use Rattle.keep_journal.specs.Opening.{AreWellFormed};
ghost use Rattle.keep_touch.specs.Mentions.{AreNoted};

use keep_journal::History;
use keep_touch::Touch;
use std::alloc::{AllocError, Global};

/// The notes of the changes of a history that has nothing of those that are final.
pub(crate) fn notes_of(alloc: Global, history: &History) -> Result<Touch, AllocError>
    requires told { history.now.journal.base ≡ final_number history.now.journal }
    requires formed { AreWellFormed history.now.journal }
    ensures { IfOk result (λ touch. AreNoted touch history.now.journal) }
{
    let mut touch = Touch::new(alloc);
    for before in history.final_number()..history.last_change() {
        if let Some(change) = history.change(before + 1) {
            touch.note(before + 1, change)?;
        }
    }
    Ok(touch)
}
