ghost use Rattle.std.specs.Prelude.{◌≡◌, ◌<◌, ℕ, OnOk, OnErr, length};
ghost use Rattle.keep_shelf.specs.Shelved.{failed};
ghost use Rattle.keep_moves.specs.Calls.{looks, played};

use keep_change::StoredFile;
use keep_shelf::{Fault, Key, Shelf};

/// Reads what the trash of change n has under the names of these files, before it comes back.
#[tactic(auto, using(crate::proofs::Played::looks_more))]
pub fn look<S: Shelf>(shelf: &mut S, n: u64, files: &[StoredFile]) -> Result<(), Fault>
    ensures ok { OnOk result
        (S.shelved shelf.new ≡ played (looks (length files.now)) (S.shelved shelf.old)) }
    ensures err { OnErr result ((i : ℕ) × (i < length files.now)
        × (S.shelved shelf.new ≡ failed (played (looks i) (S.shelved shelf.old)))) }
{
    for file in files {
        shelf.read(Key::Trash(n, file.name()))?;
    }
    Ok(())
}
