ghost use Rattle.std.specs.Prelude.{◌≡◌, ◌<◌, ◌≤◌, ◌++◌, IfOk, OnOk, map};
ghost use Rattle.keep_journal.specs.History.{final_number as last_final, last_change};
ghost use Rattle.keep_shelf.specs.declared.key.Key.TheVariants.{Trash};
ghost use Rattle.keep_moves.specs.Lists.{swept_keys, trash_at};
ghost use Rattle.keep_moves.specs.Notices.{silenced_keys, notice_lasts as tells_something};
ghost use Rattle.keep_moves.specs.declared.moves.Move.TheVariants.{Erase};

use crate::moves::Move;
use keep_change::{StoredFile, What};
use keep_journal::{History, Notice};
use keep_shelf::Key;
use std::alloc::{AllocError, Global};

/// The moves of an emptying up to n.
pub fn swept_moves(alloc: Global, history: &History, n: u64) -> Result<Vec<Move>, AllocError>
    requires { n ≤ last_change history.now.journal }
    ensures { IfOk result (λ moves. moves.items ≡ map Erase (swept_keys history.now.journal n)) }
{
    let final_number = history.final_number();
    let notices = history.notices();
    let mut moves = Vec::new(alloc);
    for before in final_number..n {
        sweep_change(&mut moves, history, before + 1)?;
    }
    sweep_entries(&mut moves, notices, final_number, n)?;
    Ok(moves)
}

/// Appends the erasures of what the trash of change m has, which isn't final yet.
fn sweep_change(moves: &mut Vec<Move>, history: &History, m: u64) -> Result<(), AllocError>
    requires { last_final history.now.journal < m }
    ensures { OnOk result (moves.new.items
        ≡ moves.old.items ++ map Erase (trash_at history.now.journal m)) }
{
    if let Some(change) = history.kept_change(m) {
        return push_erasures(moves, m, change.drops.as_slice());
    }
    match history.change(m) {
        Some(change) => push_erasures(moves, m, change.adds.as_slice()),
        None => Ok(()),
    }
}

/// Appends the erasures of these files from the trash of change m.
fn push_erasures(moves: &mut Vec<Move>, m: u64, files: &[StoredFile]) -> Result<(), AllocError>
    ensures { OnOk result (moves.new.items
        ≡ moves.old.items ++ map Erase (map (λ f. Trash m f.name) files.now)) }
{
    for file in files {
        moves.push(Move::Erase(Key::Trash(m, file.name())))?;
    }
    Ok(())
}

/// Appends the erasures of the entries that tell nothing once all changes up to n are final.
fn sweep_entries(
    moves: &mut Vec<Move>,
    notices: &[Notice],
    final_number: u64,
    n: u64,
) -> Result<(), AllocError>
    ensures { OnOk result (moves.new.items
        ≡ moves.old.items ++ map Erase (silenced_keys final_number n notices.now)) }
{
    for notice in notices {
        if notice_lasts(final_number, notice) && !notice_lasts(n, notice) {
            moves.push(Move::Erase(Key::Entry(notice.at)))?;
        }
    }
    Ok(())
}

/// Whether the event still tells something where changes up to this number are final.
fn notice_lasts(final_number: u64, notice: &Notice) -> bool
    ensures { result ≡ tells_something final_number notice.now }
{
    match notice.what {
        What::Empty => notice.change == final_number,
        What::Commit | What::Undo | What::Redo => final_number < notice.change,
    }
}
