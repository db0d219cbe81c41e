ghost use Rattle.std.specs.Prelude.{◌≡◌, ◌++◌, IfOk, OnOk, map};
ghost use Rattle.keep_moves.specs.Lists.{back_of, commit_moves, moves_turned, out_of, put_of};

use crate::moves::Move;
use keep_change::{Change, StoredFile, Turn};
use keep_rope::Rope;
use keep_shelf::Key;
use std::alloc::{AllocError, Global};

/// The moves of change n when it is made for the first time.
pub fn first_moves(alloc: Global, n: u64, change: &Change) -> Result<Vec<Move>, AllocError>
    ensures { IfOk result (λ moves. moves.items ≡ commit_moves n change.now) }
{
    let mut moves = Vec::new(alloc);
    for file in change.adds.as_slice() {
        let bytes = Rope::of(file.bytes().clone()?);
        moves.push(Move::Put(Key::Live(file.name()), bytes))?;
    }
    push_out(&mut moves, n, change.drops.as_slice())?;
    Ok(moves)
}

/// The moves of change n when it is made again, or taken back.
pub fn turn_moves(
    alloc: Global,
    turn: Turn,
    n: u64,
    change: &Change,
) -> Result<Vec<Move>, AllocError>
    ensures { IfOk result (λ moves. moves.items ≡ moves_turned turn n change.now) }
{
    let mut moves = Vec::new(alloc);
    match turn {
        Turn::Make => {
            push_back(&mut moves, n, change.adds.as_slice())?;
            push_out(&mut moves, n, change.drops.as_slice())?;
        }
        Turn::TakeBack => {
            push_out(&mut moves, n, change.adds.as_slice())?;
            push_back(&mut moves, n, change.drops.as_slice())?;
        }
    }
    Ok(moves)
}

/// Appends the moves of these files into the trash of change n.
fn push_out(moves: &mut Vec<Move>, n: u64, files: &[StoredFile]) -> Result<(), AllocError>
    ensures { OnOk result (moves.new.items ≡ moves.old.items ++ map (out_of n) files.now) }
{
    for file in files {
        let name = file.name();
        moves.push(Move::Shift(Key::Live(name), Key::Trash(n, name)))?;
    }
    Ok(())
}

/// Appends the moves of these files back from the trash of change n.
fn push_back(moves: &mut Vec<Move>, n: u64, files: &[StoredFile]) -> Result<(), AllocError>
    ensures { OnOk result (moves.new.items ≡ moves.old.items ++ map (back_of n) files.now) }
{
    for file in files {
        let name = file.name();
        moves.push(Move::Shift(Key::Trash(n, name), Key::Live(name)))?;
    }
    Ok(())
}
