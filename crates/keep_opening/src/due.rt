ghost use Rattle.std.specs.Prelude.{◌≡◌, IfOk, filter};
ghost use Rattle.std.specs.FinMap as map;
ghost use Rattle.keep_opening.specs.Remaining.{due_in};
ghost use Rattle.keep_moves.specs.Move.{remains as remains_in};

use crate::over::over_moves;
use crate::{last_moves, remains};
use keep_change::What;
use keep_journal::History;
use keep_moves::Move;
use keep_shelf::Stock;
use std::alloc::{AllocError, Global};

/// The moves of the last event that are still to be made, in their order. Of an emptying they are the erasures of all
/// that says nothing any more, by key.
pub fn due_moves(alloc: Global, stock: &Stock, history: &History) -> Result<Vec<Move>, AllocError>
    ensures { IfOk result (λ due. due.items ≡ due_in history.now.journal stock.now) }
{
    let Some(last) = history.notices().last() else {
        return Ok(Vec::new(alloc));
    };
    match last.what {
        What::Empty => over_moves(alloc, stock, history, last.change),
        what => {
            let moves = last_moves(alloc, history, what, last.change)?;
            left_of(alloc, stock, moves)
        }
    }
}

/// Those of the moves that are still to be made.
fn left_of(alloc: Global, stock: &Stock, moves: Vec<Move>) -> Result<Vec<Move>, AllocError>
    ensures { IfOk result (λ left. left.items ≡ filter (remains_in (map.get stock.now)) moves.items) }
{
    let mut left = Vec::new(alloc);
    for step in moves {
        if remains(stock, &step) {
            left.push(step)?;
        }
    }
    Ok(left)
}
