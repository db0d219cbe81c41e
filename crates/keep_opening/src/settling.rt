ghost use Rattle.std.specs.Prelude.{◌≡◌, ◌<◌, IfOk, OnOk};
ghost use Rattle.std.specs.FinMap as map;
ghost use Rattle.keep_journal.specs.History.{change_of, final_number};
ghost use Rattle.keep_moves.specs.Calls.{made_in};
ghost use Rattle.keep_moves.specs.Move.{finished_all, remains as remains_in};
ghost use Rattle.keep_opening.specs.Settling.{is_old as is_old_trash, moves_for};
ghost use Rattle.keep_reading.specs.Settled.{cleared, settled};

use keep_change::{Turn, What};
use keep_journal::History;
use keep_moves::{Move, first_moves, turn_moves};
use keep_shelf::{Key, Stock};
use std::alloc::{AllocError, Global};

/// Makes the last event's moves on what was taken in, but for the erasures of entries, be they made already or not.
/// Where memory runs out, some are made.
pub fn settle(alloc: Global, stock: &mut Stock, history: &History) -> Result<(), AllocError>
    ensures { OnOk result (map.get stock.new ≡ settled history.now.journal (map.get stock.old)) }
{
    let Some(last) = history.notices().last() else {
        return Ok(());
    };
    match last.what {
        What::Empty => clear(stock, last.change),
        what => {
            let moves = last_moves(alloc, history, what, last.change)?;
            finish(stock, moves.as_slice())
        }
    }
}

/// The moves of the last event, which did this to change n, but for those of an emptying.
pub fn last_moves(
    alloc: Global,
    history: &History,
    what: What,
    n: u64,
) -> Result<Vec<Move>, AllocError>
    ensures { IfOk result (λ moves. final_number history.now.journal < n
        → moves.items ≡ moves_for what n (change_of history.now.journal n)) }
{
    let Some(change) = history.change(n) else {
        return Ok(Vec::new(alloc));
    };
    match what {
        What::Commit => first_moves(alloc, n, change),
        What::Undo => turn_moves(alloc, Turn::TakeBack, n, change),
        What::Redo => turn_moves(alloc, Turn::Make, n, change),
        What::Empty => Ok(Vec::new(alloc)),
    }
}

/// Makes those of the moves that remain.
fn finish(stock: &mut Stock, moves: &[Move]) -> Result<(), AllocError>
    ensures { OnOk result (map.get stock.new ≡ finished_all moves.now (map.get stock.old)) }
{
    for step in moves {
        if remains(stock, step) {
            make(stock, step)?;
        }
    }
    Ok(())
}

/// Whether the move is still to be made.
pub fn remains(stock: &Stock, step: &Move) -> bool
    ensures { result ≡ remains_in (map.get stock.now) step.now }
{
    match step {
        Move::Put(key, _) => stock.get(*key).is_none(),
        Move::Shift(from, to) => stock.get(*from).is_some() && stock.get(*to).is_none(),
        Move::Erase(key) => stock.get(*key).is_some(),
    }
}

fn make(stock: &mut Stock, step: &Move) -> Result<(), AllocError>
    ensures { OnOk result (stock.new ≡ made_in step.now stock.old) }
{
    match step {
        Move::Put(key, bytes) => {
            stock.write(*key, bytes.clone()?)?;
        }
        Move::Shift(from, to) => stock.shift(*from, *to)?,
        Move::Erase(key) => stock.erase(*key),
    }
    Ok(())
}

/// Takes away the trash of the changes up to n.
fn clear(stock: &mut Stock, n: u64) -> Result<(), AllocError>
    ensures { OnOk result (map.get stock.new ≡ cleared n (map.get stock.old)) }
{
    let keys = stock.keys()?;
    for key in &keys {
        if is_old(n, *key) {
            stock.erase(*key);
        }
    }
    Ok(())
}

/// Whether it is the key of trash of a change up to n.
fn is_old(n: u64, key: Key) -> bool
    ensures { result ≡ is_old_trash n key }
{
    match key {
        Key::Trash(m, _) => m <= n,
        Key::Live(_) | Key::Entry(_) => false,
    }
}
