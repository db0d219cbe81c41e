ghost use Rattle.std.specs.Prelude.{◌≡◌, ◌==◌, ℕ, IfOk, filter, map};
ghost use Rattle.std.specs.BTreeSet as tree;
ghost use Rattle.std.specs.FinMap as finite;
ghost use Rattle.std.specs.List.{list_any};
ghost use Rattle.std.specs.Ordering.{nat_cmp};
ghost use Rattle.keep_opening.specs.Remaining.{is_over as is_over_by, over_test};
ghost use Rattle.keep_journal.specs.History.{notices_of};
ghost use Rattle.keep_moves.specs.declared.moves.Move.TheVariants.{Erase};

use keep_journal::History;
use keep_moves::Move;
use keep_shelf::{Key, Stock};
use std::alloc::{AllocError, Global};
use std::collections::BTreeSet;

/// The erasures of all that says nothing any more, where changes up to n are final.
pub(crate) fn over_moves(
    alloc: Global,
    stock: &Stock,
    history: &History,
    n: u64,
) -> Result<Vec<Move>, AllocError>
    ensures { IfOk result (λ moves. moves.items
        ≡ map Erase (filter (is_over_by n history.now.journal) (finite.keys stock.now))) }
{
    let told = lasting_numbers(alloc, history)?;
    let keys = stock.keys()?;
    erase_over(alloc, &told, n, keys.as_slice())
}

/// The numbers of the events that still tell something.
fn lasting_numbers(alloc: Global, history: &History) -> Result<BTreeSet<u64>, AllocError>
    ensures { IfOk result (λ told. (k : ℕ)
        → tree.contains nat_cmp told k ≡ list_any (λ notice. notice.at == k) (notices_of history.now.journal)) }
{
    let mut told = BTreeSet::new(alloc);
    for notice in history.notices() {
        told.insert(notice.at)?;
    }
    Ok(told)
}

fn erase_over(
    alloc: Global,
    told: &BTreeSet<u64>,
    n: u64,
    keys: &[Key],
) -> Result<Vec<Move>, AllocError>
    ensures { IfOk result (λ moves. moves.items
        ≡ map Erase (filter (over_test n (tree.contains nat_cmp told.now)) keys.now)) }
{
    let mut moves = Vec::new(alloc);
    for key in keys {
        if is_over(told, n, *key) {
            moves.push(Move::Erase(*key))?;
        }
    }
    Ok(moves)
}

/// Whether what is under the key says nothing any more.
fn is_over(told: &BTreeSet<u64>, n: u64, key: Key) -> bool
    ensures { result ≡ over_test n (tree.contains nat_cmp told.now) key }
{
    match key {
        Key::Live(_) => false,
        Key::Trash(m, _) => m <= n,
        Key::Entry(k) => !told.contains(&k),
    }
}
