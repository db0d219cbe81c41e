ghost use Rattle.std.specs.Prelude.{◌≡◌, IfErr, IfOk};
ghost use Rattle.keep_ledger.specs.OnShelf.{IsKept, ledger_on};
ghost use Rattle.keep_ledger.specs.Opened.{IsGivenBack, IsNotOpened, IsReadOf};

use crate::ledger::Ledger;
use crate::not_opened::NotOpened;
use crate::noting::notes_of;
use keep_catalog::{Hashing, LiveRepo};
use keep_journal::History;
use keep_moves::Move;
use keep_opening::{OpenError, Opened, due_moves, read, read_stock};
use keep_shelf::Shelf;
use keep_touch::Touch;
use std::alloc::Global;

impl<S: Shelf> Ledger<S> {
    /// Reads a shelf. The moves that were left of its last event are due.
    pub(crate) fn read<H: Hashing>(
        alloc: Global,
        shelf: S,
        hashing: &mut H,
    ) -> Result<Ledger<S>, NotOpened<S>>
        ensures read { IfOk result (λ ledger. IsReadOf (S.shelved shelf) ledger) }
        ensures refused { IfErr result (λ given. IsNotOpened (S.shelved shelf) given.error) }
        ensures given { IfErr result (λ given. IsGivenBack (S.shelved shelf) given.error (S.shelved given.shelf)) }
    {
        let mut shelf = shelf;
        match find(alloc, &mut shelf, hashing) {
            Ok(found) => {
                let ShelfReading {
                    live,
                    history,
                    touch,
                    moves,
                } = found;
                Ok(Ledger {
                    alloc,
                    live,
                    history,
                    touch,
                    moves,
                    made: 0,
                    shelf,
                })
            }
            Err(error) => Err(NotOpened { shelf, error }),
        }
    }
}

/// What a shelf says: a ledger, but for the shelf.
#[derive(Drop)]
struct ShelfReading {
    live: LiveRepo,
    history: History,
    touch: Touch,
    /// Those that were left of the last event.
    moves: Vec<Move>,
}

/// Reads what a shelf says. Nothing is changed there.
fn find<S: Shelf, H: Hashing>(
    alloc: Global,
    shelf: &mut S,
    hashing: &mut H,
) -> Result<ShelfReading, OpenError>
    ensures read { IfOk result (λ found. IsReadOf (S.shelved shelf.old)
        (ledger_on found.history.journal found.live found.moves.items (S.shelved shelf.new))) }
    ensures kept { IfOk result (λ found.
        IsKept found.history.journal found.live found.touch found.moves.items 0 (S.shelved shelf.new)) }
    ensures refused { IfErr result (IsNotOpened (S.shelved shelf.old)) }
    ensures given { IfErr result (λ error. IsGivenBack (S.shelved shelf.old) error (S.shelved shelf.new)) }
{
    let stock = read_stock(alloc, shelf)?;
    let opened = read(alloc, &stock, hashing)?;
    let moves = due_moves(alloc, &stock, &opened.history)?;
    let touch = notes_of(alloc, &opened.history)?;
    let Opened { history, live, .. } = opened;
    Ok(ShelfReading {
        live: LiveRepo::new(alloc, live),
        history,
        touch,
        moves,
    })
}
