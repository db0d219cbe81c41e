ghost use Rattle.std.specs.Prelude.{◌≡◌, ◌<◌, length};
ghost use Rattle.keep_book.specs.Armed.{HasSums, hooks_of, ledger_of, on_shelf, with_veto};
ghost use Rattle.keep_hooks.specs.Rules.{rules_of, watches_of};
ghost use Rattle.keep_jobs.specs.Kits.{kit_view};
ghost use Rattle.keep_answers.specs.Arming.{Arming, IsThere, Moves, with_watch_now};
ghost use Rattle.keep_answers.specs.State.{state_of};
ghost use Rattle.keep_answers.specs.declared.session.Session.{Session};

use crate::hook_place::HookPlace;
use keep_book::{Book, NotArmed};
use keep_hooks::{Veto, Watch};
use keep_jobs::Kit;
use keep_shelf::Shelf;

/// Why nothing is armed.
#[derive(Clone, Copy)]
pub(crate) enum Unarmed {
    /// It is armed.
    DoubleName,
    /// Memory ran out. The kit has it still.
    Memory,
}

/// Arms the veto or the watch that is at the place.
pub(crate) fn arm<S: Shelf>(
    kit: &mut Kit,
    book: &mut Book<S>,
    place: HookPlace,
) -> Result<(), Unarmed>
    requires sums { HasSums book.old }
    requires there { IsThere place (kit_view kit.old) }
    ensures arms { (session : Session) → Arming (state_of (kit_view kit.old) session book.old) place result
        (state_of (kit_view kit.new) session book.new) }
    ensures sums { HasSums book.new }
{
    match place {
        HookPlace::Armed => Err(Unarmed::DoubleName),
        HookPlace::Veto(place) => arm_veto(&mut kit.vetoes, place, book),
        HookPlace::Watch(place) => arm_watch(&mut kit.watches, place, book),
    }
}

/// Moves the veto at the place into the book, behind the others. It stays where it was where it isn't armed.
fn arm_veto<S: Shelf>(
    vetoes: &mut Vec<Veto>,
    place: usize,
    book: &mut Book<S>,
) -> Result<(), Unarmed>
    requires sums { HasSums book.old }
    requires there { place < length vetoes.old.items }
    ensures moves { Moves with_veto place (rules_of vetoes.old.items) (hooks_of book.old) result
        (rules_of vetoes.new.items) (hooks_of book.new) }
    ensures ledger { on_shelf book.new ≡ on_shelf book.old }
    ensures sums { HasSums book.new }
{
    let veto = vetoes.remove(place);
    let Err(NotArmed::DoubleName(veto) | NotArmed::Memory(veto)) = book.add_veto(veto) else {
        return Ok(());
    };
    // There is room where it was.
    let _back = vetoes.insert(place, veto);
    Err(Unarmed::Memory)
}

/// Moves the watch at the place into the book, behind the others. It stays where it was where it isn't armed.
fn arm_watch<S: Shelf>(
    watches: &mut Vec<Watch>,
    place: usize,
    book: &mut Book<S>,
) -> Result<(), Unarmed>
    requires sums { HasSums book.old }
    requires there { place < length watches.old.items }
    ensures moves { Moves (with_watch_now (ledger_of book.old).events) place (watches_of watches.old.items)
        (hooks_of book.old) result (watches_of watches.new.items) (hooks_of book.new) }
    ensures ledger { on_shelf book.new ≡ on_shelf book.old }
    ensures sums { HasSums book.new }
{
    let watch = watches.remove(place);
    let Err(NotArmed::DoubleName(watch) | NotArmed::Memory(watch)) = book.add_watch(watch) else {
        return Ok(());
    };
    let _back = watches.insert(place, watch);
    Err(Unarmed::Memory)
}
