ghost use Rattle.std.specs.Prelude.{IfOk, string_bytes};
ghost use Rattle.keep_openings.specs.Refused.{IsRefusedSo, SaysDamage};

use crate::unopened::Unopened;
use keep_damage::{damage_on, report};
use keep_ledger::NotOpened;
use keep_opening::OpenError;
use keep_shelf::Shelf;
use std::alloc::Global;

/// Why the shelf isn't opened: what is wrong with what stands there, where it can be found. The shelf is let go.
pub fn refusal_of<S: Shelf>(alloc: Global, given: NotOpened<S>) -> Unopened
    ensures { IsRefusedSo (S.shelved given.shelf).content given.error result }
{
    let NotOpened { mut shelf, error } = given;
    let OpenError::BadEntry(number) = error else {
        return Unopened::Unread(error);
    };
    match damage_said(alloc, &mut shelf) {
        Ok(damage) => Unopened::Damaged(number, damage),
        Err(_) => Unopened::Unread(OpenError::BadEntry(number)),
    }
}

/// What is wrong with what stands on the shelf, in words.
fn damage_said<S: Shelf>(alloc: Global, shelf: &mut S) -> Result<String, OpenError>
    ensures { IfOk result (λ damage. SaysDamage (S.shelved shelf.old).content (string_bytes damage)) }
{
    let found = damage_on(alloc, shelf)?;
    let damage = report(alloc, found.as_slice())?;
    Ok(damage)
}
