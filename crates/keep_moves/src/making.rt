ghost use Rattle.std.specs.Prelude.{◌≡◌, ◌≤◌, ◌<◌, ◌-◌, IsTrue, OnOk, OnErr, drop, length, map, take};
ghost use Rattle.std.specs.FinMap as finite;
ghost use Rattle.keep_shelf.specs.Shelved.{called, failed};
ghost use Rattle.keep_moves.specs.Calls.{Make, made_in, played};
ghost use Rattle.keep_moves.specs.Move.{CanMake, remains};

use crate::moves::Move;
use keep_shelf::{Fault, Shelf};

/// Makes the move, which remains, by one call.
pub fn make<S: Shelf>(shelf: &mut S, step: &Move) -> Result<(), Fault>
    requires { IsTrue (remains (finite.get (S.shelved shelf.old).content) step.now) }
    ensures ok { let before = S.shelved shelf.old in
        OnOk result (S.shelved shelf.new ≡ called before (made_in step.now before.content)) }
    ensures err { OnErr result (S.shelved shelf.new ≡ failed (S.shelved shelf.old)) }
{
    match step {
        Move::Put(key, bytes) => shelf.write(*key, bytes),
        Move::Shift(from, to) => shelf.shift(*from, *to),
        Move::Erase(key) => shelf.erase(*key),
    }
}

/// Makes the moves that are due, of which so many are made already. Where a call fails, it is known how many are made by then.
pub fn settle<S: Shelf>(shelf: &mut S, moves: &[Move], made: &mut usize) -> Result<(), Fault>
    requires within { made.old ≤ length moves.now }
    requires can { CanMake (drop made.old moves.now) (finite.get (S.shelved shelf.old).content) }
    ensures made { OnOk result (made.new ≡ length moves.now) }
    ensures ok { OnOk result (S.shelved shelf.new
        ≡ played (map Make (drop made.old moves.now)) (S.shelved shelf.old)) }
    ensures onward { OnErr result (made.old ≤ made.new) }
    ensures short { OnErr result (made.new < length moves.now) }
    ensures err { OnErr result (S.shelved shelf.new
        ≡ failed (played (map Make (take (made.new - made.old) (drop made.old moves.now))) (S.shelved shelf.old))) }
{
    while *made < moves.len() {
        make(shelf, &moves[*made])?;
        *made += 1;
    }
    Ok(())
}
