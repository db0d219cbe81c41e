ghost use Rattle.std.specs.Prelude.{◌≡◌, IfOk, IsTrue, OnOk, OnErr, is_some};
ghost use Rattle.std.specs.FinMap as map;
ghost use Rattle.keep_shelf.specs.Shelved.{called, failed, shifted};

use crate::key::Key;
use keep_rope::Rope;
use std::alloc::AllocError;

/// A call failed, and what stands on the shelf is as it was.
#[derive(Clone, Copy, Debug, PartialEq, Eq)]
pub struct Fault;

/// Want of memory is a failure like any other.
impl From<AllocError> for Fault {
    ghost use Rattle.std.specs.Prelude.{⊤};

    ghost from_gives = { λ _ _. ⊤ };

    fn from(_error: AllocError) -> Fault {
        Fault
    }
}

/// Keeps bytes under keys.
///
/// Bytes come and go as ropes: of an entry, which has files in hex that stand there too, the hex need not be held.
///
/// Each call is one atomic act: it is done whole or not at all, also where the program stops in the middle of it. A
/// call that is done is in the record, and one that failed is counted. Want of memory is a failure like any other.
pub trait Shelf: Drop {
    ghost use Rattle.keep_shelf.specs.Shelved.{Shelved};

    /// What contracts see of a shelf.
    ghost shelved: { Self → Shelved };

    /// The bytes under the key, if there are any.
    fn read(&mut self, key: Key) -> Result<Option<Rope>, Fault>
        ensures found { IfOk result (λ found. found ≡ map.get (shelved self.old).content key) }
        ensures ok { OnOk result
            (shelved self.new ≡ called (shelved self.old) (shelved self.old).content) }
        ensures err { OnErr result (shelved self.new ≡ failed (shelved self.old)) };

    /// Puts the bytes under the key, in the place of those that are there.
    fn write(&mut self, key: Key, bytes: &Rope) -> Result<(), Fault>
        ensures ok { let content = map.insert (shelved self.old).content key bytes.now in
            OnOk result (shelved self.new ≡ called (shelved self.old) content) }
        ensures err { OnErr result (shelved self.new ≡ failed (shelved self.old)) };

    /// Puts what is under one key under another one.
    fn shift(&mut self, from: Key, to: Key) -> Result<(), Fault>
        requires filled { IsTrue (is_some (map.get (shelved self.old).content from)) }
        requires free { map.get (shelved self.old).content to ≡ None }
        ensures ok { let content = shifted (shelved self.old).content from to in
            OnOk result (shelved self.new ≡ called (shelved self.old) content) }
        ensures err { OnErr result (shelved self.new ≡ failed (shelved self.old)) };

    /// Takes away what is under the key. Where nothing is, there is nothing to do.
    fn erase(&mut self, key: Key) -> Result<(), Fault>
        ensures ok { let content = map.remove (shelved self.old).content key in
            OnOk result (shelved self.new ≡ called (shelved self.old) content) }
        ensures err { OnErr result (shelved self.new ≡ failed (shelved self.old)) };

    /// The keys under which there is something, in order.
    fn list(&mut self) -> Result<Vec<Key>, Fault>
        ensures listed { IfOk result (λ keys. keys.items ≡ map.keys (shelved self.old).content) }
        ensures ok { OnOk result
            (shelved self.new ≡ called (shelved self.old) (shelved self.old).content) }
        ensures err { OnErr result (shelved self.new ≡ failed (shelved self.old)) };

    /// Whether it is known of each call that failed that it wasn't done. Where it isn't, as behind a network that was
    /// cut, what stands there isn't known before the shelf is opened anew.
    fn is_sure(&self) -> bool {
        true
    }
}
