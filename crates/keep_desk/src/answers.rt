ghost use Rattle.std.specs.Prelude.{◌≡◌};
ghost use Rattle.keep_crew.specs.Answered.{number_in};

use crate::first_passes::Wanting;
use keep_ledger::{Refusal, Told};

/// Why a desk isn't opened. The book is handed back.
#[derive(Drop)]
pub enum NotOpened<K> {
    /// Memory ran out.
    Memory(K),
    /// There was no place for one of the readers.
    NoPass(K),
}

impl<K> NotOpened<K> {
    ghost use Rattle.keep_desk.specs.Closed.{keeper_of};

    /// Hands the book back where this was wanting.
    pub(crate) fn without(wanting: Wanting, keeper: K) -> NotOpened<K>
        ensures handed { keeper_of result ≡ keeper }
        ensures memory { wanting ≡ Wanting.Memory → result ≡ NotOpened.Memory keeper }
        ensures place { wanting ≡ Wanting.Place → result ≡ NotOpened.NoPass keeper }
    {
        match wanting {
            Wanting::Memory => NotOpened::Memory(keeper),
            Wanting::Place => NotOpened::NoPass(keeper),
        }
    }
}

/// The number of the change that an answer is about, where its event is in.
pub(crate) fn number_in(reply: &Result<Told, Refusal>) -> Option<u64>
    ensures { result ≡ number_in reply.now }
{
    match reply {
        Ok(told) => Some(told.number),
        Err(Refusal::Unsettled(number)) => Some(*number),
        Err(_) => None,
    }
}
