ghost use Rattle.std.specs.Prelude.{◌≡◌, ◌<◌, [], take, vec_len};
ghost use Rattle.keep_book.specs.Cascade.{count_at};

use keep_ledger::Refusal;
use std::alloc::Global;

/// What became of a cascade.
#[derive(Drop)]
pub struct TakenBack {
    /// The changes that were taken back, from the greatest down.
    pub numbers: Vec<u64>,
    /// Why no more were, unless these are all. `Unsettled` is of the last of the numbers.
    pub stopped: Option<Refusal>,
}

impl TakenBack {
    /// Nothing was asked for.
    pub(crate) fn refused(alloc: Global, refusal: Refusal) -> TakenBack
        ensures numbers { result.numbers.items ≡ [] }
        ensures stopped { result.stopped ≡ Some refusal }
    {
        TakenBack {
            numbers: Vec::new(alloc),
            stopped: Some(refusal),
        }
    }

    /// So many were taken back, and then the next one was refused.
    pub(crate) fn stopped_at(numbers: Vec<u64>, done: usize, refusal: Refusal) -> TakenBack
        requires { done < vec_len numbers }
        ensures numbers { result.numbers.items ≡ take (count_at done refusal) numbers.items }
        ensures stopped { result.stopped ≡ Some refusal }
    {
        let mut numbers = numbers;
        let taken = match refusal {
            Refusal::Unsettled(_) => done + 1,
            _ => done,
        };
        numbers.truncate(taken);
        TakenBack {
            numbers,
            stopped: Some(refusal),
        }
    }
}
