ghost use Rattle.std.specs.Prelude.{◌≡◌, ◌<◌, [], take, vec_len};
ghost use Rattle.keep_book.specs.Cascade.{count_at};
ghost use Rattle.keep_desk.specs.Cascade.{refusal_of};

use keep_crew::DeskError;
use keep_ledger::Refusal;
use std::alloc::Global;

/// What became of a change that was to be taken back with what leans on it.
#[derive(Drop)]
pub struct TakenBack {
    /// The changes that were taken back, from the greatest down.
    pub numbers: Vec<u64>,
    /// Why no more were, unless these are all. `Late` and `Unsettled` are of the last of the numbers.
    pub stopped: Option<DeskError>,
}

impl TakenBack {
    /// No undo was asked for.
    pub(crate) fn refused(alloc: Global, refusal: Refusal) -> TakenBack
        ensures numbers { result.numbers.items ≡ [] }
        ensures stopped { result.stopped ≡ Some (DeskError.Refused refusal) }
    {
        TakenBack {
            numbers: Vec::new(alloc),
            stopped: Some(DeskError::Refused(refusal)),
        }
    }

    /// So many were taken back and published, and then this was answered for the next one.
    pub(crate) fn stopped_at(numbers: Vec<u64>, done: usize, error: DeskError) -> TakenBack
        requires { done < vec_len numbers }
        ensures numbers { result.numbers.items ≡ take (count_at done (refusal_of error)) numbers.items }
        ensures stopped { result.stopped ≡ Some error }
    {
        let mut numbers = numbers;
        let taken = match error {
            DeskError::Late(_) | DeskError::Refused(Refusal::Unsettled(_)) => done + 1,
            DeskError::Refused(_) => done,
        };
        numbers.truncate(taken);
        TakenBack {
            numbers,
            stopped: Some(error),
        }
    }
}
