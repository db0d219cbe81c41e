use crate::book::Book;
use crate::taken_back::TakenBack;
use keep_journal::Status;
use keep_ledger::{Refusal, Told};
use keep_shelf::Shelf;
use keep_touch::taken_with;

impl<S: Shelf> Book<S> {
    ghost use Rattle.keep_journal.specs.Opening.{IsOpen};
    ghost use Rattle.keep_touch.specs.Taken.{AreTaken};
    ghost use Rattle.keep_journal.specs.declared.request.Request.TheVariants.{Undo};
    ghost use Rattle.keep_ledger.specs.Request.{IsFree};
    ghost use Rattle.keep_book.specs.Armed.{HasSums, Responds, ledger_of};
    ghost use Rattle.keep_book.specs.Cascade.{Cascades, RefusesOrGives, taken_refusal};

    /// The numbers of the changes that have to be taken back with change n, so that nothing that is left leans on any
    /// of them: n itself, and each change in force that leans on one of them. They come from the greatest down.
    ///
    /// `Unknown`, `Final`, `NotInForce`, as an undo of n is refused, or `Memory`. No call of the shelf is made, whether
    /// moves are due or not.
    pub fn taken_with(&self, n: u64) -> Result<Vec<u64>, Refusal>
        ensures taken { let events = (ledger_of self.now).events in
            RefusesOrGives (taken_refusal events n) (λ numbers. AreTaken events n numbers.items) result }
        ensures open { let b = ledger_of self.now in IsOpen b.opening b.events b.live }
    {
        let history = self.ledger.history();
        match history.status(n) {
            Status::Unknown => Err(Refusal::Unknown),
            Status::Final => Err(Refusal::Final),
            Status::Undone => Err(Refusal::NotInForce),
            Status::InForce => Ok(taken_with(self.alloc, history, self.ledger.touch(), n)?),
        }
    }

    /// Takes the change back with all that `taken` tells, from the greatest down, each by an undo of its own. Where an
    /// undo is refused, or its change is left unsettled, no more are asked for.
    ///
    /// What `taken` refuses is told before any call of the shelf, also of a move that is due. `Full` is the refusal of
    /// the next one, behind those that were taken back. `LeanedOn` is none: what leans on a change is taken back before
    /// it.
    pub fn undo_with(&mut self, n: u64) -> TakenBack
        requires { HasSums self.old }
        ensures { Cascades self.old n result self.new }
    {
        let numbers = match self.taken_with(n) {
            Ok(numbers) => numbers,
            Err(refusal) => return TakenBack::refused(self.alloc, refusal),
        };
        for done in 0..numbers.len() {
            if let Err(refusal) = self.take_back(numbers[done]) {
                return TakenBack::stopped_at(numbers, done, refusal);
            }
        }
        TakenBack {
            numbers,
            stopped: None,
        }
    }

    /// Takes a change back on which nothing leans, and tells the watches.
    fn take_back(&mut self, n: u64) -> Result<Told, Refusal>
        requires sums { HasSums self.old }
        requires free { IsFree (ledger_of self.old) (Undo n) }
        ensures responds { Responds self.old (Undo n) result self.new }
    {
        self.ledger.take_back(&mut self.hooks, n)
    }
}
