ghost use Rattle.std.specs.Prelude.{◌≡◌, ℕ, ◌-◌, ◌<◌, ◌≤◌, [], None, length, map, IfErr, IfOk, vec_capacity, vec_len};
ghost use Rattle.std.specs.List.{slice_index_or, zip};
ghost use Rattle.keep_journal.specs.History.{length_of};
ghost use Rattle.keep_jobs.specs.Job.{settings_view};
ghost use Rattle.keep_ledger.specs.Sums.{AreSums};
ghost use Rattle.keep_crew.specs.Allowing.{AllowsWork};
ghost use Rattle.keep_desk.specs.Closed.{IsClosed, keeper_of};
ghost use Rattle.keep_desk.specs.Crew.{HasWorked};
ghost use Rattle.keep_operators.specs.Asked.{AreAsked};
ghost use Rattle.keep_operators.specs.Backups.{backup_of};
ghost use Rattle.keep_operators.specs.Crewed.{AllowsJustBackups, IsCrewed};

use keep_chronicle::Opened;
use keep_desk::{Desk, Locked, NotOpened, OpenGate, Operator, Pass, Plans, Work};
use keep_operators::{CrewTally, EachSnapshot, NoCrew, Order, Planner};
use keep_register::{Keeper, Naming};
use std::alloc::{AllocError, Global};
use std::sync::Wait;
use std::sync::ledger::Blank;
use std::thread::Threads;

/// What one operator of a crew is asked for.
type Backup = Work<Planner<EachSnapshot>>;

/// Room for a crew. It is taken before a desk is opened, so that nothing is wanting once operators have passes.
#[derive(Drop)]
struct Room<B: Naming> {
    operators: Vec<Operator<B, Planner<EachSnapshot>>>,
    passes: Vec<Pass<B>>,
}

/// Opens a desk of this name over what is kept, has operators do these works there, each in a thread of its own, and hands
/// back what is kept.
///
/// Where there is no memory for that, or no place for one of them, nobody works, and it is handed back as it was.
pub fn crew_at_desk<B, R, K>(
    rt: &R,
    keeper: K,
    opened: Opened,
    blank: Blank,
    works: Vec<Backup>,
    order: Order<'_>,
) -> (K, Result<CrewTally, NoCrew>)
where
    B: Naming + Send + Sync,
    R: Wait + Threads + Copy + Send + Sync,
    K: Keeper,
    requires history { opened.sight.book ≡ B.book }
    requires opening { K.ledger keeper ≡ B.opening }
    requires hooks { K.hooks keeper ≡ B.hooks }
    requires sums { AreSums (K.ledger keeper).events (K.hooks keeper).watches (K.tallies keeper) }
    requires counts { (blank.name ≡ B.name) × (blank.parts ≡ B.parts) × (blank.parts ≡ order.size) }
    requires size { (1 ≤ order.size) × (order.size ≤ 8) × (length works.items ≡ order.size) }
    requires asked { AreAsked (settings_view order.settings) (backup_of order.time.now) works.items }
    requires allows { AllowsJustBackups B.allows (settings_view order.settings) order.time.now order.size B.opening }
    ensures crewed { IfOk result.1 (λ tally. IsCrewed (K.hooks keeper).vetoes (settings_view order.entry.settings)
        order.entry.time.now order.entry.size (K.ledger keeper) (K.ledger result.0) tally.accepted tally.length) }
    ensures handed { IfErr result.1 (λ _. result.0 ≡ keeper) }
    ensures hooks { K.hooks result.0 ≡ K.hooks keeper }
    ensures sums { AreSums (K.ledger result.0).events (K.hooks result.0).watches (K.tallies result.0) }
{
    let before = keeper.history().length();
    let size = order.size as usize;
    let Ok(room) = room_of::<B>(order.alloc, size) else {
        return (keeper, Err(NoCrew::Memory));
    };
    match Desk::<B, Locked<B, R, K>>::open(order.alloc, *rt, keeper, opened, blank, size) {
        Ok((desk, passes)) => {
            let operators = operators_of(passes, works, room.operators);
            let worked = set_to_work(rt, &desk, operators);
            let (keeper, tally) = close_after(desk, worked, room.passes, before);
            (keeper, Ok(tally))
        }
        Err(refusal) => {
            let (keeper, why) = unopened(refusal);
            (keeper, Err(why))
        }
    }
}

/// What is handed back where no desk is opened, and why nobody works then.
fn unopened<K>(refusal: NotOpened<K>) -> (K, NoCrew)
    ensures handed { result.0 ≡ keeper_of refusal }
    ensures memory { (keeper : K) → refusal ≡ NotOpened.Memory keeper → result.1 ≡ NoCrew.Memory }
    ensures place { (keeper : K) → refusal ≡ NotOpened.NoPass keeper → result.1 ≡ NoCrew.NoPass }
{
    match refusal {
        NotOpened::Memory(keeper) => (keeper, NoCrew::Memory),
        NotOpened::NoPass(keeper) => (keeper, NoCrew::NoPass),
    }
}

fn room_of<B: Naming>(alloc: Global, size: usize) -> Result<Room<B>, AllocError>
    ensures operators { IfOk result (λ room. (room.operators.items ≡ []) × (size ≤ vec_capacity room.operators)) }
    ensures passes { IfOk result (λ room. (room.passes.items ≡ []) × (size ≤ vec_capacity room.passes)) }
{
    let operators = Vec::with_capacity(alloc, size)?;
    let passes = Vec::with_capacity(alloc, size)?;
    Ok(Room { operators, passes })
}

/// Each operator gets the pass and the work of its place, in a list that has room for them.
fn operators_of<B: Naming>(
    passes: Vec<Pass<B>>,
    works: Vec<Backup>,
    room: Vec<Operator<B, Planner<EachSnapshot>>>,
) -> Vec<Operator<B, Planner<EachSnapshot>>>
    requires none { room.items ≡ [] }
    requires room { vec_len passes ≤ vec_capacity room }
    ensures { result.items
        ≡ map (λ given. record { pass = given.0; work = given.1; answer = None }) (zip passes.items works.items) }
{
    let mut operators = room;
    for (pass, work) in passes.into_iter().zip(works) {
        operators.push_reserved(Operator {
            pass,
            work,
            answer: None,
        });
    }
    operators
}

/// Has each operator do its work, in a thread of its own, and waits for all of them.
fn set_to_work<B, R, K, P>(
    rt: &R,
    desk: &Desk<B, Locked<B, R, K>>,
    operators: Vec<Operator<B, P>>,
) -> Vec<Operator<B, P>>
where
    B: Naming + Send + Sync,
    R: Wait + Threads + Copy + Send + Sync,
    K: Keeper,
    P: Plans,
    requires { (i : ℕ) (d : _) → i < length operators.items
        → AllowsWork B.allows B.opening P.wanted (slice_index_or operators.items i d).work }
    ensures all { length result.items ≡ length operators.items }
    ensures worked { (i : ℕ) (d : _) → i < length operators.items → HasWorked B.hooks.vetoes B.opening P.wanted
        (slice_index_or operators.items i d) (slice_index_or result.items i d) }
{
    let mut operators = operators;
    desk.run_crew(rt, operators.as_mut_slice(), &OpenGate);
    operators
}

/// Closes a desk with the passes of those who worked there, where the last event had this number when it was opened.
fn close_after<B, R, K>(
    desk: Desk<B, Locked<B, R, K>>,
    worked: Vec<Operator<B, Planner<EachSnapshot>>>,
    room: Vec<Pass<B>>,
    before: u64,
) -> (K, CrewTally)
where
    B: Naming,
    R: Wait + Drop,
    K: Keeper,
    requires none { room.items ≡ [] }
    requires room { vec_len worked ≤ vec_capacity room }
    requires before { before ≡ length_of B.opening.events }
    ensures closed { IsClosed B.allows B.hooks.vetoes B.opening B.parts
        (map (λ operator. operator.pass) worked.items) (K.ledger result.0) }
    ensures length { result.1.length ≡ length_of (K.ledger result.0).events }
    ensures accepted { result.1.accepted ≡ result.1.length - before }
    ensures hooks { K.hooks result.0 ≡ B.hooks }
    ensures sums { AreSums (K.ledger result.0).events (K.hooks result.0).watches (K.tallies result.0) }
{
    let keeper = desk.close(passes_of(worked, room));
    let length = keeper.history().length();
    let accepted = length - before;
    (keeper, CrewTally { accepted, length })
}

/// The passes of the operators, in a list that has room for them.
fn passes_of<B: Naming>(
    operators: Vec<Operator<B, Planner<EachSnapshot>>>,
    room: Vec<Pass<B>>,
) -> Vec<Pass<B>>
    requires none { room.items ≡ [] }
    requires room { vec_len operators ≤ vec_capacity room }
    ensures { result.items ≡ map (λ operator. operator.pass) operators.items }
{
    let mut passes = room;
    for operator in operators {
        passes.push_reserved(operator.pass);
    }
    passes
}
