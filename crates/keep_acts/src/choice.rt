ghost use Rattle.std.specs.Prelude.{◌≡◌, IfErr};
ghost use Rattle.keep_acts.specs.Shown.{shown_by};
ghost use Rattle.keep_book.specs.Armed.{HasSums, ledger_of};
ghost use Rattle.keep_jobs.specs.Job as job;
ghost use Rattle.keep_jobs.specs.Job.{job_change, settings_view, task_view};
ghost use Rattle.keep_acts.specs.Changing.{Changes};
ghost use Rattle.keep_acts.specs.Choosing.{ChangesChosen, choice_view};
ghost use Rattle.keep_acts.specs.Choosing as chosen;
ghost use Rattle.keep_plan.specs.Needs.{needs_view};

use crate::changing::change;
use crate::not_done::NotDone;
use crate::outcome::Outcome;
use keep_book::Book;
use keep_jobs::{Job, Settings, Task};
use keep_names::Id;
use keep_plan::{AskFacts, Filter, Needs, Pick, meets};
use keep_shelf::Shelf;
use keep_snap::SnapFacts;
use std::alloc::Global;

/// Which snapshots a command is about.
#[derive(Drop)]
pub enum Choice {
    /// Each.
    All,
    /// That of this name.
    Named(Id),
    /// Those that meet all of these.
    Meeting(Needs),
}

/// `change`, of the job that does the task to the snapshots that are chosen.
pub fn change_chosen<S: Shelf>(
    alloc: Global,
    book: &mut Book<S>,
    settings: Settings,
    choice: Choice,
    task: Task,
    is_dry: bool,
) -> Result<Outcome, NotDone>
    requires { HasSums book.old }
    ensures changes { ChangesChosen book.old (settings_view settings) (choice_view choice) (task_view task) is_dry result
        book.new }
    ensures refused { IfErr result (λ cause. ledger_of book.new ≡ ledger_of book.old) }
    ensures sums { HasSums book.new }
{
    match choice {
        Choice::All => change_all(alloc, book, settings, task, is_dry),
        Choice::Named(name) => change_named(alloc, book, settings, name, task, is_dry),
        Choice::Meeting(needs) => change_meeting(alloc, book, settings, needs, task, is_dry),
    }
}

/// `change`, of the job that does the task to each snapshot.
fn change_all<S: Shelf>(
    alloc: Global,
    book: &mut Book<S>,
    settings: Settings,
    task: Task,
    is_dry: bool,
) -> Result<Outcome, NotDone>
    requires { HasSums book.old }
    ensures changes { ChangesChosen book.old (settings_view settings) chosen.All (task_view task) is_dry result book.new }
    ensures refused { IfErr result (λ cause. ledger_of book.new ≡ ledger_of book.old) }
    ensures sums { HasSums book.new }
{
    let ask: AskFacts = Box::new(alloc, |_: &SnapFacts| true)?;
    let filter = Filter::new(String::new(alloc), Pick::Any, ask);
    change_by(alloc, book, settings, filter, task, is_dry)
}

/// `change`, of the job that does the task to the snapshot of this name.
fn change_named<S: Shelf>(
    alloc: Global,
    book: &mut Book<S>,
    settings: Settings,
    name: Id,
    task: Task,
    is_dry: bool,
) -> Result<Outcome, NotDone>
    requires { HasSums book.old }
    ensures changes { ChangesChosen book.old (settings_view settings) (chosen.Named name) (task_view task) is_dry result
        book.new }
    ensures refused { IfErr result (λ cause. ledger_of book.new ≡ ledger_of book.old) }
    ensures sums { HasSums book.new }
{
    let ask: AskFacts = Box::new(alloc, move |facts: &SnapFacts| facts.name == name)?;
    let filter = Filter::new(String::new(alloc), Pick::Named(name), ask);
    change_by(alloc, book, settings, filter, task, is_dry)
}

/// `change`, of the job that does the task to the snapshots that meet all of these needs.
fn change_meeting<S: Shelf>(
    alloc: Global,
    book: &mut Book<S>,
    settings: Settings,
    needs: Needs,
    task: Task,
    is_dry: bool,
) -> Result<Outcome, NotDone>
    requires { HasSums book.old }
    ensures changes { ChangesChosen book.old (settings_view settings) (chosen.Meeting (needs_view needs)) (task_view task)
        is_dry result book.new }
    ensures refused { IfErr result (λ cause. ledger_of book.new ≡ ledger_of book.old) }
    ensures sums { HasSums book.new }
{
    let same = needs.copied()?;
    let rule = Pick::Meeting(same);
    let ask: AskFacts = Box::new(alloc, move |facts: &SnapFacts| meets(facts, &needs))?;
    let filter = Filter::new(String::new(alloc), rule, ask);
    change_by(alloc, book, settings, filter, task, is_dry)
}

/// `change`, of the job that does the task to the snapshots that the filter takes.
fn change_by<S: Shelf>(
    alloc: Global,
    book: &mut Book<S>,
    settings: Settings,
    filter: Filter,
    task: Task,
    is_dry: bool,
) -> Result<Outcome, NotDone>
    requires { HasSums book.old }
    ensures changes { let due = job_change (shown_by (ledger_of book.old)) (settings_view settings)
        (job.Filtered filter.rule (task_view task)) in Changes book.old due is_dry result book.new }
    ensures refused { IfErr result (λ cause. ledger_of book.new ≡ ledger_of book.old) }
    ensures sums { HasSums book.new }
{
    let job = Job::Filtered { filter, task };
    change(alloc, book, settings, &job, is_dry)
}
