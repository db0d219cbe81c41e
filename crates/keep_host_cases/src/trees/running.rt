ghost use Rattle.std.specs.Prelude.{IfOk, string_bytes};
ghost use Rattle.keep_files.specs.Stands.{IsClosed};
ghost use Rattle.keep_keyed_folder.specs.Tmp.{IsTmp};
ghost use Rattle.keep_memory_files.specs.Failing.{inner_of};
ghost use Rattle.keep_memory_files.specs.Memory.{seen_in};

use crate::trees::act::{Act, perform};
use crate::trees::act_failures::Plan;
use crate::trees::logged_tree::Logged;
use crate::trees::shown_tree::{show_keys, show_tree, word_of};
use crate::trees::tree_case::Case;
use crate::trees::tree_stop::Stop;
use keep_keyed_folder::{KeyedFolder, read_keys};
use keep_memory_files::{FailingTree, MemoryTree};
use std::alloc::Global;
use std::fmt::Write;

/// The tree that a case is run over.
type CaseTree = Logged<FailingTree<MemoryTree>>;

/// What was called in a run, and what is told of it.
#[derive(Drop)]
struct Outcome {
    lines: String,
    calls: u64,
    told: String,
}

/// Writes what the act is answered, and what where each of its calls fails.
pub(crate) fn answer(case: &Case, act: &Act, out: &mut String) -> Result<(), Stop> {
    let Outcome { lines, calls, told } = run(case, act, Plan::Once(0))?;
    writeln!(out, "{lines}-> {told}")?;
    for number in 0..calls {
        let number = number + 1;
        for plan in [Plan::Once(number), Plan::Onward(number), Plan::Done(number)] {
            let Outcome { calls, told, .. } = run(case, act, plan)?;
            writeln!(out, "{plan}: {calls} calls; {told}")?;
        }
    }
    Ok(())
}

/// One run of the act, in which calls fail by the plan.
fn run(case: &Case, act: &Act, plan: Plan) -> Result<Outcome, Stop> {
    match act {
        Act::Walk => run_walk(case, plan),
        _ => run_act(case, act, plan),
    }
}

fn run_walk(case: &Case, plan: Plan) -> Result<Outcome, Stop> {
    let alloc = case.alloc;
    let mut tree = Logged::new(alloc, plan.over(case.tree()?));
    let mut told = String::new(alloc);
    match read_keys(alloc, &mut tree) {
        Ok(found) => show_keys(alloc, found, &mut told)?,
        Err(error) => told.push_str(word_of(error))?,
    }
    end(alloc, tree, told)
}

fn run_act(case: &Case, act: &Act, plan: Plan) -> Result<Outcome, Stop> {
    let alloc = case.alloc;
    let mut tree = case.tree()?;
    let found = read_keys(alloc, &mut tree)?;
    let tree = Logged::new(alloc, plan.over(tree));
    let mut folder = KeyedFolder::new(tree, under_way(alloc)?);
    let answered = perform(alloc, &mut folder, &found, act)?;
    let answered = match answered {
        Ok(()) => "Ok",
        Err(error) => word_of(error),
    };
    let sound = if folder.is_sound() {
        "sound"
    } else {
        "unsound"
    };
    let told = format!(in alloc; "{answered} {sound}")?;
    end(alloc, folder.into_tree(), told)
}

/// What a file is called that is under way.
fn under_way(alloc: Global) -> Result<String, Stop>
    ensures { IfOk result (λ name. IsTmp (string_bytes name)) }
{
    Ok(String::from_str(alloc, "tmp-1")?)
}

/// What is there when the tree is opened anew after the run.
fn end(alloc: Global, tree: CaseTree, told: String) -> Result<Outcome, Stop>
    requires { IsClosed (seen_in (inner_of tree.inner)).stands }
{
    let mut told = told;
    let lines = String::from_str(alloc, tree.lines()?)?;
    let calls = tree.calls();
    let mut tree = tree.inner.into_inner();
    told.push_str("; ")?;
    match read_keys(alloc, &mut tree) {
        Ok(found) => show_keys(alloc, found, &mut told)?,
        Err(_) => told.push_str("refused")?,
    }
    told.push_str("; stands")?;
    show_tree(alloc, tree, &mut told)?;
    Ok(Outcome { lines, calls, told })
}
