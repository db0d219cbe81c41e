ghost use Rattle.keep_register.specs.Allowed.{AllowsAll};

use crate::adding::{Adding, Idle};
use crate::desks::{Scene, play};
use crate::gates::{AllTogether, LastFirst, Signals, Together};
use keep_book::Book;
use keep_desk::{Desk, Gate, Locked, NotTold, Operator, Pass, Work};
use keep_plan::PlanError;
use keep_register::{Keeper, Naming};
use keep_shelf::MemoryShelf;
use std::alloc::{AllocError, Global};
use std::process::Abort;
use std::sync::Wait;
use std::test::Fail;
use std::thread::Threads;
use std::time::Clock;

/// Two operators in threads add `a` and `b`, and neither begins before both have come. Either may be told first.
pub fn both_at_once<
    N: Naming + Send + Sync,
    R: Abort + Wait + Threads + Clock + Send + Sync + Drop,
    K: Keeper,
>(
    rt: &R,
    alloc: Global,
    desk: &Desk<N, Locked<N, R, K>>,
    passes: Vec<Pass<N>>,
) -> Result<Vec<Pass<N>>, Fail>
    requires { AllowsAll N.allows }
{
    let gate = Together(Signals::new(rt));
    let (passes, numbers) = two_add(rt, alloc, desk, passes, &gate)?;
    assert_eq!(rt; gate.0.given_up(), 0);
    assert!(rt; numbers.as_slice() == [1, 2].as_slice() || numbers.as_slice() == [2, 1].as_slice());
    Ok(passes)
}

/// Two operators in threads add `a` and `b`, and the first doesn't begin before the second is done.
pub fn last_first<
    N: Naming + Send + Sync,
    R: Abort + Wait + Threads + Clock + Send + Sync + Drop,
    K: Keeper,
>(
    rt: &R,
    alloc: Global,
    desk: &Desk<N, Locked<N, R, K>>,
    passes: Vec<Pass<N>>,
) -> Result<Vec<Pass<N>>, Fail>
    requires { AllowsAll N.allows }
{
    let gate = LastFirst(Signals::new(rt));
    let (passes, numbers) = two_add(rt, alloc, desk, passes, &gate)?;
    assert_eq!(rt; gate.0.given_up(), 0);
    assert_eq!(rt; numbers.as_slice(), [2, 1].as_slice());
    Ok(passes)
}

/// As many operators in threads as there are passes find nothing to do, and none begins before all have come.
pub fn all_at_once<
    N: Naming + Send + Sync,
    R: Abort + Wait + Threads + Clock + Send + Sync + Drop,
    K: Keeper,
>(
    rt: &R,
    alloc: Global,
    desk: &Desk<N, Locked<N, R, K>>,
    passes: Vec<Pass<N>>,
) -> Result<Vec<Pass<N>>, Fail>
    requires { AllowsAll N.allows }
{
    let gate = AllTogether::new(rt, passes.len() as u64);
    let mut operators = Vec::new(alloc);
    for pass in passes {
        operators.push(Operator {
            pass,
            work: Work::Plan(Idle),
            answer: None,
        })?;
    }
    desk.run_crew(rt, &mut operators, &gate);
    assert_eq!(rt; gate.given_up(), 0);
    let mut passes = Vec::new(alloc);
    for operator in operators {
        let Operator { pass, answer, .. } = operator;
        assert!(rt;
            matches!(
                answer,
                Some(Err(NotTold::Unplanned(PlanError::NothingToDo)))
            )
        );
        passes.push(pass)?;
    }
    Ok(passes)
}

/// Has them add, each when the gate lets it. Answers the numbers of the changes that they were told, in their order.
fn two_add<
    N: Naming + Send + Sync,
    R: Wait + Threads + Send + Sync + Drop,
    K: Keeper,
    G: Gate + Sync,
>(
    rt: &R,
    alloc: Global,
    desk: &Desk<N, Locked<N, R, K>>,
    passes: Vec<Pass<N>>,
    gate: &G,
) -> Result<(Vec<Pass<N>>, Vec<u64>), AllocError>
    requires { AllowsAll N.allows }
{
    let mut operators = operators_of(alloc, passes)?;
    desk.run_crew(rt, &mut operators, gate);
    answers_of(alloc, operators)
}

/// An operator for each pass: the first adds `a`, the next one `b`.
fn operators_of<N: Naming>(
    alloc: Global,
    passes: Vec<Pass<N>>,
) -> Result<Vec<Operator<N, Adding>>, AllocError> {
    let mut operators = Vec::new(alloc);
    let mut byte = b'a';
    for pass in passes {
        let work = Work::Plan(Adding { alloc, byte });
        operators.push(Operator {
            pass,
            work,
            answer: None,
        })?;
        byte = b'b';
    }
    Ok(operators)
}

/// The passes, and the number of the change that each operator was told; 0 where it wasn't.
fn answers_of<N: Naming>(
    alloc: Global,
    operators: Vec<Operator<N, Adding>>,
) -> Result<(Vec<Pass<N>>, Vec<u64>), AllocError> {
    let mut passes = Vec::new(alloc);
    let mut numbers = Vec::new(alloc);
    for operator in operators {
        let Operator { pass, answer, .. } = operator;
        passes.push(pass)?;
        numbers.push(match answer {
            Some(Ok(told)) if told.at == told.number => told.number,
            _ => 0,
        })?;
    }
    Ok((passes, numbers))
}

#[test]
fn eight_operators_are_at_work_at_once(rt: HostRuntime) -> Result<(), Fail> {
    let alloc = rt.alloc();
    let book = Book::open(alloc, MemoryShelf::new(alloc))?;
    let book = play(rt, alloc, book, Scene::AllAtOnce)?;
    assert_eq!(rt; book.ledger().history().length(), 0);
    Ok(())
}

#[test]
fn operators_work_side_by_side(rt: HostRuntime) -> Result<(), Fail> {
    let alloc = rt.alloc();
    for scene in [Scene::BothAtOnce, Scene::LastFirst] {
        let book = Book::open(alloc, MemoryShelf::new(alloc))?;
        let book = play(rt, alloc, book, scene)?;
        assert_eq!(rt; book.ledger().history().length(), 2);
    }
    Ok(())
}
