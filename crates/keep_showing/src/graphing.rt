use crate::shown_history::set_offsets;
use keep_book::Book;
use keep_change::What;
use keep_events::{EventRow, events_of};
use keep_graph::{Link, graph_dot, graph_text, leaning_on};
use keep_journal::Status;
use keep_rows::number_or_null;
use keep_run::{Failure, Run, refused};
use keep_shelf::Shelf;
use serde_json::{Value, json};
use std::collections::{BTreeMap, BTreeSet};

/// `keep graph`: which changes in force lean on which, of all that aren't final or of one and all that lean on it.
pub fn graph<S: Shelf>(
    run: &Run<'_>,
    book: &Book<S>,
    change: Option<u64>,
    is_dot: bool,
) -> Result<(), Failure> {
    let chosen = match change {
        Some(number) => Some(taken_with(run, book, number)?),
        None => None,
    };
    let graph = graph_of(run, book, &chosen)?;
    if run.is_json {
        return run.print_value(&value_of(run, &graph)?);
    }
    let text = if is_dot {
        graph_dot(run.alloc, &graph)?
    } else {
        graph_text(run.alloc, &graph)?
    };
    run.print(text.as_bytes())
}

/// The change and all that lean on it.
fn taken_with<S: Shelf>(
    run: &Run<'_>,
    book: &Book<S>,
    number: u64,
) -> Result<BTreeSet<u64>, Failure> {
    let numbers = match book.taken_with(number) {
        Ok(numbers) => numbers,
        Err(refusal) => return Err(refused(run, number, &refusal)),
    };
    let mut set = BTreeSet::new(run.alloc);
    for number in &numbers {
        set.insert(*number)?;
    }
    Ok(set)
}

/// The changes that are chosen, where some are, of those in force that aren't final.
fn graph_of<S: Shelf>(
    run: &Run<'_>,
    book: &Book<S>,
    chosen: &Option<BTreeSet<u64>>,
) -> Result<BTreeMap<u64, Link>, Failure> {
    let ledger = book.ledger();
    let history = ledger.history();
    let touch = ledger.touch();
    let mut rows = events_of(run.alloc, history, None)?;
    let mut graph = BTreeMap::new(run.alloc);
    for row in rows.iter_mut() {
        if is_shown(row, chosen) {
            set_offsets(run, row);
            let label = row.text(run.alloc)?;
            let leaning = leaning_on(run.alloc, history, touch, row.change)?;
            let _before = graph.insert(row.change, Link { label, leaning })?;
        }
    }
    Ok(graph)
}

/// Whether the event is the commit of a change that is in force and chosen.
fn is_shown(row: &EventRow, chosen: &Option<BTreeSet<u64>>) -> bool {
    let is_kept = matches!((row.what, row.status), (What::Commit, Status::InForce));
    match chosen {
        Some(numbers) => is_kept && numbers.contains(&row.change),
        None => is_kept,
    }
}

/// The graph as a list of objects.
fn value_of(run: &Run<'_>, graph: &BTreeMap<u64, Link>) -> Result<Value, Failure> {
    let mut values = Vec::new(run.alloc);
    for (number, link) in graph {
        let change = *number;
        let what = link.label.as_str();
        let leaning = numbers_value(run, &link.leaning)?;
        values.push(json!(in run.alloc; {
            "change": change,
            "leaned_on_by": leaning,
            "what": what
        })?)?;
    }
    Ok(Value::Array(values))
}

fn numbers_value(run: &Run<'_>, numbers: &BTreeSet<u64>) -> Result<Value, Failure> {
    let mut values = Vec::new(run.alloc);
    for number in numbers {
        values.push(number_or_null(Some(*number)))?;
    }
    Ok(Value::Array(values))
}
