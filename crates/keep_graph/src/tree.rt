ghost use Rattle.std.specs.Prelude.{◌≡◌, ◌++◌, IfOk, OnOk, string_bytes};
ghost use Rattle.std.specs.List.{flat_map};
ghost use Rattle.keep_graph.specs.Tree as spec;

use crate::link::Link;
use keep_tables::shown;
use std::alloc::{AllocError, Global};
use std::collections::{BTreeMap, BTreeSet};
use std::fmt::Write;

/// Each change of the graph, by its number, and indented below it those that lean on it at once. Of a change that stands
/// below another one too, only its own line has what leans on it: so there are as many lines as changes and as pairs of
/// which one leans on the other at once.
pub fn graph_text(alloc: Global, graph: &BTreeMap<u64, Link>) -> Result<String, AllocError>
    ensures { IfOk result (λ text. string_bytes text ≡ spec.graph_text graph.now) }
{
    let mut text = String::new(alloc);
    for (number, link) in graph {
        push_branch(alloc, &mut text, graph, *number, link)?;
    }
    Ok(text)
}

fn push_branch(
    alloc: Global,
    text: &mut String,
    graph: &BTreeMap<u64, Link>,
    number: u64,
    link: &Link,
) -> Result<(), AllocError>
    ensures { OnOk result (string_bytes text.new ≡ string_bytes text.old ++ spec.branch graph.now (number, link.now)) }
{
    push_line(alloc, text, "", number, link)?;
    push_below(alloc, text, graph, &link.leaning)
}

fn push_below(
    alloc: Global,
    text: &mut String,
    graph: &BTreeMap<u64, Link>,
    leaning: &BTreeSet<u64>,
) -> Result<(), AllocError>
    ensures { OnOk result (string_bytes text.new
        ≡ string_bytes text.old ++ flat_map (spec.below graph.now) leaning.now.keys) }
{
    for number in leaning {
        if let Some(link) = graph.get(number) {
            push_line(alloc, text, "  ", *number, link)?;
        }
    }
    Ok(())
}

fn push_line(
    alloc: Global,
    text: &mut String,
    indent: &str,
    number: u64,
    link: &Link,
) -> Result<(), AllocError>
    ensures { OnOk result (string_bytes text.new ≡ string_bytes text.old ++ spec.line indent.now number link.now) }
{
    let label = shown(alloc, link.label.as_str())?;
    text.push_str(indent)?;
    write!(text, "{number} ")?;
    text.push_str(label.as_str())?;
    text.push('\n')
}
