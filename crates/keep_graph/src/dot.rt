ghost use Rattle.std.specs.Prelude.{◌≡◌, ◌++◌, IfOk, OnOk, string_bytes};
ghost use Rattle.std.specs.List.{flat_map};
ghost use Rattle.std.specs.Str.{chars};
ghost use Rattle.keep_graph.specs.Dot.{dot_text, edge_line, link_lines, quoted_char, quoted_chars, quoted_text};

use crate::link::Link;
use keep_tables::shown;
use std::alloc::{AllocError, Global};
use std::collections::{BTreeMap, BTreeSet};
use std::fmt::Write;

/// The graph in the language of graphviz, with an edge to each change from those that lean on it at once.
pub fn graph_dot(alloc: Global, graph: &BTreeMap<u64, Link>) -> Result<String, AllocError>
    ensures { IfOk result (λ text. string_bytes text ≡ dot_text graph.now) }
{
    let mut text = String::from_str(alloc, "digraph changes {\n")?;
    push_links(alloc, &mut text, graph)?;
    text.push_str("}\n")?;
    Ok(text)
}

fn push_links(
    alloc: Global,
    text: &mut String,
    graph: &BTreeMap<u64, Link>,
) -> Result<(), AllocError>
    ensures { OnOk result (string_bytes text.new
        ≡ string_bytes text.old ++ flat_map link_lines graph.now.entries) }
{
    for (number, link) in graph {
        push_link(alloc, text, *number, link)?;
    }
    Ok(())
}

fn push_link(alloc: Global, text: &mut String, number: u64, link: &Link) -> Result<(), AllocError>
    ensures { OnOk result (string_bytes text.new ≡ string_bytes text.old ++ link_lines (number, link.now)) }
{
    let label = quoted(alloc, link.label.as_str())?;
    write!(text, "  {number} [label=\"{number} ")?;
    text.push_str(label.as_str())?;
    text.push_str("\"];\n")?;
    push_edges(text, number, &link.leaning)
}

fn push_edges(text: &mut String, number: u64, leaning: &BTreeSet<u64>) -> Result<(), AllocError>
    ensures { OnOk result (string_bytes text.new
        ≡ string_bytes text.old ++ flat_map (edge_line number) leaning.now.keys) }
{
    for from in leaning {
        write!(text, "  {from} -> {number};\n")?;
    }
    Ok(())
}

/// The text as it stands between quotes.
fn quoted(alloc: Global, text: &str) -> Result<String, AllocError>
    ensures { IfOk result (λ made. string_bytes made ≡ quoted_text text.now) }
{
    let shown = shown(alloc, text)?;
    quoted_shown(alloc, shown.as_str())
}

fn quoted_shown(alloc: Global, text: &str) -> Result<String, AllocError>
    ensures { IfOk result (λ made. string_bytes made ≡ quoted_chars (chars text.now)) }
{
    let letters: Vec<char> = text.chars().collect(alloc)?;
    quoted_letters(alloc, &letters)
}

fn quoted_letters(alloc: Global, letters: &[char]) -> Result<String, AllocError>
    ensures { IfOk result (λ made. string_bytes made ≡ quoted_chars letters.now) }
{
    let mut made = String::with_capacity(alloc, letters.len())?;
    for letter in letters {
        push_quoted(&mut made, *letter)?;
    }
    Ok(made)
}

fn push_quoted(text: &mut String, letter: char) -> Result<(), AllocError>
    ensures { OnOk result (string_bytes text.new ≡ string_bytes text.old ++ quoted_char letter) }
{
    if letter == '"' || letter == '\\' {
        text.push('\\')?;
    }
    text.push(letter)
}
