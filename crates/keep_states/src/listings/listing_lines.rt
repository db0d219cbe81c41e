use crate::case_words;
use crate::listings::state::State;
use crate::stop::Stop;
use keep_names::Id;
use keep_nodes::{
    Difference, Lengths, PathNode, differences, matched, node_at, nodes_below, nodes_of, piece,
    whole_nodes_of,
};
use keep_patterns::parse_pattern;
use keep_read::RestoreError;
use keep_tree::NodeKind;
use std::alloc::AllocError;
use std::fmt::Write;

/// Answers what is asked of snapshots.
pub(crate) fn answer(state: &State, verb: &str, rest: &str, out: &mut String) -> Result<(), Stop> {
    match verb {
        "nodes" => show_all(
            nodes_of(state.alloc, &state.view(), case_words::id(rest)?),
            out,
        )?,
        "whole" => show_all(
            whole_nodes_of(state.alloc, &state.view(), case_words::id(rest)?),
            out,
        )?,
        "piece" => show_piece(state, case_words::id(rest)?, out)?,
        "at" => at(state, rest, out)?,
        "below" => below(state, rest, out)?,
        "find" => find(state, rest, out)?,
        "tally" => tally(state, rest, out)?,
        "diff" => diff(state, rest, out)?,
        _ => return Err(Stop::NoLine),
    }
    Ok(())
}

/// Writes the nodes, or why they can't be told.
fn show_all(
    nodes: Result<Vec<PathNode>, RestoreError>,
    out: &mut String,
) -> Result<(), AllocError> {
    match nodes {
        Ok(entries) => {
            for entry in &entries {
                show("node", entry, out)?;
            }
            writeln!(out, "nodes {}", entries.len())
        }
        Err(refusal) => writeln!(out, "refused {refusal}"),
    }
}

/// Writes a node behind this word.
fn show(word: &str, entry: &PathNode, out: &mut String) -> Result<(), AllocError> {
    let members = entry.node.others.len();
    let path = entry.path.as_str();
    match &entry.node.kind {
        NodeKind::Dir { subtree: _ } => writeln!(out, "{word} folder {members} {path}"),
        NodeKind::File { content } => writeln!(
            out,
            "{word} file {} {members} {path}",
            content.len()
        ),
        NodeKind::Other { type_name } => writeln!(out, "{word} {type_name} {members} {path}"),
    }
}

/// Writes how many bytes the piece has, or why it can't be had.
fn show_piece(state: &State, id: Id, out: &mut String) -> Result<(), AllocError> {
    let catalog = state.view().read_past(state.alloc)?;
    match piece(state.alloc, &catalog, id) {
        Ok(bytes) => writeln!(out, "piece {}", bytes.len()),
        Err(refusal) => writeln!(out, "refused {refusal}"),
    }
}

/// The nodes of the snapshot of this id.
fn listed(state: &State, id: &str) -> Result<Vec<PathNode>, Stop> {
    nodes_of(state.alloc, &state.view(), case_words::id(id)?).map_err(|_| Stop::NoLine)
}

fn at(state: &State, rest: &str, out: &mut String) -> Result<(), Stop> {
    let (id, path) = case_words::pair(rest)?;
    let entries = listed(state, id)?;
    match node_at(&entries, path) {
        Some(entry) => show("at", entry, out)?,
        None => writeln!(out, "at none")?,
    }
    Ok(())
}

fn below(state: &State, rest: &str, out: &mut String) -> Result<(), Stop> {
    let (id, path) = case_words::pair(rest)?;
    let entries = listed(state, id)?;
    let found = nodes_below(state.alloc, &entries, path)?;
    for entry in &found {
        show("below", entry, out)?;
    }
    writeln!(out, "below {}", found.len())?;
    Ok(())
}

fn find(state: &State, rest: &str, out: &mut String) -> Result<(), Stop> {
    let (id, text) = case_words::pair(rest)?;
    let entries = listed(state, id)?;
    let mut patterns = Vec::new(state.alloc);
    for word in text.split(' ') {
        patterns.push(parse_pattern(state.alloc, word).ok().ok_or(Stop::NoLine)?)?;
    }
    let found = matched(state.alloc, &entries, &patterns)?;
    for entry in &found {
        show("found", entry, out)?;
    }
    writeln!(out, "found {}", found.len())?;
    Ok(())
}

/// Writes the tallies of the snapshots, by the same lengths.
fn tally(state: &State, rest: &str, out: &mut String) -> Result<(), Stop> {
    let catalog = state.view().read_past(state.alloc)?;
    let mut lengths = Lengths::new(state.alloc, &catalog);
    for word in rest.split(' ') {
        let entries = listed(state, word)?;
        let told = lengths.tally(&entries)?;
        let (files, folders, others, bytes) = (told.files, told.folders, told.others, told.bytes);
        writeln!(out, "tally {files} {folders} {others} {bytes}")?;
    }
    Ok(())
}

fn diff(state: &State, rest: &str, out: &mut String) -> Result<(), Stop> {
    let (first, second) = case_words::pair(rest)?;
    let old = listed(state, first)?;
    let new = listed(state, second)?;
    let found = differences(state.alloc, &old, &new)?;
    for difference in &found {
        match difference {
            Difference::Added(entry) => show("added", entry, out)?,
            Difference::Removed(entry) => show("removed", entry, out)?,
            Difference::Changed { old: _, new } => show("changed", new, out)?,
        }
    }
    writeln!(out, "differences {}", found.len())?;
    Ok(())
}
