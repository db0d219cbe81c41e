use crate::case_words;
use crate::states::placing::type_word;
use crate::stop::Stop;
use keep_catalog::{Catalog, ReachError};
use keep_names::Id;
use keep_reach::Reached;
use keep_replies::Refused;
use std::alloc::{AllocError, Global};
use std::fmt::Write;

/// Answers what snapshots reach, if the line asks for it.
pub(crate) fn answer(
    alloc: Global,
    catalog: &Catalog,
    verb: &str,
    rest: &str,
    out: &mut String,
) -> Result<bool, Stop> {
    match verb {
        "reach" => count(
            keep_reach::reach(alloc, catalog, case_words::id(rest)?),
            out,
        )?,
        "reach-all" => count(
            keep_reach::reach_all(alloc, catalog, &ids(alloc, rest)?),
            out,
        )?,
        "used" => used(keep_reach::used(alloc, catalog), out)?,
        "broken" => broken(alloc, catalog, out)?,
        _ => return Ok(false),
    }
    Ok(true)
}

fn ids(alloc: Global, text: &str) -> Result<Vec<Id>, Stop> {
    let mut ids = Vec::new(alloc);
    for word in text.split(' ') {
        ids.push(case_words::id(word)?)?;
    }
    Ok(ids)
}

/// Writes how many blobs are reached, or why that can't be told.
fn count(reached: Result<Reached, ReachError>, out: &mut String) -> Result<(), AllocError> {
    match reached {
        Ok(reached) => writeln!(out, "reached {}", reached.len()),
        Err(refusal) => writeln!(out, "{}", Refused(refusal)),
    }
}

/// Writes each blob that is used, with how high it stands, its place, and the index that lists it there.
fn used(used: Result<Reached, ReachError>, out: &mut String) -> Result<(), AllocError> {
    let used = match used {
        Ok(used) => used,
        Err(refusal) => return writeln!(out, "{}", Refused(refusal)),
    };
    for (blob, found) in &used {
        let (word, id) = (type_word(blob.blob_type), blob.id);
        let (height, spot, index) = (found.height, found.spot, found.index);
        let (pack, offset, length) = (spot.pack, spot.offset, spot.length);
        writeln!(
            out,
            "used {word} {id} {height} {pack} {offset} {length} {index}"
        )?;
    }
    writeln!(out, "used {}", used.len())
}

/// Writes the snapshots that don't reach all that they name.
fn broken(alloc: Global, catalog: &Catalog, out: &mut String) -> Result<(), AllocError> {
    let broken = keep_reach::broken(alloc, catalog)?;
    for (snapshot, refusal) in &broken {
        writeln!(out, "broken {snapshot} {refusal}")?;
    }
    writeln!(out, "broken {}", broken.len())
}
