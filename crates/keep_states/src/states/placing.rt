use crate::case_words;
use crate::states::state::State;
use crate::stop::Stop;
use keep_catalog::{Catalog, CatalogError, ReachError, Spot, Unread};
use keep_lines::print_hex;
use keep_names::{BlobId, BlobType, Id};
use keep_replies::Refused;
use std::alloc::{AllocError, Global};
use std::fmt::Write;

/// Answers where blobs are and what files say, if the line asks for it.
pub(crate) fn answer(
    alloc: Global,
    catalog: &Catalog,
    verb: &str,
    rest: &str,
    out: &mut String,
) -> Result<bool, Stop> {
    match verb {
        "place" => place(catalog, case_words::blob(rest)?, out)?,
        "reuse" => reuse(catalog, case_words::blob(rest)?, out)?,
        "bytes" => bytes(alloc, catalog, spot(rest)?, out)?,
        "headers" => headers(alloc, catalog, out)?,
        "indexes" => indexes(catalog, out)?,
        "wrong" => wrong(alloc, catalog, out)?,
        "nodes" => nodes(alloc, catalog, case_words::id(rest)?, out)?,
        "snaps" => writeln!(out, "snaps {}", catalog.snaps().len())?,
        _ => return Ok(false),
    }
    Ok(true)
}

pub(crate) fn type_word(blob_type: BlobType) -> &'static str {
    match blob_type {
        BlobType::Content => "data",
        BlobType::Tree => "tree",
    }
}

/// Writes whether each file can be read, or else the first that can't.
pub(crate) fn read(state: &State, out: &mut String) -> Result<(), AllocError> {
    match Catalog::of(state.alloc, state.ground.live()) {
        Ok(_) => writeln!(out, "read"),
        Err(CatalogError::Unread(file)) => writeln!(out, "{}", Refused(file)),
        Err(CatalogError::Memory) => Err(AllocError),
    }
}

/// Writes the files that can't be read.
pub(crate) fn show_unread(unread: &[Unread], out: &mut String) -> Result<(), AllocError> {
    for file in unread {
        writeln!(out, "unread {file}")?;
    }
    Ok(())
}

fn place(catalog: &Catalog, blob: BlobId, out: &mut String) -> Result<(), AllocError> {
    let Some(placed) = catalog.place(blob) else {
        return writeln!(out, "place none");
    };
    let (word, id) = (type_word(placed.blob.blob_type), placed.blob.id);
    let Spot {
        pack,
        offset,
        length,
    } = placed.spot;
    writeln!(out, "place {word} {id} {pack} {offset} {length}")
}

fn reuse(catalog: &Catalog, blob: BlobId, out: &mut String) -> Result<(), AllocError> {
    match catalog.reuse(blob) {
        Some((pack, index)) => writeln!(out, "reuse {pack} {index}"),
        None => writeln!(out, "reuse none"),
    }
}

/// A spot by its pack, its offset and its length.
fn spot(text: &str) -> Result<Spot, Stop> {
    let (pack, rest) = case_words::pair(text)?;
    let (offset, length) = case_words::pair(rest)?;
    let pack = case_words::id(pack)?;
    let offset = case_words::number(offset)?;
    let length = case_words::short_number(length)?;
    Ok(Spot {
        pack,
        offset,
        length,
    })
}

fn bytes(alloc: Global, catalog: &Catalog, spot: Spot, out: &mut String) -> Result<(), AllocError> {
    match catalog.bytes_at(spot) {
        Some(bytes) => writeln!(out, "bytes {}", print_hex(alloc, bytes)?),
        None => writeln!(out, "bytes none"),
    }
}

fn headers(alloc: Global, catalog: &Catalog, out: &mut String) -> Result<(), AllocError> {
    for (pack, entries) in &catalog.headers(alloc)? {
        let count = entries.len();
        writeln!(out, "header {pack} {count}")?;
    }
    Ok(())
}

fn indexes(catalog: &Catalog, out: &mut String) -> Result<(), AllocError> {
    for (index, packs) in catalog.indexes() {
        let count = packs.len();
        writeln!(out, "index {index} {count}")?;
    }
    Ok(())
}

fn wrong(alloc: Global, catalog: &Catalog, out: &mut String) -> Result<(), AllocError> {
    for (pack, blob) in &catalog.wrong_blobs(alloc)? {
        let (word, id) = (type_word(blob.blob_type), blob.id);
        writeln!(out, "wrong {pack} {word} {id}")?;
    }
    Ok(())
}

fn nodes(alloc: Global, catalog: &Catalog, tree: Id, out: &mut String) -> Result<(), AllocError> {
    match catalog.nodes(alloc, tree) {
        Ok(nodes) => writeln!(out, "nodes {}", nodes.len()),
        Err(ReachError::Memory) => Err(AllocError),
        Err(refusal) => writeln!(out, "{}", Refused(refusal)),
    }
}
