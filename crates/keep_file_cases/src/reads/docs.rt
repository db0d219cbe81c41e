use crate::case_words::text_of;
use crate::no_answer::No;
use keep_docs::{DocError, read_config, read_doc, write_doc};
use keep_index::IndexError;
use keep_pack::PackError;
use keep_snap::SnapError;
use std::alloc::Global;

pub(crate) fn doc(alloc: Global, bytes: &[u8]) -> Result<String, No> {
    let value = read_doc(alloc, bytes)?;
    let written = write_doc(alloc, &value)?;
    text_of(alloc, &written)
}

pub(crate) fn config(alloc: Global, bytes: &[u8]) -> Result<String, No> {
    let config = read_config(alloc, bytes)?;
    let text = format!(in alloc; "{} {}", config.id, config.chunker_polynomial)?;
    Ok(text)
}

/// Want of memory, as the readers of a kind of file tell it.
pub(crate) fn memory(kind: &str) -> Result<String, No> {
    Err(match kind {
        "doc" => No::Doc(DocError::Memory),
        "index" => No::Index(IndexError::Doc(DocError::Memory)),
        "snapshot" => No::Snap(SnapError::Doc(DocError::Memory)),
        "pack" => No::Pack(PackError::Memory),
        _ => No::Case,
    })
}
