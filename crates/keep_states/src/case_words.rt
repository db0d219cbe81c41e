use crate::stop::Stop;
use keep_change::PackMark;
use keep_names::{BlobId, BlobType, FileName, Id, Kind, decode_hex, id_of, parse_id};
use keep_repo::{Facet, Mark};
use std::alloc::Global;

/// The first word of the text, and what follows it.
pub(crate) fn pair(text: &str) -> Result<(&str, &str), Stop> {
    text.split_once(' ').ok_or(Stop::NoLine)
}

pub(crate) fn number(word: &str) -> Result<u64, Stop> {
    word.parse().ok().ok_or(Stop::NoLine)
}

pub(crate) fn short_number(word: &str) -> Result<u32, Stop> {
    word.parse().ok().ok_or(Stop::NoLine)
}

pub(crate) fn moment(word: &str) -> Result<i64, Stop> {
    word.parse().ok().ok_or(Stop::NoLine)
}

/// The byte of two digits.
pub(crate) fn byte(word: &str) -> Result<u8, Stop> {
    u8::from_str_radix(word, 16).ok().ok_or(Stop::NoLine)
}

/// The id of 64 digits, or of two that stand there 32 times.
pub(crate) fn id(word: &str) -> Result<Id, Stop> {
    if word.len() == 2 {
        return Ok(Id([byte(word)?; 32]));
    }
    parse_id(word).ok().ok_or(Stop::NoLine)
}

pub(crate) fn kind(word: &str) -> Result<Kind, Stop> {
    match word {
        "pack" => Ok(Kind::Pack),
        "index" => Ok(Kind::Index),
        "snapshot" => Ok(Kind::Snapshot),
        _ => Err(Stop::NoLine),
    }
}

/// A file by its kind and its id.
pub(crate) fn name(text: &str) -> Result<FileName, Stop> {
    let (word, rest) = pair(text)?;
    let kind = kind(word)?;
    let id = id(rest)?;
    Ok(FileName { kind, id })
}

/// A pack and the moment of its mark.
pub(crate) fn pack_mark(text: &str) -> Result<PackMark, Stop> {
    let (word, rest) = pair(text)?;
    let pack = id(word)?;
    let moment = moment(rest)?;
    Ok(PackMark {
        pack,
        mark: Mark { moment },
    })
}

/// A file by its name, or a mark by its pack.
pub(crate) fn facet(text: &str) -> Result<Facet, Stop> {
    match text.strip_prefix("mark ") {
        Some(pack) => Ok(Facet::Mark(id(pack)?)),
        None => Ok(Facet::File(name(text)?)),
    }
}

pub(crate) fn blob_type(word: &str) -> Result<BlobType, Stop> {
    match word {
        "data" => Ok(BlobType::Content),
        "tree" => Ok(BlobType::Tree),
        _ => Err(Stop::NoLine),
    }
}

/// A blob by its type and its id.
pub(crate) fn blob(text: &str) -> Result<BlobId, Stop> {
    let (word, rest) = pair(text)?;
    let blob_type = blob_type(word)?;
    let id = id(rest)?;
    Ok(BlobId { id, blob_type })
}

/// Bytes as they stand, or in hex behind `x `.
pub(crate) fn bytes(alloc: Global, text: &str) -> Result<Vec<u8>, Stop> {
    match text.strip_prefix("x ") {
        Some(hex) => decode_hex(alloc, hex)?.ok_or(Stop::NoLine),
        None => Ok(Vec::from_slice(alloc, text.as_bytes())?),
    }
}

/// A file by its kind, its id or the word `own`, and its bytes.
pub(crate) fn file(alloc: Global, text: &str) -> Result<(FileName, Vec<u8>), Stop> {
    let (word, rest) = pair(text)?;
    let kind = kind(word)?;
    let (word, rest) = pair(rest)?;
    let bytes = bytes(alloc, rest)?;
    let id = match word {
        "own" => id_of(&bytes),
        _ => id(word)?,
    };
    Ok((FileName { kind, id }, bytes))
}
