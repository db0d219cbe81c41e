use crate::case_words::cut;
use crate::no_answer::No;
use keep_names::{FileName, decode_hex, id_of, parse_id, path_of, print_id};
use std::alloc::Global;

pub(crate) fn digest(alloc: Global, text: &str) -> Result<String, No> {
    Ok(print_id(alloc, id_of(text.as_bytes()))?)
}

pub(crate) fn id(alloc: Global, text: &str) -> Result<String, No> {
    let id = parse_id(text)?;
    Ok(print_id(alloc, id)?)
}

/// The bytes in decimal, with a space before each.
pub(crate) fn hex(alloc: Global, text: &str) -> Result<String, No> {
    let Some(bytes) = decode_hex(alloc, text)? else {
        return Ok(String::from_str(alloc, "none")?);
    };
    let mut told = String::from_str(alloc, "bytes")?;
    for byte in &bytes {
        let number = format!(in alloc; " {byte}")?;
        told.push_str(number.as_str())?;
    }
    Ok(told)
}

/// Where a file lies, and what it is called.
pub(crate) fn file(alloc: Global, text: &str) -> Result<String, No> {
    let (kind, digits) = cut(text);
    let id = parse_id(digits)?;
    let name = match kind {
        "pack" => FileName::pack(id),
        "index" => FileName::index(id),
        "snapshot" => FileName::snapshot(id),
        _ => return Err(No::Case),
    };
    let path = path_of(alloc, name)?;
    Ok(format!(in alloc; "{path} {name}")?)
}
