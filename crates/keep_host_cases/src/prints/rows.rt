use crate::case_words::number_in;
use crate::no_case::No;
use crate::prints::print_texts::shown;
use crate::prints::print_words::{cells, cut, id, signed, some_number};
use keep_rows::{
    Difference, DifferenceRow, FindingRow, NodeRow, Row, SnapshotRow, When, document_of, table_of,
};
use std::alloc::Global;
use std::str;

/// The row as a table and as a document, with their line ends written out.
fn both<R: Row>(alloc: Global, row: &[R]) -> Result<String, No> {
    let table = table_of(alloc, row)?;
    let document = document_of(alloc, row)?;
    let Ok(text) = str::from_utf8(&document) else {
        return Err(No::Case);
    };
    let table = shown(alloc, table.as_str())?;
    let text = shown(alloc, text)?;
    Ok(format!(in alloc; "{table} {text}")?)
}

/// `MODE OWNER SIZE MOMENT PATH|TARGET`, with `-` for what isn't there.
pub(crate) fn node(alloc: Global, text: &str) -> Result<String, No> {
    let (mode, text) = cut(text);
    let (owner, text) = cut(text);
    let (size, text) = cut(text);
    let (moment, names) = cut(text);
    let Ok(mode) = mode.parse::<u32>() else {
        return Err(No::Case);
    };
    let mut names = cells(alloc, names)?;
    let target = if names.len() > 1 { names.pop() } else { None };
    let Some(path) = names.pop() else {
        return Err(No::Case);
    };
    let row = NodeRow {
        mode,
        owner: String::from_str(alloc, owner)?,
        size: some_number(size)?,
        at: when(moment)?,
        path,
        target,
    };
    both(alloc, &[row])
}

/// An hour ahead of UTC, or `-` for none.
fn when(word: &str) -> Result<Option<When>, No> {
    if word == "-" {
        return Ok(None);
    }
    let moment = signed(word)?;
    Ok(Some(When {
        moment,
        offset: 3600,
    }))
}

/// `+ PATH`, `- PATH` or `M PATH`.
pub(crate) fn difference(alloc: Global, text: &str) -> Result<String, No> {
    let (sign, path) = cut(text);
    let difference = match sign {
        "+" => Difference::Added,
        "-" => Difference::Removed,
        "M" => Difference::Modified,
        _ => return Err(No::Case),
    };
    let path = String::from_str(alloc, path)?;
    both(alloc, &[DifferenceRow { difference, path }])
}

/// `ID NUMBER WORD`.
pub(crate) fn finding(alloc: Global, text: &str) -> Result<String, No> {
    let (name, text) = cut(text);
    let (refusal, word) = cut(text);
    let row = FindingRow {
        word: String::from_str(alloc, word)?,
        id: id(name)?,
        number: refusal.parse::<u8>().ok(),
    };
    both(alloc, &[row])
}

/// `ID MOMENT HOST FILES SIZE CHANGE PATHS TAGS`, with bars between paths and between tags.
pub(crate) fn snapshot(alloc: Global, text: &str) -> Result<String, No> {
    let (name, text) = cut(text);
    let (moment, text) = cut(text);
    let (host, text) = cut(text);
    let (files, text) = cut(text);
    let (size, text) = cut(text);
    let (change, text) = cut(text);
    let (paths, tags) = cut(text);
    let at = When {
        moment: signed(moment)?,
        offset: 3600,
    };
    let row = SnapshotRow {
        name: id(name)?,
        time: at.utc(alloc)?,
        at,
        host: String::from_str(alloc, host)?,
        paths: cells(alloc, paths)?,
        tags: cells(alloc, tags)?,
        files: number_in(files)?,
        size: number_in(size)?,
        change: some_number(change)?,
    };
    both(alloc, &[row])
}
