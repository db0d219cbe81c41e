use crate::case_words::number_in;
use crate::no_case::No;
use crate::prints::print_words::{cells, cut, signed};
use keep_tables::{Side, Table, local_time, utc_time};
use std::alloc::Global;

pub(crate) fn size(alloc: Global, text: &str) -> Result<String, No> {
    Ok(keep_tables::size(alloc, number_in(text)?)?)
}

/// A moment on a clock that is so many seconds ahead of UTC.
pub(crate) fn local(alloc: Global, text: &str) -> Result<String, No> {
    let (moment, offset) = cut(text);
    let moment = signed(moment)?;
    let Ok(offset) = offset.parse::<i32>() else {
        return Err(No::Case);
    };
    Ok(local_time(alloc, moment, offset)?)
}

pub(crate) fn utc(alloc: Global, text: &str) -> Result<String, No> {
    Ok(utc_time(alloc, signed(text)?)?)
}

pub(crate) fn mode(alloc: Global, text: &str) -> Result<String, No> {
    let Ok(mode) = text.parse::<u32>() else {
        return Err(No::Case);
    };
    Ok(keep_rows::mode_text(alloc, mode)?)
}

pub(crate) fn shown(alloc: Global, text: &str) -> Result<String, No> {
    Ok(keep_tables::shown(alloc, text)?)
}

/// A table, by a letter for each column's side and then its lines.
pub(crate) fn table(alloc: Global, text: &str) -> Result<String, No> {
    let mut parts = text.split(" :: ");
    let Some(letters) = parts.next() else {
        return Err(No::Case);
    };
    let mut table = Table::new(alloc, sides(alloc, letters)?);
    for line in parts {
        let line = cells(alloc, line)?;
        table.push(&line)?;
    }
    let text = table.text(alloc)?;
    shown(alloc, text.as_str())
}

fn sides(alloc: Global, letters: &str) -> Result<Vec<Side>, No> {
    let mut sides = Vec::new(alloc);
    for letter in letters.bytes() {
        let side = if letter == b'R' {
            Side::Right
        } else {
            Side::Left
        };
        sides.push(side)?;
    }
    Ok(sides)
}
