use crate::no_answer::No;
use keep_docs::read_doc;
use keep_members::{Stamp, members_in};
use serde_json::Value;
use std::alloc::{AllocError, Global};

/// What the members of a document say, in fourteen words; `-` is what isn't found.
pub(crate) fn found(alloc: Global, text: &str) -> Result<String, No> {
    let Ok(Value::Object(carried)) = read_doc(alloc, text.as_bytes()) else {
        return Err(No::Case);
    };
    let found = members_in(alloc, &carried)?;
    let mut told = String::new(alloc);
    push_number(alloc, &mut told, found.mode.map(u64::from))?;
    push_stamp(alloc, &mut told, found.mtime)?;
    push_stamp(alloc, &mut told, found.atime)?;
    push_stamp(alloc, &mut told, found.ctime)?;
    push_number(alloc, &mut told, found.uid.map(u64::from))?;
    push_number(alloc, &mut told, found.gid.map(u64::from))?;
    push_word(&mut told, found.user.as_deref())?;
    push_word(&mut told, found.group.as_deref())?;
    push_number(alloc, &mut told, found.inode)?;
    push_number(alloc, &mut told, found.device_id)?;
    push_number(alloc, &mut told, found.size)?;
    push_number(alloc, &mut told, found.links)?;
    push_word(&mut told, found.link_target.as_deref())?;
    push_number(alloc, &mut told, found.device)?;
    Ok(told)
}

fn push_number(alloc: Global, told: &mut String, number: Option<u64>) -> Result<(), AllocError> {
    match number {
        Some(number) => {
            let word = format!(in alloc; "{number}")?;
            push_word(told, Some(word.as_str()))
        }
        None => push_word(told, None),
    }
}

fn push_stamp(alloc: Global, told: &mut String, stamp: Option<Stamp>) -> Result<(), AllocError> {
    match stamp {
        Some(stamp) => {
            let word = format!(in alloc; "{}:{}", stamp.seconds(), stamp.nanoseconds())?;
            push_word(told, Some(word.as_str()))
        }
        None => push_word(told, None),
    }
}

/// A word, with a space before it where it isn't the first.
fn push_word(told: &mut String, word: Option<&str>) -> Result<(), AllocError> {
    if !told.is_empty() {
        told.push(' ')?;
    }
    told.push_str(word.unwrap_or("-"))
}
