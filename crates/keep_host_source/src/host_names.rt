use std::alloc::{AllocError, Global};
use std::collections::BTreeMap;
use std::fs;
use std::fs::{File, Files};

/// The names of users or groups, by number: of the lines of a file like `/etc/passwd`, or none where it can't be read.
/// Of two lines of one number the first counts.
pub(crate) fn names_in<R: Files<File = File> + Alloc<A = Global>>(
    rt: &R,
    path: &str,
) -> Result<BTreeMap<u32, String>, AllocError> {
    match fs::read_to_string(rt, path) {
        Ok(text) => names_of(rt.alloc(), text.as_str()),
        Err(_) => Ok(BTreeMap::new(rt.alloc())),
    }
}

fn names_of(alloc: Global, text: &str) -> Result<BTreeMap<u32, String>, AllocError> {
    let mut names = BTreeMap::new(alloc);
    for line in text.lines() {
        if let Some((number, name)) = name_in(line) {
            if !names.contains_key(&number) {
                names.insert(number, String::from_str(alloc, name)?)?;
            }
        }
    }
    Ok(names)
}

/// The number and the name in a line `NAME:PASSWORD:NUMBER:..`.
fn name_in(line: &str) -> Option<(u32, &str)> {
    let (name, rest) = line.split_once(':')?;
    let (_, rest) = rest.split_once(':')?;
    let number = match rest.split_once(':') {
        Some((number, _)) => number,
        None => rest,
    };
    match number.parse::<u32>() {
        Ok(number) if !name.is_empty() => Some((number, name)),
        _ => None,
    }
}
