ghost use Rattle.std.specs.Prelude.{◌≡◌, ◌++◌, [], IfOk, OnOk, filter, is_none};
ghost use Rattle.std.specs.FinMap as map;
ghost use Rattle.keep_damage.specs.Compared.{difference_at, difference_between, keys_of_both, noted, topped};

use crate::finding::Finding;
use crate::teller::teller_of;
use keep_journal::History;
use keep_repo::Bytes;
use keep_shelf::{Key, Stock};
use std::alloc::{AllocError, Global};

/// The most findings that are told.
pub(crate) const MOST: usize = 10;

/// Where the two differ on files, the first ten places.
pub(crate) fn compare(
    alloc: Global,
    history: &History,
    there: &Stock,
    asked: &Stock,
) -> Result<Vec<Finding>, AllocError>
    ensures { let at = difference_at history.now.journal there.now asked.now in
        IfOk result (λ found. found.items ≡ noted at (keys_of_both there.now asked.now) []) }
{
    let keys = keys_of_both(there, asked)?;
    let mut found = Vec::new(alloc);
    for key in &keys {
        note(&mut found, difference_at(history, there, asked, *key)?)?;
    }
    Ok(found)
}

/// The keys of the one, and then those of the other that it hasn't.
fn keys_of_both(there: &Stock, asked: &Stock) -> Result<Vec<Key>, AllocError>
    ensures { IfOk result (λ keys. keys.items ≡ keys_of_both there.now asked.now) }
{
    let mut keys = there.keys()?;
    let others = asked.keys()?;
    for key in &others {
        if there.get(*key).is_none() {
            keys.push(*key)?;
        }
    }
    Ok(keys)
}

/// Notes the finding, if there is one and fewer than ten were noted.
pub(crate) fn note(found: &mut Vec<Finding>, finding: Option<Finding>) -> Result<(), AllocError>
    ensures { OnOk result (found.new.items ≡ topped found.old.items finding) }
{
    if let Some(finding) = finding {
        if found.len() < MOST {
            found.push(finding)?;
        }
    }
    Ok(())
}

/// What is wrong with what stands under the key, if it is a file's.
fn difference_at(
    history: &History,
    there: &Stock,
    asked: &Stock,
    key: Key,
) -> Result<Option<Finding>, AllocError>
    ensures { IfOk result (λ finding. finding ≡ difference_at history.now.journal there.now asked.now key) }
{
    match key {
        Key::Entry(_) => Ok(None),
        Key::Live(_) | Key::Trash(_, _) => {
            let held = there.bytes(key)?;
            let others = asked.bytes(key)?;
            Ok(difference_between(history, key, &held, &others))
        }
    }
}

fn difference_between(
    history: &History,
    key: Key,
    there: &Option<Bytes>,
    asked: &Option<Bytes>,
) -> Option<Finding>
    ensures { result ≡ difference_between history.now.journal key there.now asked.now }
{
    match (there, asked) {
        (Some(bytes), Some(others)) if bytes.as_slice() == others.as_slice() => None,
        (Some(_), Some(_)) => Some(Finding::OtherBytes(key, teller_of(history, key))),
        (Some(_), None) => Some(Finding::Untold(key)),
        (None, Some(_)) => Some(Finding::Missing(key)),
        (None, None) => None,
    }
}
