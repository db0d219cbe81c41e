ghost use Rattle.std.specs.Prelude.{◌≡◌, [], IfOk};
ghost use Rattle.keep_damage.specs.Compared.{noted};
ghost use Rattle.keep_damage.specs.Entries.{entry_finding};

use crate::comparing::note;
use crate::finding::Finding;
use crate::sign::Sign;
use std::alloc::{AllocError, Global};

/// What is wrong with entries, the first ten of them, where this is the number of the first with which something is.
pub(crate) fn bad_entries(
    alloc: Global,
    first: u64,
    signs: &[Sign],
) -> Result<Vec<Finding>, AllocError>
    ensures { IfOk result (λ found. found.items ≡ noted (entry_finding first) signs.now []) }
{
    let mut found = Vec::new(alloc);
    for sign in signs {
        note(&mut found, entry_finding(first, *sign))?;
    }
    Ok(found)
}

/// That it is no entry, or that it is this one, which can't follow those before it.
fn entry_finding(first: u64, sign: Sign) -> Option<Finding>
    ensures { result ≡ entry_finding first sign }
{
    if !sign.is_entry {
        return Some(Finding::NoEntry(sign.at));
    }
    if sign.at == first {
        return Some(Finding::Misplaced(sign.at));
    }
    None
}
