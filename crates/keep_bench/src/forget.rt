ghost use Rattle.std.specs.Prelude.{◌≡◌, ◌<◌, ◌≤◌, IfOk, IfSome, length, map};
ghost use Rattle.keep_snap.specs.Facts.{facts_view};
ghost use Rattle.keep_labels.specs.Keeping.{dropped_names, policy_view};

use keep_labels::{Count, Policy, dropped, names_rise};
use keep_names::Id;
use keep_snap::{Month, SnapFacts};
use std::alloc::{AllocError, Global};

/// Of how many snapshots a forget is planned at most.
const MAX_SNAPSHOTS: usize = 100_000;

/// How many snapshots a policy drops of one a byte, if there aren't too many. Five of them are of one day, the later
/// the newer, and each is of the host that its byte names.
pub(crate) fn forget(alloc: Global, bytes: &[u8]) -> Result<Option<usize>, AllocError> {
    if bytes.len() > MAX_SNAPSHOTS {
        return Ok(None);
    }
    let facts = facts_of(alloc, bytes)?;
    dropped_count(alloc, &policy(alloc), &facts)
}

/// How many of the snapshots the policy drops, if their names rise.
pub(crate) fn dropped_count(
    alloc: Global,
    policy: &Policy,
    facts: &[SnapFacts],
) -> Result<Option<usize>, AllocError>
    ensures { IfOk result (λ found. IfSome found (λ count.
        count ≡ length (dropped_names (policy_view policy.now) (map facts_view facts.now)))) }
{
    if !names_rise(facts) {
        return Ok(None);
    }
    let names = dropped(alloc, policy, facts)?;
    Ok(Some(names.len()))
}

/// All five counts.
fn policy(alloc: Global) -> Policy {
    Policy {
        last: Count::new(10),
        daily: Count::new(7),
        weekly: Count::new(5),
        monthly: Count::new(12),
        yearly: Count::new(3),
        tags: Vec::new(alloc),
    }
}

fn facts_of(alloc: Global, bytes: &[u8]) -> Result<Vec<SnapFacts>, AllocError>
    requires { length bytes.now ≤ 100000 }
    ensures { IfOk result (λ facts. length facts.items ≡ length bytes.now) }
{
    let mut facts = Vec::with_capacity(alloc, bytes.len())?;
    for (number, byte) in bytes.iter().enumerate() {
        facts.push(snapshot(alloc, number as u32, *byte)?)?;
    }
    Ok(facts)
}

/// The snapshot of this number. Months have 30 days here, and years 360.
fn snapshot(alloc: Global, number: u32, byte: u8) -> Result<SnapFacts, AllocError>
    requires { number < 100000 }
{
    let day = number / 5;
    let year = 1970 + (day / 360) as i16;
    let mut host = String::new(alloc);
    host.push(char::from(byte))?;
    Ok(SnapFacts {
        name: name(number),
        instant: i128::from(number) * 17_280_000_000_000,
        day: day as i32,
        week: (day / 7 * 7) as i32,
        month: Month {
            year,
            month: (day / 30 % 12) as u8 + 1,
        },
        year,
        host,
        user: String::new(alloc),
        paths: Vec::new(alloc),
        tags: Vec::new(alloc),
        tree: name(number),
    })
}

/// An id that begins with the number, the high byte first.
fn name(number: u32) -> Id {
    let [first, second, third, fourth] = number.to_be_bytes();
    let mut bytes = [0; 32];
    bytes[0] = first;
    bytes[1] = second;
    bytes[2] = third;
    bytes[3] = fourth;
    Id(bytes)
}
