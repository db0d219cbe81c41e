ghost use Rattle.std.specs.Prelude.{◌≡◌, ◌%◌, option_map};
ghost use Rattle.keep_members.specs.Mode.{unix_mode};
ghost use Rattle.keep_restores.specs.Attributes.{instant_in, owner_in, times_in};

use keep_members::{FoundMembers, Stamp, unix_mode};
use keep_targets::{Instant, Owner, Times};

/// To whom it belongs, where both numbers are said.
pub(crate) fn owner_of(found: &FoundMembers) -> Option<Owner>
    ensures { result ≡ owner_in found.now.uid found.now.gid }
{
    match (found.uid, found.gid) {
        (Some(uid), Some(gid)) => Some(Owner { uid, gid }),
        _ => None,
    }
}

/// The low twelve bits of `st_mode`.
pub(crate) fn mode_of(found: &FoundMembers) -> Option<u32>
    ensures { result ≡ option_map (λ mode. unix_mode mode % 4096) found.now.mode }
{
    match found.mode {
        Some(mode) => Some(unix_mode(mode) % 4096),
        None => None,
    }
}

/// Its times, where it is said when it was written. Where it isn't said when it was read, that is when it was written.
pub(crate) fn times_of(found: &FoundMembers) -> Option<Times>
    ensures { result ≡ times_in found.now.mtime found.now.atime }
{
    let Some(modified) = found.mtime else {
        return None;
    };
    let accessed = found.atime.unwrap_or(modified);
    Some(Times {
        accessed: instant_of(accessed),
        modified: instant_of(modified),
    })
}

fn instant_of(stamp: Stamp) -> Instant
    ensures { result ≡ instant_in stamp }
{
    Instant {
        seconds: stamp.seconds(),
        nanoseconds: stamp.nanoseconds(),
    }
}
