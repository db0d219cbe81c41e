ghost use Rattle.std.specs.Prelude.{◌≡◌, IfOk, string_bytes};
ghost use Rattle.keep_members.specs.Carried.{AreTimes};
ghost use Rattle.keep_members.specs.Members.{members_data, stamp_view};
ghost use Rattle.keep_members.specs.Stamp.{IsStampText, nanos_of};
ghost use Rattle.keep_members.specs.Texts.{texts_view};

use crate::members::Members;
use crate::stamp::Stamp;
use jiff::Timestamp;
use jiff::tz::Offset;
use std::alloc::{AllocError, Global};

/// The texts of a node's times.
#[derive(Drop)]
pub(crate) struct TimeTexts {
    pub(crate) modified: String,
    pub(crate) accessed: String,
    pub(crate) changed: String,
}

pub(crate) fn texts_of(alloc: Global, members: &Members) -> Result<TimeTexts, AllocError>
    ensures { IfOk result (λ texts. AreTimes (members_data members.now) (texts_view texts)) }
{
    let modified = text_of(alloc, members.mtime)?;
    let accessed = text_of(alloc, members.atime)?;
    let changed = text_of(alloc, members.ctime)?;
    Ok(TimeTexts {
        modified,
        accessed,
        changed,
    })
}

/// The date and the time of day in UTC, as RFC 3339 writes them.
fn text_of(alloc: Global, stamp: Stamp) -> Result<String, AllocError>
    ensures { IfOk result (λ text. IsStampText (stamp_view stamp) (string_bytes text)) }
{
    let instant = instant_of(stamp);
    let clock = Offset::UTC.to_datetime(instant);
    format!(in alloc; "{clock}Z")
}

fn instant_of(stamp: Stamp) -> Timestamp
    ensures { result.nanosecond ≡ nanos_of (stamp_view stamp) }
{
    match Timestamp::new(stamp.seconds(), stamp.nanoseconds() as i32) {
        Ok(instant) => instant,
        Err(_) => unreachable!(),
    }
}
