ghost use Rattle.std.specs.Prelude.{◌≡◌};
ghost use Rattle.keep_docs.specs.Doc.{Gives};
ghost use Rattle.keep_docs.specs.declared.doc.DocError.TheVariants.{Memory};
ghost use Rattle.keep_snap.specs.Facts.{facts_of, facts_view};
ghost use Rattle.keep_snap.specs.Snap.{snap_view};
ghost use Rattle.keep_snap.specs.declared.snap.SnapError.TheVariants.{Doc};

use crate::copies::{text_copies, text_or_empty};
use crate::snap::{Snap, SnapError};
use crate::time::{Month, parse_time};
use keep_names::Id;
use std::alloc::Global;

/// What filters ask of a snapshot.
#[derive(Drop)]
pub struct SnapFacts {
    pub name: Id,
    /// Nanoseconds since 1970-01-01T00:00:00Z.
    pub instant: i128,
    /// The number of the written day, 0 for 1970-01-01.
    pub day: i32,
    /// The number of the day that is its week's Monday.
    pub week: i32,
    pub month: Month,
    pub year: i16,
    /// The host name, empty where it is missing.
    pub host: String,
    /// The user name, empty where it is missing.
    pub user: String,
    pub paths: Vec<String>,
    pub tags: Vec<String>,
    pub tree: Id,
}

/// The facts of a snapshot of this name. A `Snap` that was read has a time; one that was made may have
/// another text there, and is `BadTime`.
pub fn facts(alloc: Global, snap: &Snap, name: Id) -> Result<SnapFacts, SnapError>
    ensures { Gives (Doc Memory) facts_view (facts_of name (snap_view snap.now)) result }
{
    let time = parse_time(snap.time.as_str()).ok_or(SnapError::BadTime)?;
    let host = text_or_empty(alloc, &snap.hostname)?;
    let user = text_or_empty(alloc, &snap.username)?;
    let paths = text_copies(alloc, &snap.paths)?;
    let tags = text_copies(alloc, &snap.tags)?;
    Ok(SnapFacts {
        name,
        instant: time.instant,
        day: time.day,
        week: time.week,
        month: time.month,
        year: time.year,
        host,
        user,
        paths,
        tags,
        tree: snap.tree,
    })
}
