ghost use Rattle.std.specs.Prelude.{◌≡◌};
ghost use Rattle.keep_hooks.specs.Written as spec;

use keep_change::{Outline, What};
use keep_names::{FileName, Kind};

/// Whether it is a commit or a redo.
pub fn makes_change(what: What) -> bool
    ensures { result ≡ spec.makes_change what }
{
    matches!(what, What::Commit | What::Redo)
}

/// How many files the event's change adds and drops. A count that is stored under `FilesWritten` calls it.
pub fn files_written(outline: &Outline) -> u64
    ensures { result ≡ spec.files_written outline.now }
{
    outline.adds.as_slice().len() as u64 + outline.drops.as_slice().len() as u64
}

/// How many snapshots a commit or a redo drops; none for other events. A count that is stored under
/// `SnapshotsDropped` calls it.
pub fn snapshots_dropped(outline: &Outline) -> u64
    ensures { result ≡ spec.snapshots_dropped outline.now }
{
    if makes_change(outline.what) {
        snapshot_count(outline.drops.as_slice())
    } else {
        0
    }
}

fn snapshot_count(names: &[FileName]) -> u64
    ensures { result ≡ spec.snapshot_count names.now }
{
    names
        .iter()
        .filter(|name| name.kind == Kind::Snapshot)
        .count() as u64
}
