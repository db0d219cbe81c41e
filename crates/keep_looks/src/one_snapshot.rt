ghost use Rattle.keep_looks.specs.Shown.{IsNamed};

use keep_journal::History;
use keep_named::{NamedError, named, snapshots_of};
use keep_names::Id;
use keep_view::View;
use std::alloc::Global;

/// The snapshot that a text names: `latest` the newest that can be read, `@N` the one that change N added, and any other
/// text the one whose id begins with it.
pub fn snapshot_named(
    alloc: Global,
    view: &View,
    history: &History,
    text: &str,
) -> Result<Id, NamedError>
    ensures { IsNamed history.now.journal view.now.repo text.now result }
{
    let catalog = view.read_past(alloc)?;
    let rows = snapshots_of(alloc, &catalog, history)?;
    named(alloc, view.repo(), history, &rows, text)
}
