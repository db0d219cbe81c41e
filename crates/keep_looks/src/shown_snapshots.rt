ghost use Rattle.std.specs.Prelude.{◌≡◌, IfOk, [], map, option_map, string_bytes, unwrap_or};
ghost use Rattle.keep_named.specs.Rows.{row_view};
ghost use Rattle.keep_looks.specs.Shown.{AreRowsShown, AreShown, moment_due, row_data, row_with};

use crate::MachineZone;
use crate::chosen_snapshots::chosen_of;
use crate::listed_nodes::nodes_or_none;
use crate::unlisted::Unlisted;
use keep_journal::History;
use keep_named::snapshots_of;
use keep_nodes::{Lengths, Tally};
use keep_rows::{SnapshotRow, When};
use keep_snap::parse_moment;
use keep_view::View;
use keep_words::Chosen;
use std::alloc::{AllocError, Global};

/// The snapshots that are shown, and those of them that can't be listed: their rows have no files and no bytes.
#[derive(Drop)]
pub struct ShownSnapshots {
    pub rows: Vec<SnapshotRow>,
    pub unlisted: Vec<Unlisted>,
}

/// The snapshots that can be read and that each given word takes, by the instants of their times, and those of one
/// instant by name; where a number is given the newest so many of these alone. Times are shown on the zone's clock.
pub fn snapshot_rows(
    alloc: Global,
    view: &View,
    history: &History,
    chosen: &Chosen<'_>,
    latest: Option<u32>,
    zone: &MachineZone,
) -> Result<ShownSnapshots, AllocError>
    ensures { IfOk result (λ shown. AreShown history.now.journal view.now.repo chosen.now latest shown) }
{
    let catalog = view.read_past(alloc)?;
    let listed = snapshots_of(alloc, &catalog, history)?;
    let rows = chosen_of(alloc, &listed, chosen, latest)?;
    let mut lengths = Lengths::new(alloc, &catalog);
    shown_of(alloc, view, &rows, &mut lengths, zone)
}

fn shown_of(
    alloc: Global,
    view: &View,
    rows: &[keep_named::ListedSnapshot<'_>],
    lengths: &mut Lengths<'_>,
    zone: &MachineZone,
) -> Result<ShownSnapshots, AllocError>
    requires { lengths.old ≡ view.now.repo }
    ensures { IfOk result (λ shown. AreRowsShown view.now.repo rows.now shown) }
{
    let mut shown = Vec::new(alloc);
    let mut unlisted = Vec::new(alloc);
    for row in rows {
        let entries = nodes_or_none(alloc, view, row.id, &mut unlisted)?;
        let tally = lengths.tally(&entries)?;
        let made = row_of(alloc, row, tally, zone)?;
        shown.push(made)?;
    }
    Ok(ShownSnapshots {
        rows: shown,
        unlisted,
    })
}

/// The row of a snapshot that has this.
fn row_of(
    alloc: Global,
    row: &keep_named::ListedSnapshot<'_>,
    tally: Tally,
    zone: &MachineZone,
) -> Result<SnapshotRow, AllocError>
    ensures { IfOk result (λ made. row_data made ≡ row_with tally (row_view row.now)) }
{
    let time = row.snap.time.clone()?;
    let host = host_of(alloc, &row.snap.hostname)?;
    let paths = copies_of(alloc, &row.snap.paths)?;
    let tags = copies_of(alloc, &row.snap.tags)?;
    let at = when_of(row.snap.time.as_str(), zone);
    Ok(SnapshotRow {
        name: row.id,
        time,
        at,
        host,
        paths,
        tags,
        files: tally.files,
        size: tally.bytes,
        change: row.change,
    })
}

/// The moment of a time, on the zone's clock.
fn when_of(time: &str, zone: &MachineZone) -> When
    ensures { result.moment ≡ moment_due time.now }
{
    let moment = moment_of(time);
    When {
        moment,
        offset: zone.offset_at(moment),
    }
}

/// The moment of a time. Each snapshot that was read has one.
#[tactic(auto, unfolding(crate::specs::Shown::moment_due))]
fn moment_of(time: &str) -> i64
    ensures { result ≡ moment_due time.now }
{
    parse_moment(time).unwrap_or(0)
}

/// The host, empty where there is none.
fn host_of(alloc: Global, host: &Option<String>) -> Result<String, AllocError>
    ensures { IfOk result (λ made. string_bytes made ≡ unwrap_or (option_map string_bytes host.now) []) }
{
    match host {
        Some(host) => host.clone(),
        None => Ok(String::new(alloc)),
    }
}

fn copies_of(alloc: Global, texts: &[String]) -> Result<Vec<String>, AllocError>
    ensures { IfOk result (λ copies. map string_bytes copies.items ≡ map string_bytes texts.now) }
{
    let mut copies = Vec::with_capacity(alloc, texts.len())?;
    for text in texts {
        let copy = text.clone()?;
        copies.push(copy)?;
    }
    Ok(copies)
}
