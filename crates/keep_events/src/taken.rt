ghost use Rattle.std.specs.Prelude.{◌≡◌, [], IfOk, option_copied, option_map, string_bytes, unwrap_or};
ghost use Rattle.keep_snap.specs.Snap.{snap_view};
ghost use Rattle.keep_snap.specs.Time.{moment_in};
ghost use Rattle.keep_events.specs.Deeds as spec;
ghost use Rattle.keep_events.specs.Deeds.{in_utc, taken_by, taken_view};

use keep_change::StoredFile;
use keep_docs::DocError;
use keep_names::Kind;
use keep_rows::When;
use keep_snap::{Snap, SnapError, parse_moment, read_snap};
use std::alloc::{AllocError, Global};

/// What the first snapshot says that a change adds.
#[derive(Drop)]
pub struct Taken {
    /// The host name, empty where it is missing.
    pub host: String,
    /// Its moment, on a clock in UTC until another one is told.
    pub at: Option<When>,
    /// Whether it was made from another snapshot.
    pub is_made: bool,
}

pub(crate) fn taken_in(alloc: Global, files: &[StoredFile]) -> Result<Option<Taken>, AllocError>
    ensures { IfOk result (λ taken. option_map taken_view taken ≡ spec.taken_in files.now) }
{
    match first_snapshot(files) {
        Some(file) => taken_from(alloc, file.bytes().as_slice()),
        None => Ok(None),
    }
}

fn first_snapshot(files: &[StoredFile]) -> Option<&StoredFile>
    ensures { option_copied result ≡ spec.first_snapshot files.now }
{
    files.iter().find(|file| is_snapshot(file.name().kind))
}

fn is_snapshot(kind: Kind) -> bool
    ensures { result ≡ spec.is_snapshot kind }
{
    match kind {
        Kind::Snapshot => true,
        Kind::Pack | Kind::Index => false,
    }
}

/// What the bytes of a snapshot say, nothing where they are none.
#[tactic(auto, using(crate::proofs::Unread::no_snapshot))]
fn taken_from(alloc: Global, bytes: &[u8]) -> Result<Option<Taken>, AllocError>
    ensures { IfOk result (λ taken. option_map taken_view taken ≡ spec.taken_from bytes.now) }
{
    match read_snap(alloc, bytes) {
        Ok(snap) => Ok(Some(taken_of(alloc, &snap)?)),
        Err(error) => {
            if is_memory(error) {
                return Err(AllocError);
            }
            Ok(None)
        }
    }
}

fn is_memory(error: SnapError) -> bool
    ensures { result ≡ spec.is_memory error }
{
    match error {
        SnapError::Doc(DocError::Memory) => true,
        SnapError::Doc(DocError::NotJson | DocError::BadNumber) => false,
        SnapError::BadSnapshot | SnapError::BadTime => false,
    }
}

fn taken_of(alloc: Global, snap: &Snap) -> Result<Taken, AllocError>
    ensures { IfOk result (λ taken. taken_view taken ≡ taken_by (snap_view snap.now)) }
{
    let host = host_of(alloc, &snap.hostname)?;
    Ok(Taken {
        host,
        at: moment_of(snap.time.as_str()),
        is_made: snap.original.is_some(),
    })
}

fn host_of(alloc: Global, host: &Option<String>) -> Result<String, AllocError>
    ensures { IfOk result (λ text. string_bytes text ≡ unwrap_or (option_map string_bytes host.now) []) }
{
    match host {
        Some(host) => host.clone(),
        None => Ok(String::new(alloc)),
    }
}

fn moment_of(time: &str) -> Option<When>
    ensures { result ≡ option_map in_utc (moment_in time.now) }
{
    match parse_moment(time) {
        Some(moment) => Some(When { moment, offset: 0 }),
        None => None,
    }
}
