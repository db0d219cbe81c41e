ghost use Rattle.std.specs.Prelude.{◌≡◌, IfOk, map, string_bytes};
ghost use Rattle.keep_snap.specs.Snap.{snap_view};
ghost use Rattle.keep_backup.specs.Backup.{facts_view, tagged_file, tagged_snapshot};

use keep_change::StoredFile;
use keep_names::{Id, Kind};
use keep_snap::{Snap, write_snap};
use serde_json::Map;
use std::alloc::{AllocError, Global};

/// Who backs up what, and when.
#[derive(Drop)]
pub struct BackupFacts {
    pub host: String,
    pub user: String,
    /// What is backed up, as the snapshot is to say it.
    pub paths: Vec<String>,
    /// As RFC 3339 writes it.
    pub time: String,
}

/// The snapshot of a backup whose root's tree has this id, with these tags.
pub fn snapshot_file(
    alloc: Global,
    facts: &BackupFacts,
    tags: &[String],
    tree: Id,
) -> Result<StoredFile, AllocError>
    ensures { IfOk result (λ file. file ≡ tagged_file (facts_view facts.now) (map string_bytes tags.now) tree) }
{
    let snap = snapshot_of(alloc, facts, tags, tree)?;
    let text = write_snap(alloc, &snap)?;
    StoredFile::of(alloc, Kind::Snapshot, text)
}

/// What it says.
fn snapshot_of(
    alloc: Global,
    facts: &BackupFacts,
    tags: &[String],
    tree: Id,
) -> Result<Snap, AllocError>
    ensures { IfOk result (λ snap. snap_view snap
        ≡ tagged_snapshot (facts_view facts.now) (map string_bytes tags.now) tree) }
{
    let time = facts.time.clone()?;
    let paths = texts_copy(alloc, &facts.paths)?;
    let host = facts.host.clone()?;
    let user = facts.user.clone()?;
    let tags = texts_copy(alloc, tags)?;
    Ok(Snap {
        time,
        tree,
        paths,
        hostname: Some(host),
        username: Some(user),
        tags,
        original: None,
        dir: None,
        others: Map::new(alloc),
    })
}

fn texts_copy(alloc: Global, texts: &[String]) -> Result<Vec<String>, AllocError>
    ensures { IfOk result (λ copies. map string_bytes copies.items ≡ map string_bytes texts.now) }
{
    let mut copies = Vec::with_capacity(alloc, texts.len())?;
    for text in texts {
        copies.push(text.clone()?)?;
    }
    Ok(copies)
}
