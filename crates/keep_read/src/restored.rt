ghost use Rattle.std.specs.Prelude.{◌≡◌, IfOk, count_by, is_none, map};
ghost use Rattle.keep_read.specs.Restored.{restored_of, restored_view};
ghost use Rattle.keep_read.specs.Contents.{content_view};

use crate::content::Content;
use std::alloc::{AllocError, Global};
use std::collections::BTreeMap;

/// The files of a snapshot.
#[derive(Drop)]
pub struct RestoredFiles {
    /// The bytes of each, by its path: `/` and the names from the root on, joined by `/`.
    pub files: BTreeMap<String, Vec<u8>>,
    /// How many nodes were neither a folder nor a file, each counted by path.
    pub skipped: u64,
}

/// The files among the contents of a tree, and how many of them are none.
pub(crate) fn restored_of(
    alloc: Global,
    mut contents: Vec<Content>,
) -> Result<RestoredFiles, AllocError>
    ensures { IfOk result (λ restored.
        restored_view restored ≡ restored_of (map content_view contents.items)) }
{
    let skipped = skipped_among(&contents);
    let mut files = BTreeMap::new(alloc);
    while let Some(Content { path, bytes }) = contents.pop() {
        if let Some(bytes) = bytes {
            files.insert(path, bytes)?;
        }
    }
    Ok(RestoredFiles { files, skipped })
}

/// How many of these are no files.
fn skipped_among(contents: &[Content]) -> u64
    ensures { result ≡ count_by (λ content. is_none content.bytes) contents.now }
{
    contents
        .iter()
        .filter(|content| content.bytes.is_none())
        .count() as u64
}
