ghost use Rattle.std.specs.Prelude.{IfOk};
ghost use Rattle.keep_lines.specs.BackupLine.{IsBackup, backup_text};
ghost use Rattle.keep_names.specs.Parses.{Parses};

use crate::word::parse_hex;
use crate::word_list::{Word, parse_words};
use std::alloc::{AllocError, Global};

/// Files to back up as a new snapshot.
#[derive(Drop)]
pub struct BackupLine {
    pub host: String,
    /// As RFC 3339 writes it.
    pub time: String,
    /// Each by the text of its absolute path, with its bytes.
    pub files: Vec<(String, Vec<u8>)>,
}

/// The backup that these words ask for: `HOST TIME PATH=HEX ..`. Whether the time and the paths are
/// ones that can be backed up isn't asked.
pub(crate) fn parse_backup(alloc: Global, text: &str) -> Result<Option<BackupLine>, AllocError>
    ensures { IfOk result (Parses IsBackup backup_text text.now) }
{
    let words: Vec<&str> = text.split(' ').collect(alloc)?;
    let [host, time, files @ ..] = words.as_slice() else {
        return Ok(None);
    };
    if host.is_empty() || time.is_empty() {
        return Ok(None);
    }
    let Some(files) = parse_words(alloc, files)? else {
        return Ok(None);
    };
    let host = String::from_str(alloc, host)?;
    let time = String::from_str(alloc, time)?;
    Ok(Some(BackupLine { host, time, files }))
}

/// A path and the bytes of its file. A path may have `=` in it, so the last one ends it.
impl Word for (String, Vec<u8>) {
    ghost use Rattle.keep_lines.specs.BackupLine.{IsFile, file_word};

    ghost IsSaid = { IsFile };

    ghost text = { file_word };

    ghost spaceless = { λ file said. said.0 };

    fn parse(alloc: Global, word: &str) -> Result<Option<(String, Vec<u8>)>, AllocError> {
        let Some((path, hex)) = word.rsplit_once('=') else {
            return Ok(None);
        };
        let Some(bytes) = parse_hex(alloc, hex)? else {
            return Ok(None);
        };
        let path = String::from_str(alloc, path)?;
        Ok(Some((path, bytes)))
    }
}
