ghost use Rattle.std.specs.Prelude.{◌≡◌, ◌↔◌, option_map, Some, IfOk, IsTrue};
ghost use Rattle.keep_docs.specs.declared.doc.DocError.TheVariants.{Memory};
ghost use Rattle.keep_index.specs.declared.index_error.IndexError.TheVariants.{Doc};
ghost use Rattle.keep_names.specs.declared.file_name.Kind.TheVariants.{Pack, Index, Snapshot};
ghost use Rattle.keep_pack.specs.Reading.{header_of};
ghost use Rattle.keep_pack.specs.declared.pack_error.PackError.TheVariants as the_pack_error;
ghost use Rattle.keep_catalog.specs.Files.{index_read, snap_read, what_is_read, why_of};
ghost use Rattle.keep_catalog.specs.Kept.{said_view};
ghost use Rattle.keep_snap.specs.Snap.{snap_view};
ghost use Rattle.keep_snap.specs.declared.snap.SnapError.TheVariants as the_snap_error;

use crate::unread::FileError;
use keep_docs::DocError;
use keep_index::{IndexError, IndexedPack, read_index};
use keep_names::Blob;
use keep_pack::{PackError, read_header};
use keep_snap::{Snap, SnapError, read_snap};
use std::alloc::{AllocError, Global};

/// What was read of a file, and why it can't be read.
type Read<T> = (T, Option<FileError>);

/// The entries of a pack, none where its header can't be read.
pub(crate) fn read_pack(alloc: Global, bytes: &[u8]) -> Result<Read<Vec<Blob>>, AllocError>
    ensures entries { IfOk result (λ read. read.0.items ≡ what_is_read (Some (header_of bytes.now))) }
    ensures why { IfOk result (λ read. read.1 ≡ why_of Pack bytes.now) }
{
    match read_header(alloc, bytes) {
        Ok(entries) => Ok((entries, None)),
        Err(refusal) => {
            if is_pack_memory(refusal) {
                return Err(AllocError);
            }
            Ok((Vec::new(alloc), Some(FileError::Pack(refusal))))
        }
    }
}

/// What an index says of packs, if it can be read.
pub(crate) fn read_listed(
    alloc: Global,
    bytes: &[u8],
) -> Result<Read<Option<Vec<IndexedPack>>>, AllocError>
    ensures packs { IfOk result (λ read. option_map said_view read.0 ≡ index_read (Some bytes.now)) }
    ensures why { IfOk result (λ read. read.1 ≡ why_of Index bytes.now) }
{
    match read_index(alloc, bytes) {
        Ok(read) => Ok((Some(read.packs), None)),
        Err(refusal) => {
            if is_index_memory(refusal) {
                return Err(AllocError);
            }
            Ok((None, Some(FileError::Index(refusal))))
        }
    }
}

/// The snapshot, if it can be read.
pub(crate) fn read_snapshot(alloc: Global, bytes: &[u8]) -> Result<Read<Option<Snap>>, AllocError>
    ensures snap { IfOk result (λ read. option_map snap_view read.0 ≡ snap_read (Some bytes.now)) }
    ensures why { IfOk result (λ read. read.1 ≡ why_of Snapshot bytes.now) }
{
    match read_snap(alloc, bytes) {
        Ok(snap) => Ok((Some(snap), None)),
        Err(refusal) => {
            if is_snap_memory(refusal) {
                return Err(AllocError);
            }
            Ok((None, Some(FileError::Snap(refusal))))
        }
    }
}

pub(crate) fn is_pack_memory(refusal: PackError) -> bool
    ensures { IsTrue result ↔ (refusal ≡ the_pack_error.Memory) }
{
    matches!(refusal, PackError::Memory)
}

fn is_index_memory(refusal: IndexError) -> bool
    ensures { IsTrue result ↔ (refusal ≡ Doc Memory) }
{
    matches!(refusal, IndexError::Doc(DocError::Memory))
}

fn is_snap_memory(refusal: SnapError) -> bool
    ensures { IsTrue result ↔ (refusal ≡ the_snap_error.Doc Memory) }
{
    matches!(refusal, SnapError::Doc(DocError::Memory))
}
