ghost use Rattle.std.specs.Prelude.{◌≡◌, ◌++◌, All, IfOk, OnOk, Some, false, map};
ghost use Rattle.keep_names.specs.Sha256.{sha256};
ghost use Rattle.keep_names.specs.declared.id.Id as the_id;
ghost use Rattle.keep_build.specs.Blobs.{id_of, is_full};
ghost use Rattle.keep_archive.specs.Archive.{blobs_view};
ghost use Rattle.keep_archive.specs.Cutting.{pieces_in};
ghost use Rattle.keep_archive.specs.Steps.{holding, piece};

use crate::blobs::Blobs;
use crate::held::HeldBlob;
use keep_catalog::Hashing;
use keep_names::{Id, id_of};
use std::alloc::{AllocError, Global};

/// The ids of pieces of a file that are whole.
#[derive(Drop)]
pub(crate) struct HashedPieces {
    pub(crate) ids: Vec<Id>,
    /// The SHA-256 of the bytes behind them, if it was made too.
    pub(crate) rest: Option<Id>,
}

/// With these pieces of a file, which wait to be stored. Their ids come behind its others.
pub(crate) fn hold_pieces(
    blobs: Blobs,
    content: &mut Vec<Id>,
    pieces: Vec<Vec<u8>>,
    ids: Vec<Id>,
) -> Result<Blobs, AllocError>
    requires own { map (λ id. id.0) ids.items ≡ map (λ bytes. sha256 bytes.items) pieces.items }
    requires fits { All (λ bytes. is_full (piece bytes.items) ≡ false) pieces.items }
    ensures content { OnOk result (content.new.items
        ≡ content.old.items ++ map id_of (map piece (pieces_in pieces.items))) }
    ensures held { IfOk result (λ held. blobs_view held
        ≡ holding (map piece (pieces_in pieces.items)) (blobs_view blobs)) }
{
    let mut blobs = blobs;
    for (bytes, id) in pieces.into_iter().zip(ids) {
        content.push(id)?;
        blobs = blobs.hold(HeldBlob::piece(id, bytes))?;
    }
    Ok(blobs)
}

/// The ids of these pieces, and that of the bytes behind them, which may be the last piece: all are hashed together.
/// Where there are no pieces nothing is hashed, as more may come behind those bytes.
pub(crate) fn hashed_pieces<H: Hashing>(
    alloc: Global,
    pieces: &[Vec<u8>],
    rest: &[u8],
    hashing: &mut H,
) -> Result<HashedPieces, AllocError>
    ensures pieces { IfOk result (λ hashed.
        map (λ id. id.0) hashed.ids.items ≡ map (λ bytes. sha256 bytes.items) pieces.now) }
    ensures rest { IfOk result (λ hashed. (id : the_id.Id) → hashed.rest ≡ Some id → id.0 ≡ sha256 rest.now) }
{
    if pieces.is_empty() {
        return Ok(HashedPieces {
            ids: Vec::new(alloc),
            rest: None,
        });
    }
    let mut texts = texts_of(alloc, pieces)?;
    texts.push(rest)?;
    let mut ids = hashing.ids(alloc, &texts)?;
    let rest = ids.pop();
    Ok(HashedPieces { ids, rest })
}

/// The id of the last piece of a file, which is hashed where it wasn't.
pub(crate) fn last_id<H: Hashing>(
    alloc: Global,
    bytes: &[u8],
    known: Option<Id>,
    hashing: &mut H,
) -> Result<Id, AllocError>
    requires { (id : the_id.Id) → known ≡ Some id → id.0 ≡ sha256 bytes.now }
    ensures { IfOk result (λ id. id.0 ≡ sha256 bytes.now) }
{
    if let Some(id) = known {
        return Ok(id);
    }
    let mut ids = hashing.ids(alloc, &[bytes])?;
    match ids.pop() {
        Some(id) => Ok(id),
        None => Ok(id_of(bytes)),
    }
}

/// The bytes of each piece.
fn texts_of<'a>(alloc: Global, pieces: &'a [Vec<u8>]) -> Result<Vec<&'a [u8]>, AllocError>
    ensures { IfOk result (λ texts. map (λ text. text.now) texts.items ≡ map (λ bytes. bytes.items) pieces.entry.now) }
{
    let mut texts = Vec::with_capacity(alloc, pieces.len())?;
    for bytes in pieces {
        texts.push(bytes.as_slice())?;
    }
    Ok(texts)
}
