ghost use Rattle.std.specs.Prelude.{◌≡◌, ◌<◌, Some};
ghost use Rattle.std.specs.Vec.{vec_len};
ghost use Rattle.keep_names.specs.Sha256.{sha256};
ghost use Rattle.keep_names.specs.declared.id.Id as the_id;

use crate::blobs::Blobs;
use crate::cut_bytes::CutBytes;
use crate::held::HeldBlob;
use crate::pieces::{HashedPieces, hashed_pieces, hold_pieces, last_id};
use keep_build::Cut;
use keep_catalog::Hashing;
use keep_names::Id;
use std::alloc::{AllocError, Global};

/// The file that is being read.
#[derive(Drop)]
pub(crate) struct Begun {
    pub(crate) cut: Cut,
    /// The ids of its pieces so far.
    pub(crate) content: Vec<Id>,
    /// Its bytes behind these.
    pub(crate) rest: Vec<u8>,
    /// The SHA-256 of these, where it was made.
    pub(crate) hash: Option<Id>,
    pub ghost short: { vec_len rest < cut.bytes },
    pub ghost own: { (id : the_id.Id) → hash ≡ Some id → id.0 ≡ sha256 rest.items },
}

impl Begun {
    ghost use Rattle.std.specs.Prelude.{[], IfOk, map};
    ghost use Rattle.keep_archive.specs.Archive.{begun_view, blobs_view};
    ghost use Rattle.keep_archive.specs.Steps.{Writes, content_of, ended, holding, last_of, piece};

    /// No file is being read.
    pub(crate) fn new(alloc: Global, cut: Cut) -> Begun
        ensures { begun_view result ≡ record { cut = cut.bytes; content = []; rest = [] } }
    {
        let length = cut.piece_length();
        prove!(0 < length);
        Begun {
            cut,
            content: Vec::new(alloc),
            rest: Vec::new(alloc),
            hash: None,
        }
    }

    /// With more bytes of it. Pieces that are whole by them are hashed together, and the bytes behind these with them.
    pub(crate) fn write<H: Hashing>(
        self,
        alloc: Global,
        blobs: Blobs,
        bytes: &[u8],
        hashing: &mut H,
    ) -> Result<(Begun, Blobs), AllocError>
        ensures { IfOk result (λ made. Writes bytes.now (begun_view self) (begun_view made.0)
            (blobs_view blobs) (blobs_view made.1)) }
    {
        let Begun {
            cut,
            mut content,
            rest,
            hash: _,
        } = self;
        let CutBytes { cut, whole, rest } = CutBytes::of(alloc, cut, rest).with(alloc, bytes)?;
        let HashedPieces { ids, rest: hash } = hashed_pieces(alloc, &whole, &rest, hashing)?;
        let blobs = hold_pieces(blobs, &mut content, whole, ids)?;
        let begun = Begun {
            cut,
            content,
            rest,
            hash,
        };
        Ok((begun, blobs))
    }

    /// The pieces of the file that was read, and what is there afterwards.
    pub(crate) fn end<H: Hashing>(
        self,
        alloc: Global,
        blobs: Blobs,
        hashing: &mut H,
    ) -> Result<(Vec<Id>, Begun, Blobs), AllocError>
        ensures content { IfOk result (λ made. made.0.items ≡ content_of (begun_view self)) }
        ensures ended { IfOk result (λ made. begun_view made.1 ≡ ended (begun_view self)) }
        ensures held { IfOk result (λ made.
            blobs_view made.2 ≡ holding (map piece (last_of (begun_view self).rest)) (blobs_view blobs)) }
    {
        let Begun {
            cut,
            mut content,
            rest,
            hash,
        } = self;
        let begun = Begun::new(alloc, cut);
        if rest.is_empty() {
            return Ok((content, begun, blobs));
        }
        let id = last_id(alloc, &rest, hash, hashing)?;
        let held = HeldBlob::piece(id, rest);
        content.push(held.blob.id)?;
        let blobs = blobs.hold(held)?;
        Ok((content, begun, blobs))
    }

    /// What was read is of no file.
    pub(crate) fn dropped(self, alloc: Global) -> Begun
        ensures { begun_view result ≡ ended (begun_view self) }
    {
        Begun::new(alloc, self.cut)
    }
}
