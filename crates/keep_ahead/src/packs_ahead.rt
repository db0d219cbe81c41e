ghost use Rattle.std.specs.Prelude.{◌≡◌, ◌<◌, ◌*◌, ◌^◌, All, length};
ghost use Rattle.std.specs.Arc.{arc_slice_items};
ghost use Rattle.std.specs.Vec.{vec_len};
ghost use Rattle.keep_pack.specs.Pack.{HasOwnId};

use crate::going::LastRead;
use crate::hashed::{HashedPiece, hashed_pieces};
use crossbeam_channel::{Receiver, Sender, bounded};
use keep_hashing::Hashing;
use keep_names::{BlobId, BlobType, Id};
use keep_pack::build_pack;
use keep_sources::{Receives, Stat, Stop};
use std::alloc::{AllocError, Global};
use std::collections::BTreeSet;
use std::mem;
use std::sync::{ArcSlice, Wait};

/// A pack with as many bytes of blobs gets no more.
const FULL_PACK: usize = 16_777_216;

/// How many blobs a pack gets here at most.
const MOST_BLOBS: usize = 65_536;

/// Makes the packs ahead that a backup will make of what is read, where none of it is stored by then and no tree comes in
/// between. Who makes them looks whether it came so.
#[derive(Drop)]
pub(crate) struct PacksAhead<R, H> {
    pub(crate) alloc: Global,
    pub(crate) rt: R,
    pub(crate) hashing: H,
    pub(crate) last: LastRead,
    /// How many bytes a whole piece of a file has.
    pub(crate) cut: usize,
    /// The shorter piece behind those of the file that is being read: it is held once the file ends.
    pub(crate) rest: Option<HashedPiece>,
    pub(crate) seen: BTreeSet<Id>,
    /// The pack that isn't full yet.
    pub(crate) open: OpenPack,
    /// The packs of the part that are full.
    pub(crate) packs: Vec<Vec<u8>>,
    /// How many bytes the part has.
    pub(crate) held: u64,
    /// None where nobody asks for packs any more.
    pub(crate) told: Option<Sender<Receiver<Vec<HashedPiece>, Global>, Global>>,
}

impl<R: Wait + Drop, H: Hashing + Drop> PacksAhead<R, H> {
    /// Adds a piece of a file. One that came before is in no pack once more.
    fn add(&mut self, piece: HashedPiece) -> Result<(), AllocError> {
        self.held = self.held.saturating_add(piece.bytes.len() as u64);
        if self.told.is_none() || !self.seen.insert(piece.id)? {
            return Ok(());
        }
        self.open.add(piece)?;
        if self.open.is_full() {
            self.end_pack()?;
        }
        Ok(())
    }

    /// The pack that isn't full yet gets no more.
    fn end_pack(&mut self) -> Result<(), AllocError> {
        if self.open.blobs.is_empty() {
            return Ok(());
        }
        let open = mem::replace(&mut self.open, OpenPack::new(self.alloc));
        let pack = build_pack(self.alloc, &open.blobs)?;
        self.packs.push(pack)?;
        Ok(())
    }

    /// Hashes the packs of a part together. Who asks for them is told first, and waits for them.
    fn end_part(&mut self) -> Result<(), AllocError> {
        let Some(told) = self.told.take() else {
            return Ok(());
        };
        let (sender, coming) = bounded(self.alloc, 1)?;
        if told.send(&self.rt, coming).is_err() {
            return Ok(());
        }
        self.told = Some(told);
        self.end_pack()?;
        let packs = mem::replace(&mut self.packs, Vec::new(self.alloc));
        let hashed = hashed_pieces(self.alloc, packs, &mut self.hashing)?;
        let _sent = sender.send(&self.rt, hashed);
        Ok(())
    }
}

impl<R: Wait + Drop, H: Hashing + Drop> Receives for PacksAhead<R, H> {
    ghost Seen = { Unit {0} };

    ghost seen = { λ _. tt };

    ghost gives = { λ _ _ _. Unit {0} };

    ghost holds = { λ packs. packs.held };

    fn open_folder(&mut self, _name: &str) -> Result<(), Stop> {
        Ok(())
    }

    fn close_folder(&mut self, _sight: &Stat) -> Result<(), Stop> {
        Ok(())
    }

    fn write(&mut self, _bytes: &[u8]) -> Result<(), Stop> {
        self.rest = None;
        let pieces = self.last.replace(Vec::new(self.alloc));
        for piece in pieces {
            if piece.bytes.len() == self.cut {
                self.add(piece)?;
            } else if !piece.bytes.is_empty() {
                self.rest = Some(piece);
            }
        }
        Ok(())
    }

    fn end_file(&mut self, _name: &str, _sight: &Stat) -> Result<(), Stop> {
        if let Some(rest) = self.rest.take() {
            self.add(rest)?;
        }
        Ok(())
    }

    fn drop_file(&mut self) -> Result<(), Stop> {
        self.rest = None;
        Ok(())
    }

    fn same_file(&mut self, _name: &str, _content: &[Id], _sight: &Stat) -> Result<(), Stop> {
        Ok(())
    }

    fn add_other(&mut self, _name: &str, _sight: &Stat) -> Result<(), Stop> {
        Ok(())
    }

    fn held(&self) -> u64 {
        self.held
    }

    fn store_part(&mut self) -> Result<(), Stop> {
        self.end_part()?;
        self.held = 0;
        Ok(())
    }
}

/// A pack that isn't full yet.
#[derive(Drop)]
pub(crate) struct OpenPack {
    blobs: Vec<(BlobId, ArcSlice<u8, Global>)>,
    /// How many bytes they have.
    size: usize,
    ghost own: { All (HasOwnId arc_slice_items) blobs.items },
    ghost lengths: { All (λ blob. length (arc_slice_items blob.1) < 2 ^ 32) blobs.items },
    ghost count: { vec_len blobs < 65537 },
}

impl OpenPack {
    pub(crate) fn new(alloc: Global) -> OpenPack {
        OpenPack {
            blobs: Vec::new(alloc),
            size: 0,
        }
    }

    /// Adds a piece of a file, as far as there is room.
    fn add(&mut self, piece: HashedPiece) -> Result<(), AllocError> {
        let HashedPiece { bytes, id } = piece;
        let length = bytes.len();
        if length >= 4_294_967_296 || self.blobs.len() >= MOST_BLOBS {
            return Ok(());
        }
        let blob_type = BlobType::Content;
        self.blobs.push((BlobId { id, blob_type }, bytes))?;
        self.size = self.size.saturating_add(length);
        Ok(())
    }

    fn is_full(&self) -> bool {
        self.size >= FULL_PACK || self.blobs.len() >= MOST_BLOBS
    }
}
