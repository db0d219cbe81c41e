ghost use Rattle.std.specs.Prelude.{◌≡◌, ◌≤◌, IfOk, IfSome, length, map, take};
ghost use Rattle.std.specs.Arc.{arc_slice_items};
ghost use Rattle.std.specs.Vec.{vec_len};
ghost use Rattle.keep_names.specs.Sha256.{sha256};

use crossbeam_channel::Receiver;
use keep_hashing::Hashing;
use keep_names::Id;
use std::alloc::{AllocError, Global};
use std::cell::Cell;
use std::sync::{ArcSlice, Wait};

/// Bytes with their SHA-256.
#[derive(Drop)]
pub(crate) struct HashedPiece {
    pub(crate) bytes: ArcSlice<u8, Global>,
    pub(crate) id: Id,
    pub ghost own: { id.0 ≡ sha256 (arc_slice_items bytes) },
}

impl HashedPiece {
    /// Bytes that have this id.
    fn of(bytes: ArcSlice<u8, Global>, id: Id) -> HashedPiece
        requires { id.0 ≡ sha256 (arc_slice_items bytes) }
    {
        HashedPiece { bytes, id }
    }

    /// It once more. Its bytes are shared.
    pub(crate) fn copy(&self) -> Result<HashedPiece, AllocError> {
        Ok(HashedPiece::of(self.bytes.clone()?, self.id))
    }
}

/// Where packs come from that were made ahead, those of one part after those of another.
pub(crate) type ComingPacks = Receiver<Receiver<Vec<HashedPiece>, Global>, Global>;

/// What was hashed ahead: of the bytes that were read last, and of packs.
#[derive(Drop)]
pub struct HashedAhead {
    pieces: Cell<Vec<HashedPiece>>,
    /// None where no packs come any more.
    packs: Cell<Option<ComingPacks>>,
}

impl HashedAhead {
    /// Nothing is read yet.
    pub fn new(alloc: Global) -> HashedAhead {
        HashedAhead {
            pieces: Cell::new(Vec::new(alloc)),
            packs: Cell::new(None),
        }
    }

    /// These are the pieces of what was read now.
    pub(crate) fn put(&self, pieces: Vec<HashedPiece>) {
        self.pieces.set(pieces);
    }

    /// Packs come from there.
    pub(crate) fn expect_packs(&self, packs: ComingPacks) {
        self.packs.set(Some(packs));
    }

    fn take(&self, alloc: Global) -> Vec<HashedPiece> {
        self.pieces.replace(Vec::new(alloc))
    }

    /// The packs of the part that ends here, if they are under way. There may be none: so it is asked for each part.
    fn take_packs<R: Wait>(&self, alloc: Global, rt: &R) -> Vec<HashedPiece> {
        let Some(coming) = self.packs.take() else {
            return Vec::new(alloc);
        };
        let Ok(packs) = coming.try_recv(rt) else {
            return Vec::new(alloc);
        };
        let Ok(packs) = packs.recv(rt) else {
            return Vec::new(alloc);
        };
        self.packs.set(Some(coming));
        packs
    }

    /// What came isn't what was asked for. No more is waited for, and no more is made.
    fn forget_packs(&self) {
        self.packs.set(None);
    }
}

/// Hashes as another does, but not what was hashed ahead.
#[derive(Clone, Copy)]
pub struct AheadHashing<'a, H> {
    ahead: &'a HashedAhead,
    hashing: H,
}

impl<'a, H: Hashing + Wait + Copy> AheadHashing<'a, H> {
    /// What isn't there is hashed by this.
    pub fn new(ahead: &'a HashedAhead, hashing: H) -> AheadHashing<'a, H> {
        AheadHashing { ahead, hashing }
    }
}

impl<H: Hashing + Wait + Copy> Hashing for AheadHashing<'_, H> {
    fn begin(&mut self, bytes: u64) {
        self.hashing.begin(bytes);
    }

    fn ids(&mut self, alloc: Global, pieces: &[&[u8]]) -> Result<Vec<Id>, AllocError> {
        let hashed = self.ahead.take(alloc);
        let ids = known_ids(alloc, &hashed, pieces)?;
        if !pieces.is_empty() && ids.len() == pieces.len() {
            return Ok(ids);
        }
        let packs = self.ahead.take_packs(alloc, &self.hashing);
        let ids = known_ids(alloc, &packs, pieces)?;
        if ids.len() < packs.len() {
            self.ahead.forget_packs();
        }
        with_rest(alloc, ids, pieces, &mut self.hashing)
    }
}

/// The SHA-256 of each of the first pieces, as far as these were hashed.
fn known_ids(alloc: Global, hashed: &[HashedPiece], pieces: &[&[u8]]) -> Result<Vec<Id>, AllocError>
    ensures count { IfOk result (λ ids. vec_len ids ≤ length pieces.now) }
    ensures ids { IfOk result (λ ids. map (λ id. id.0) ids.items
        ≡ map (λ piece. sha256 piece.now) (take (vec_len ids) pieces.now)) }
{
    let mut ids = Vec::with_capacity(alloc, hashed.len())?;
    for piece in pieces {
        let Some(id) = id_at(hashed, ids.len(), piece) else {
            break;
        };
        ids.push(id)?;
    }
    Ok(ids)
}

/// The SHA-256 of each piece, where those of the first are known.
fn with_rest<H: Hashing>(
    alloc: Global,
    ids: Vec<Id>,
    pieces: &[&[u8]],
    hashing: &mut H,
) -> Result<Vec<Id>, AllocError>
    requires count { vec_len ids ≤ length pieces.now }
    requires ids { map (λ id. id.0) ids.items
        ≡ map (λ piece. sha256 piece.now) (take (vec_len ids) pieces.now) }
    ensures { IfOk result (λ ids. map (λ id. id.0) ids.items ≡ map (λ piece. sha256 piece.now) pieces.now) }
{
    let rest = &pieces[ids.len()..];
    let mut ids = ids;
    let hashes = hashing.ids(alloc, rest)?;
    ids.extend_from_slice(&hashes)?;
    Ok(ids)
}

/// The SHA-256 of the bytes, where they are those of the piece at this place.
fn id_at(hashed: &[HashedPiece], place: usize, bytes: &[u8]) -> Option<Id>
    ensures { IfSome result (λ id. id.0 ≡ sha256 bytes.now) }
{
    match hashed.get(place) {
        Some(one) if one.bytes.as_slice() == bytes => Some(one.id),
        _ => None,
    }
}

/// These pieces of bytes, hashed together.
pub(crate) fn hashed_pieces<H: Hashing>(
    alloc: Global,
    pieces: Vec<Vec<u8>>,
    hashing: &mut H,
) -> Result<Vec<HashedPiece>, AllocError> {
    let ids = ids_of(alloc, &pieces, hashing)?;
    with_ids(alloc, pieces, ids)
}

/// The SHA-256 of each piece.
fn ids_of<H: Hashing>(
    alloc: Global,
    pieces: &[Vec<u8>],
    hashing: &mut H,
) -> Result<Vec<Id>, AllocError>
    ensures { IfOk result (λ ids. map (λ id. id.0) ids.items ≡ map (λ bytes. sha256 bytes.items) pieces.now) }
{
    let texts = texts_of(alloc, pieces)?;
    let ids = hashing.ids(alloc, &texts)?;
    Ok(ids)
}

/// The bytes of each piece.
fn texts_of<'a>(alloc: Global, pieces: &'a [Vec<u8>]) -> Result<Vec<&'a [u8]>, AllocError>
    ensures { IfOk result (λ texts. map (λ text. text.now) texts.items ≡ map (λ bytes. bytes.items) pieces.entry.now) }
{
    let mut texts = Vec::with_capacity(alloc, pieces.len())?;
    for bytes in pieces {
        texts.push(bytes.as_slice())?;
    }
    Ok(texts)
}

/// Each piece with its id.
fn with_ids(
    alloc: Global,
    pieces: Vec<Vec<u8>>,
    ids: Vec<Id>,
) -> Result<Vec<HashedPiece>, AllocError>
    requires { map (λ id. id.0) ids.items ≡ map (λ bytes. sha256 bytes.items) pieces.items }
{
    let mut hashed = Vec::with_capacity(alloc, ids.len())?;
    for (bytes, id) in pieces.into_iter().zip(ids) {
        hashed.push(HashedPiece::of(ArcSlice::from_vec(bytes)?, id))?;
    }
    Ok(hashed)
}
