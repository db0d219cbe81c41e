ghost use Rattle.std.specs.Prelude.{◌<◌, string_bytes};
ghost use Rattle.keep_ahead.specs.Answer.{IsTold};

use crate::answer::{Answer, ReadBytes, Told};
use crate::brief::{brief, names_of};
use crate::hashed::{HashedPiece, hashed_pieces};
use crossbeam_channel::{Receiver, Sender};
use keep_hashing::{Hashing, OneByOne};
use keep_sources::{FolderListing, Source, Stat, Why};
use std::alloc::{AllocError, Global};
use std::cell::Cell;
use std::marker::PhantomData;
use std::rc::Rc;
use std::sync::Wait;

/// Of so many bytes of a read each is held ahead by a leave of its own.
pub(crate) const LEAVE: usize = 1_048_576;

/// The pieces of what was read last.
pub(crate) type LastRead = Rc<Cell<Vec<HashedPiece>>, Global>;

/// The calls of a source, made ahead of who asks for them: what each answers is sent there. Where that can't be, each call
/// fails from then on, so that the walk ends.
#[derive(Drop)]
pub(crate) struct Going<S: Source, R, H> {
    pub(crate) alloc: Global,
    pub(crate) rt: R,
    pub(crate) source: S,
    pub(crate) hashing: H,
    /// How many bytes a piece has that is hashed.
    pub(crate) cut: usize,
    /// None where nothing is sent any more.
    pub(crate) answers: Option<Sender<Told<S>, Global>>,
    /// Who asks gives leave for what is held ahead.
    pub(crate) leaves: Receiver<(), Global>,
    pub(crate) last: LastRead,
    pub ghost some: { 0 < cut },
}

impl<S: Source, R: Wait + Drop, H: Hashing + Drop> Source for Going<S, R, H> {
    ghost use Rattle.keep_sources.specs.Told.{anything};

    ghost told = { anything };

    fn look(&mut self, path: &str) -> Result<Stat, Why> {
        self.require_heard()?;
        let seen = self.source.look(path);
        let sight = match &seen {
            Ok(seen) => Ok(brief(seen)),
            Err(why) => Err(*why),
        };
        self.send(path, Answer::Look(seen))?;
        sight
    }

    fn list(&mut self, folder: &str, seen: &Stat) -> Result<FolderListing, Why> {
        self.require_heard()?;
        let listing = self.source.list(folder, seen);
        let Ok(names) = names_of(self.alloc, &listing) else {
            return Err(self.end());
        };
        self.send(folder, Answer::FolderList(listing))?;
        names
    }

    fn open(&mut self, path: &str, seen: &Stat) -> Result<(), Why> {
        self.require_heard()?;
        let opened = self.source.open(path, seen);
        self.send(path, Answer::Open(opened))?;
        opened
    }

    fn read(&mut self, path: &str, offset: u64, piece: &mut [u8]) -> Result<usize, Why> {
        self.require_heard()?;
        let count = match self.source.read(path, offset, piece) {
            Ok(count) => count,
            Err(why) => {
                self.send(path, Answer::Read(offset, Err(why)))?;
                return Err(why);
            }
        };
        for _ in 0..count / LEAVE {
            if self.leaves.recv(&self.rt).is_err() {
                return Err(self.end());
            }
        }
        let Ok(read) = self.read_bytes(offset, &piece[..count]) else {
            return Err(self.end());
        };
        self.send(path, Answer::Read(offset, Ok(read)))?;
        Ok(count)
    }
}

impl<S: Source, R: Wait + Drop, H: Hashing + Drop> Going<S, R, H> {
    ghost use Rattle.std.specs.Prelude.{◌≡◌, IfOk};

    /// Fails where nobody is told any more.
    fn require_heard(&self) -> Result<(), Why> {
        match self.answers {
            Some(_) => Ok(()),
            None => Err(Why::Failed),
        }
    }

    /// Nothing is sent any more.
    fn end(&mut self) -> Why {
        self.answers = None;
        Why::Failed
    }

    /// Sends what a call for this path answered.
    fn send(&mut self, path: &str, answer: Answer) -> Result<(), Why>
        requires { ∥ IsTold S.told path.now answer ∥₁ }
    {
        let is_sent = match (&self.answers, told(self.alloc, path, answer)) {
            (Some(answers), Ok(told)) => answers.send(&self.rt, told).is_ok(),
            _ => false,
        };
        if is_sent { Ok(()) } else { Err(self.end()) }
    }

    /// What was read from this offset on, hashed where it begins with a piece of the file.
    fn read_bytes(&mut self, offset: u64, bytes: &[u8]) -> Result<ReadBytes, AllocError>
        ensures { IfOk result (λ read. read.bytes.items ≡ bytes.now) }
    {
        let bytes = Vec::from_slice(self.alloc, bytes)?;
        let mut pieces = Vec::new(self.alloc);
        if !bytes.is_empty() && offset.is_multiple_of(self.cut as u64) {
            pieces = pieces_of(self.alloc, &bytes, self.cut)?;
        }
        let hashed = if bytes.len() <= LEAVE {
            hashed_pieces(self.alloc, pieces, &mut OneByOne)?
        } else {
            hashed_pieces(self.alloc, pieces, &mut self.hashing)?
        };
        self.last.set(copies(self.alloc, &hashed)?);
        Ok(ReadBytes { bytes, hashed })
    }
}

/// What this source told of the path.
fn told<S: Source>(alloc: Global, path: &str, answer: Answer) -> Result<Told<S>, AllocError>
    requires { ∥ IsTold S.told path.now answer ∥₁ }
{
    Ok(Told {
        path: String::from_str(alloc, path)?,
        answer,
        of: PhantomData,
    })
}

/// The bytes in pieces of this length, and the shorter one behind them, which may have none.
fn pieces_of(alloc: Global, bytes: &[u8], cut: usize) -> Result<Vec<Vec<u8>>, AllocError>
    requires { 0 < cut }
{
    let mut pieces = Vec::new(alloc);
    for chunk in bytes.chunks(cut) {
        pieces.push(Vec::from_slice(alloc, chunk)?)?;
    }
    if bytes.len().is_multiple_of(cut) {
        pieces.push(Vec::new(alloc))?;
    }
    Ok(pieces)
}

/// The pieces once more. Their bytes are shared.
fn copies(alloc: Global, pieces: &[HashedPiece]) -> Result<Vec<HashedPiece>, AllocError> {
    let mut copies = Vec::with_capacity(alloc, pieces.len())?;
    for piece in pieces {
        copies.push(piece.copy()?)?;
    }
    Ok(copies)
}
