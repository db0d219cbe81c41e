ghost use Rattle.std.specs.Prelude.{◌≡◌, ◌≤◌, ◌<◌, IfErr, IfOk, IfSome, length, take};
ghost use Rattle.keep_ahead.specs.Answer.{IsTold, merely};

use crate::answer::{Answer, ReadBytes, Told};
use crate::brief::brief;
use crate::going::LEAVE;
use crate::hashed::HashedAhead;
use crate::telling::{Telling, go};
use crossbeam_channel::{Receiver, Sender, bounded, unbounded};
use keep_hashing::Hashing;
use keep_sources::{FolderListing, Scope, Source, Stat, Why};
use std::alloc::{AllocError, Global};
use std::sync::{Arc, Wait};
use std::thread::{self, JoinHandle, Threads};

/// How many answers are held ahead at most.
const MOST_ANSWERS: usize = 256;

/// How many leaves there are: as many bytes may be held ahead as a part of a backup has, and a read more.
const MOST_LEAVES: usize = 80;

/// How a source is gone through ahead.
#[derive(Drop)]
pub struct Ahead<S, H> {
    /// A source of its own, of the files that will be asked for.
    pub source: S,
    /// What will be asked for.
    pub job: Arc<Scope, Global>,
    pub hashing: H,
    /// How many bytes a piece has that is hashed.
    pub cut: usize,
    pub ghost some: { 0 < cut },
}

/// A source whose calls are answered by what another one told ahead, where that is of the same call. Else, and from then on,
/// it is asked itself.
pub struct AheadSource<'a, S: Source, R: Wait + Threads> {
    rt: R,
    source: S,
    /// None where nothing more comes ahead.
    coming: Option<Coming<S>>,
    hashed: &'a HashedAhead,
    /// The file that was opened ahead, as it was seen.
    opened: Option<Stat>,
}

/// What comes ahead.
struct Coming<S: Source> {
    answers: Receiver<Told<S>, Global>,
    leaves: Sender<(), Global>,
    thread: JoinHandle<()>,
}

impl<'a, S: Source + Send + 'static, R: Wait + Threads + Clone + Drop + Send + 'static> AheadSource<
    'a,
    S,
    R,
> {
    /// This source, while another thread goes ahead of it. Where no thread can be started it is asked itself.
    pub fn new<H: Hashing + Copy + Send + Drop + 'static>(
        alloc: Global,
        rt: R,
        source: S,
        ahead: Ahead<S, H>,
        hashed: &'a HashedAhead,
    ) -> Result<AheadSource<'a, S, R>, AllocError> {
        let coming = begun(alloc, &rt, ahead, hashed)?;
        Ok(AheadSource {
            rt,
            source,
            coming,
            hashed,
            opened: None,
        })
    }
}

/// Has a thread go ahead, if one can be started.
fn begun<S, R, H>(
    alloc: Global,
    rt: &R,
    ahead: Ahead<S, H>,
    hashed: &HashedAhead,
) -> Result<Option<Coming<S>>, AllocError>
where
    S: Source + Send + 'static,
    R: Wait + Threads + Clone + Drop + Send + 'static,
    H: Hashing + Copy + Send + Drop + 'static,
{
    let (answers, told) = bounded(alloc, MOST_ANSWERS)?;
    let (leaves, given) = bounded(alloc, MOST_LEAVES)?;
    let (packs, coming) = unbounded(alloc)?;
    for _ in 0..MOST_LEAVES {
        let _given = leaves.send(rt, ());
    }
    let telling = Telling {
        answers,
        leaves: given,
        packs,
    };
    let own = rt.clone()?;
    let Ok(thread) = thread::spawn(rt, move || go(alloc, own, ahead, telling)) else {
        return Ok(None);
    };
    hashed.expect_packs(coming);
    Ok(Some(Coming {
        answers: told,
        leaves,
        thread,
    }))
}

impl<S: Source, R: Wait + Threads + Drop> AheadSource<'_, S, R> {
    /// What came for this path, where it is what comes next.
    fn next(&mut self, path: &str) -> Option<Answer>
        ensures { IfSome result (λ answer. ∥ IsTold S.told path.now answer ∥₁) }
    {
        let answer = match &self.coming {
            Some(coming) => answer_of(coming.answers.recv(&self.rt), path),
            None => return None,
        };
        if answer.is_none() {
            self.stop();
        }
        answer
    }

    /// Nothing more comes ahead.
    fn stop(&mut self) {
        if let Some(coming) = self.coming.take() {
            end(&self.rt, coming);
        }
    }

    /// Has as many bytes more come.
    fn give_leave(&self, count: usize) {
        if let Some(coming) = &self.coming {
            for _ in 0..count / LEAVE {
                let _given = coming.leaves.send(&self.rt, ());
            }
        }
    }

    /// Reads the file itself.
    fn read_itself(&mut self, path: &str, offset: u64, piece: &mut [u8]) -> Result<usize, Why>
        ensures fits { IfOk result (λ count. count ≤ length piece.new) }
        ensures read { IfOk result (λ count. ∥ S.told.read path.now offset (take count piece.new) ∥₁) }
        ensures lost { IfErr result (λ why. ∥ S.told.lost path.now why ∥₁) }
    {
        self.stop();
        if let Some(seen) = self.opened.take() {
            self.source.open(path, &seen)?;
        }
        self.source.read(path, offset, piece)
    }

    /// Hands on what was read ahead.
    fn hand_on(&mut self, read: ReadBytes, piece: &mut [u8]) -> usize
        requires { length read.bytes.items ≤ length piece.old }
        ensures fits { result ≤ length piece.new }
        ensures bytes { take result piece.new ≡ read.bytes.items }
    {
        let ReadBytes { bytes, hashed } = read;
        let count = bytes.len();
        piece[..count].copy_from_slice(&bytes);
        if count > 0 {
            self.hashed.put(hashed);
        }
        self.give_leave(count);
        count
    }
}

/// What was received, where it is of this path.
fn answer_of<S: Source, E: Drop>(received: Result<Told<S>, E>, path: &str) -> Option<Answer>
    ensures { IfSome result (λ answer. ∥ IsTold S.told path.now answer ∥₁) }
{
    let Ok(told) = received else {
        return None;
    };
    let is_asked = told.path.as_str() == path;
    if is_asked { Some(told.answer) } else { None }
}

/// Waits until the thread has ended, which nobody hears any more.
fn end<S: Source, R: Wait + Threads>(rt: &R, coming: Coming<S>) {
    let Coming {
        answers,
        leaves,
        thread,
    } = coming;
    drop(answers);
    drop(leaves);
    thread.join(rt);
}

impl<S: Source, R: Wait + Threads + Drop> Source for AheadSource<'_, S, R> {
    ghost told = { merely S.told };

    fn look(&mut self, path: &str) -> Result<Stat, Why> {
        match self.next(path) {
            Some(Answer::Look(seen)) => seen,
            _ => {
                self.stop();
                self.source.look(path)
            }
        }
    }

    fn list(&mut self, folder: &str, seen: &Stat) -> Result<FolderListing, Why> {
        match self.next(folder) {
            Some(Answer::FolderList(listing)) => listing,
            _ => {
                self.stop();
                self.source.list(folder, seen)
            }
        }
    }

    fn open(&mut self, path: &str, seen: &Stat) -> Result<(), Why> {
        match self.next(path) {
            Some(Answer::Open(opened)) => {
                self.opened = Some(brief(seen));
                opened
            }
            _ => {
                self.stop();
                self.opened = None;
                self.source.open(path, seen)
            }
        }
    }

    fn read(&mut self, path: &str, offset: u64, piece: &mut [u8]) -> Result<usize, Why> {
        let Some(Answer::Read(from, read)) = self.next(path) else {
            return self.read_itself(path, offset, piece);
        };
        if from != offset {
            return self.read_itself(path, offset, piece);
        }
        let read = read?;
        if read.bytes.len() > piece.len() {
            return self.read_itself(path, offset, piece);
        }
        Ok(self.hand_on(read, piece))
    }
}

impl<S: Source, R: Wait + Threads + Drop> Drop for AheadSource<'_, S, R> {
    fn drop(self) {
        let AheadSource {
            rt,
            source: _,
            coming,
            hashed: _,
            opened: _,
        } = self;
        if let Some(coming) = coming {
            end(&rt, coming);
        }
    }
}
