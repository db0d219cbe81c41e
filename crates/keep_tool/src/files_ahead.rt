ghost use Rattle.keep_book.specs.Armed.{HasSums};

use keep_ahead::{Ahead, AheadHashing, AheadSource, HashedAhead};
use keep_backing::{Asked, asked_for, backup};
use keep_book::Book;
use keep_catalog::Hashing;
use keep_host_source::HostSource;
use keep_run::{Failure, Run};
use keep_shelf::Shelf;
use keep_sources::Scope;
use keep_words::Backup;
use std::alloc::{AllocError, Global};
use std::sync::{Arc, Wait};
use std::thread::Threads;

/// `keep backup`, of files that are read and hashed while what was read before is stored. Where a file that was known
/// lacks a piece by now all are read.
pub(crate) fn back_up<S: Shelf, H: Hashing + Wait + Threads + Copy + Send + 'static>(
    run: &Run<'_>,
    hashing: H,
    book: &mut Book<S>,
    words: &Backup<'_>,
) -> Result<(), Failure>
    requires { HasSums book.old }
{
    let asked = asked_for(run, book, words)?;
    match back_up_asked(run, hashing, book, words, asked)? {
        Some(anew) => {
            back_up_asked(run, hashing, book, words, anew)?;
            Ok(())
        }
        None => Ok(()),
    }
}

/// Backs up what is asked for, or hands back what is to be asked for then.
fn back_up_asked<S: Shelf, H: Hashing + Wait + Threads + Copy + Send + 'static>(
    run: &Run<'_>,
    hashing: H,
    book: &mut Book<S>,
    words: &Backup<'_>,
    asked: Asked,
) -> Result<Option<Asked>, Failure>
    requires { HasSums book.old }
    ensures { HasSums book.new }
{
    let hashed = HashedAhead::new(run.alloc);
    let source = files_ahead(run, hashing, &hashed, asked.job())?;
    let hashing = AheadHashing::new(&hashed, hashing);
    backup(run, source, hashing, book, words, asked)
}

/// The files of the machine, which another thread goes through ahead. Who hashes is the leave to start it, and to wait.
fn files_ahead<'a, H: Hashing + Wait + Threads + Copy + Send + 'static>(
    run: &Run<'_>,
    hashing: H,
    hashed: &'a HashedAhead,
    job: &Arc<Scope, Global>,
) -> Result<AheadSource<'a, HostSource<HostRuntime>, H>, AllocError> {
    let ahead = Ahead {
        source: HostSource::new(run.rt.clone()?, "/")?,
        job: Arc::try_clone(job)?,
        hashing,
        cut: run.settings().cut.piece_length(),
    };
    let source = HostSource::new(run.rt.clone()?, "/")?;
    AheadSource::new(run.alloc, hashing, source, ahead, hashed)
}
