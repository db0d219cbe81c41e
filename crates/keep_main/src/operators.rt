use crate::crew_run::crewed;
use keep_book::Book;
use keep_command::{Crew, CrewTally, NamedShelf, NoCrew, Order};
use std::alloc::AllocError;
use std::marker::PhantomData;
use std::sync::Wait;
use std::thread::Threads;

/// Has operators work in threads.
///
/// It is the leave to start threads and to wait that a handle gives, without the handle: it has no bytes, and each
/// thread may have it.
pub(crate) struct Operators<R> {
    of: PhantomData<R>,
}

impl<R: Wait + Threads> Operators<R> {
    /// In threads that this handle gives leave to start.
    pub fn new(_rt: &R) -> Operators<R> {
        Operators { of: PhantomData }
    }
}

impl<R> Clone for Operators<R> {
    fn clone(&self) -> Result<Operators<R>, AllocError> {
        Ok(*self)
    }
}

impl<R> Copy for Operators<R> {}

impl<R: Wait> Wait for Operators<R> {}

impl<R: Threads> Threads for Operators<R> {}

impl<R: Wait + Threads + Send + Sync> Crew for Operators<R> {
    ghost answers = { λ _ _. Unit {0} };

    fn work<'s>(
        &self,
        book: Book<NamedShelf<'s>>,
        order: Order<'_>,
    ) -> (Book<NamedShelf<'s>>, Result<CrewTally, NoCrew>) {
        crewed(self, book, order)
    }
}
