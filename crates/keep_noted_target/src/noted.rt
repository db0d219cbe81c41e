ghost use Rattle.std.specs.Prelude.{◌≡◌, ◌∷◌, ◌++◌, [], IfOk, string_bytes};
ghost use Rattle.keep_targets.specs.Call.{Refused, appended};
ghost use Rattle.keep_targets.specs.Deeds.{call_of};

use crate::store::Store;
use keep_log::Log;
use keep_targets::{NotedCall, Owner, Short, Target, TargetError, Times};
use std::alloc::{AllocError, Global};

/// A target over the calls of a store. The record of what was asked is for contracts alone: nothing of it is kept.
#[derive(Drop)]
pub struct NotedTarget<S> {
    alloc: Global,
    store: S,
    is_new: bool,
    calls: Log<NotedCall>,
}

impl<S: Store> NotedTarget<S> {
    ghost use Rattle.keep_noted_target.specs.Noted.{as_noted, calls_in, is_new_in};

    /// What is asked goes to this store. Whether nothing is in its root is for the caller to say.
    pub fn new(alloc: Global, store: S, is_new: bool) -> NotedTarget<S>
        ensures calls { calls_in result ≡ [] }
        ensures is_new { is_new_in result ≡ is_new }
    {
        NotedTarget {
            alloc,
            store,
            is_new,
            calls: Log::new(),
        }
    }

    /// The store.
    pub fn into_store(self) -> S {
        self.store
    }

    fn text(&self, text: &str) -> Result<String, TargetError>
        ensures { IfOk result (λ copy. string_bytes copy ≡ text.now) }
    {
        match String::from_str(self.alloc, text) {
            Ok(copy) => Ok(copy),
            Err(AllocError) => Err(TargetError::Memory),
        }
    }

    fn texts(&self, text: &str, other: &str) -> Result<(String, String), TargetError>
        ensures { IfOk result (λ copies. (string_bytes copies.0 ≡ text.now) × (string_bytes copies.1 ≡ other.now)) }
    {
        let first = self.text(text)?;
        let second = self.text(other)?;
        Ok((first, second))
    }

    /// What is noted where bytes are appended.
    fn appending(&self, path: &str, bytes: &[u8]) -> Result<(String, Vec<u8>), TargetError>
        ensures { IfOk result (λ copies. (string_bytes copies.0 ≡ path.now) × (copies.1.items ≡ bytes.now)) }
    {
        let text = self.text(path)?;
        match Vec::from_slice(self.alloc, bytes) {
            Ok(copy) => Ok((text, copy)),
            Err(AllocError) => Err(TargetError::Memory),
        }
    }

    /// Notes how a call ended that was to append these bytes.
    fn note_append(
        &mut self,
        path: String,
        bytes: Vec<u8>,
        done: Result<(), Short>,
    ) -> Result<(), Short>
        ensures same { result ≡ done }
        ensures noted { calls_in self.new ≡ calls_in self.old
            ++ appended done (string_bytes path) bytes.items ∷ [] }
    {
        match done {
            Ok(()) => {
                self.calls = self.calls.and(&NotedCall::Append(path, bytes));
                Ok(())
            }
            Err(short) if short.written == 0 => {
                self.calls = self.calls.and(&NotedCall::Refuse(short.refusal));
                Err(short)
            }
            Err(short) => {
                self.calls = self.calls.and(&NotedCall::Stop(path, bytes, short));
                Err(short)
            }
        }
    }

    /// Notes how a call ended that was to do this.
    fn note(&mut self, deed: &NotedCall, done: Result<(), TargetError>) -> Result<(), TargetError>
        ensures same { result ≡ done }
        ensures noted { calls_in self.new ≡ calls_in self.old
            ++ as_noted done (call_of deed.now) ∷ [] }
    {
        match done {
            Ok(()) => {
                self.calls = self.calls.and(deed);
                Ok(())
            }
            Err(refusal) => Err(self.refuse(refusal)),
        }
    }

    /// Notes that a call was refused.
    fn refuse(&mut self, refusal: TargetError) -> TargetError
        ensures same { result ≡ refusal }
        ensures noted { calls_in self.new ≡ calls_in self.old ++ Refused refusal ∷ [] }
    {
        self.calls = self.calls.and(&NotedCall::Refuse(refusal));
        refusal
    }
}

impl<S: Store> Target for NotedTarget<S> {
    ghost use Rattle.keep_noted_target.specs.Noted.{calls_in, is_new_in};

    ghost calls = { calls_in };

    ghost is_new = { is_new_in };

    fn is_new(&self) -> bool {
        self.is_new
    }

    fn make_folder(&mut self, path: &str) -> Result<(), TargetError> {
        match self.text(path) {
            Ok(text) => {
                let done = self.store.make_folder(path);
                self.note(&NotedCall::MakeFolder(text), done)
            }
            Err(refusal) => Err(self.refuse(refusal)),
        }
    }

    fn make_file(&mut self, path: &str) -> Result<(), TargetError> {
        match self.text(path) {
            Ok(text) => {
                let done = self.store.make_file(path);
                self.note(&NotedCall::MakeFile(text), done)
            }
            Err(refusal) => Err(self.refuse(refusal)),
        }
    }

    fn append(&mut self, path: &str, bytes: &[u8]) -> Result<(), Short> {
        match self.appending(path, bytes) {
            Ok((text, copy)) => {
                let done = self.store.append(path, bytes);
                self.note_append(text, copy, done)
            }
            Err(refusal) => Err(Short {
                written: 0,
                refusal: self.refuse(refusal),
            }),
        }
    }

    fn make_link(&mut self, path: &str, to: &str) -> Result<(), TargetError> {
        match self.texts(path, to) {
            Ok((text, target)) => {
                let done = self.store.make_link(path, to);
                self.note(&NotedCall::MakeLink(text, target), done)
            }
            Err(refusal) => Err(self.refuse(refusal)),
        }
    }

    fn set_owner(&mut self, path: &str, owner: Owner) -> Result<(), TargetError> {
        match self.text(path) {
            Ok(text) => {
                let done = self.store.set_owner(path, owner);
                self.note(&NotedCall::SetOwner(text, owner), done)
            }
            Err(refusal) => Err(self.refuse(refusal)),
        }
    }

    fn set_link_owner(&mut self, path: &str, owner: Owner) -> Result<(), TargetError> {
        match self.text(path) {
            Ok(text) => {
                let done = self.store.set_link_owner(path, owner);
                self.note(&NotedCall::SetLinkOwner(text, owner), done)
            }
            Err(refusal) => Err(self.refuse(refusal)),
        }
    }

    fn set_mode(&mut self, path: &str, mode: u32) -> Result<(), TargetError> {
        match self.text(path) {
            Ok(text) => {
                let done = self.store.set_mode(path, mode);
                self.note(&NotedCall::SetMode(text, mode), done)
            }
            Err(refusal) => Err(self.refuse(refusal)),
        }
    }

    fn set_times(&mut self, path: &str, times: Times) -> Result<(), TargetError> {
        match self.text(path) {
            Ok(text) => {
                let done = self.store.set_times(path, times);
                self.note(&NotedCall::SetTimes(text, times), done)
            }
            Err(refusal) => Err(self.refuse(refusal)),
        }
    }
}
