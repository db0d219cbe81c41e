use crate::ahead_source::Ahead;
use crate::answer::Told;
use crate::going::{Going, LastRead};
use crate::hashed::HashedPiece;
use crate::packs_ahead::{OpenPack, PacksAhead};
use crossbeam_channel::{Receiver, Sender};
use keep_hashing::Hashing;
use keep_sources::{Source, Stop, Taking};
use std::alloc::{AllocError, Global};
use std::cell::Cell;
use std::collections::BTreeSet;
use std::rc::Rc;
use std::sync::Wait;

/// To whom what is found ahead is told.
#[derive(Drop)]
pub(crate) struct Telling<S: Source> {
    pub(crate) answers: Sender<Told<S>, Global>,
    pub(crate) leaves: Receiver<(), Global>,
    pub(crate) packs: Sender<Receiver<Vec<HashedPiece>, Global>, Global>,
}

/// Goes through all that will be asked for.
pub(crate) fn go<S, R, H>(alloc: Global, rt: R, ahead: Ahead<S, H>, telling: Telling<S>)
where
    S: Source,
    R: Wait + Clone + Drop,
    H: Hashing + Copy + Drop,
{
    let _gone = walk(alloc, rt, ahead, telling);
}

fn walk<S, R, H>(alloc: Global, rt: R, ahead: Ahead<S, H>, telling: Telling<S>) -> Result<(), Stop>
where
    S: Source,
    R: Wait + Clone + Drop,
    H: Hashing + Copy + Drop,
{
    let Ahead {
        source,
        job,
        hashing,
        cut,
    } = ahead;
    let Telling {
        answers,
        leaves,
        packs,
    } = telling;
    let last = no_read(alloc)?;
    let packs = PacksAhead {
        alloc,
        rt: rt.clone()?,
        hashing,
        last: last.clone()?,
        cut,
        rest: None,
        seen: BTreeSet::new(alloc),
        open: OpenPack::new(alloc),
        packs: Vec::new(alloc),
        held: 0,
        told: Some(packs),
    };
    let going = Going {
        alloc,
        rt,
        source,
        hashing,
        cut,
        answers: Some(answers),
        leaves,
        last,
    };
    let mut taking = Taking::new(alloc, going, packs)?;
    taking.take(&job)
}

/// Nothing was read yet.
fn no_read(alloc: Global) -> Result<LastRead, AllocError> {
    match Rc::new(alloc, Cell::new(Vec::new(alloc))) {
        Ok(last) => Ok(last),
        Err(failed) => Err(AllocError::from(failed)),
    }
}
