//! Answers a table of sources, one a line, with what an archive is given of each, and what is named. A source that another
//! thread goes through ahead has to answer the same.

mod copy;
mod memory_source;
mod said_entry;
mod source_entry;
mod source_events;
mod source_words;

use crate::case_words::number_in;
use crate::no_case::No;
use crate::sources::memory_source::MemorySource;
use crate::sources::said_entry::{bare, entry_of};
use crate::sources::source_entry::Entry;
use crate::sources::source_events::Events;
use crate::sources::source_words::{text_of, words_in};
use keep_ahead::{Ahead, AheadSource, HashedAhead};
use keep_hashing::OneByOne;
use keep_names::parse_id;
use keep_patterns::parse_pattern;
use keep_sources::{Known, Moment, Scope, Source, StatKind, Taking};
use std::alloc::Global;
use std::collections::{BTreeMap, HashMap};
use std::io;
use std::sync::{Arc, Wait};
use std::thread::Threads;

/// How many bytes are hashed together ahead.
const CUT: usize = 65_536;

/// What a line asks for: a source, and what is to be taken of it.
#[derive(Drop)]
struct Case {
    entries: BTreeMap<String, Entry>,
    job: Scope,
    held: u64,
}

/// Answers the lines of the table.
pub(crate) fn answer<T>(rt: &HostRuntime, threads: &T, lines: &[String]) -> io::Result<()>
where
    T: Wait + Threads + Clone + Drop + Send + 'static,
{
    for line in lines {
        match answer_line(rt.alloc(), threads, line.as_str()) {
            Ok(text) => println!(rt; "{text}")?,
            Err(no) => println!(rt; "no {no}")?,
        }
    }
    Ok(())
}

/// The answer to a line. An empty line and a comment are their own.
fn answer_line<T>(alloc: Global, threads: &T, line: &str) -> Result<String, No>
where
    T: Wait + Threads + Clone + Drop + Send + 'static,
{
    if line.is_empty() || line.starts_with('#') {
        return Ok(String::from_str(alloc, line)?);
    }
    let Case { entries, job, held } = read_case(alloc, line)?;
    let source = MemorySource::new(alloc, entries);
    let text = walked(alloc, source, &job, held)?;
    if walked_ahead(alloc, threads, line)?.as_str() == text.as_str() {
        Ok(text)
    } else {
        Err(No::Ahead)
    }
}

/// What is given of the source, and what is named.
fn walked<S: Source>(alloc: Global, source: S, job: &Scope, held: u64) -> Result<String, No> {
    let mut taking = Taking::new(alloc, source, Events::new(alloc, held))?;
    taking.take(job)?;
    let mut skips = Events::new(alloc, 0);
    for skipped in taking.skipped() {
        skips.add_skip(skipped.path.as_str(), skipped.why)?;
    }
    let (_, mut events) = taking.into_parts();
    let skips = skips.into_text();
    if !skips.is_empty() {
        events.add(skips.as_str())?;
    }
    Ok(events.into_text())
}

/// What is given of the source, and what is named, where another thread goes ahead.
fn walked_ahead<T>(alloc: Global, threads: &T, line: &str) -> Result<String, No>
where
    T: Wait + Threads + Clone + Drop + Send + 'static,
{
    let Case { entries, job, held } = read_case(alloc, line)?;
    let hashed = HashedAhead::new(alloc);
    let job = Arc::new(alloc, job)?;
    let ahead = Ahead {
        source: MemorySource::new(alloc, entries),
        job: Arc::try_clone(&job)?,
        hashing: OneByOne,
        cut: CUT,
    };
    let source = MemorySource::new(alloc, read_case(alloc, line)?.entries);
    let source = AheadSource::new(alloc, threads.clone()?, source, ahead, &hashed)?;
    walked(alloc, source, &job, held)
}

fn read_case(alloc: Global, line: &str) -> Result<Case, No> {
    let mut entries = BTreeMap::new(alloc);
    entries.insert(String::new(alloc), bare(alloc, StatKind::Folder))?;
    let job = Scope {
        paths: Vec::new(alloc),
        excludes: Vec::new(alloc),
        known: HashMap::new(alloc),
    };
    let mut case = Case {
        entries,
        job,
        held: 0,
    };
    for part in line.split(" ; ") {
        read_part(alloc, &mut case, part)?;
    }
    if case.job.paths.is_empty() {
        case.job.paths.push(String::new(alloc))?;
    }
    Ok(case)
}

fn read_part(alloc: Global, case: &mut Case, part: &str) -> Result<(), No> {
    let words = words_in(alloc, part)?;
    match words.as_slice() {
        ["take", path] => case.job.paths.push(text_of(alloc, path)?)?,
        ["exclude", pattern] => case.job.excludes.push(parse_pattern(alloc, pattern)?)?,
        ["held", count] => case.held = number_in(count)?,
        ["deep", count] => dig(alloc, case, number_in(count)?)?,
        ["known", path, rest @ ..] => know(alloc, case, path, rest)?,
        [path, rest @ ..] => {
            case.entries
                .insert(text_of(alloc, path)?, entry_of(alloc, rest)?)?;
        }
        [] => return Err(No::Case),
    }
    Ok(())
}

/// So many folders `d` in each other.
fn dig(alloc: Global, case: &mut Case, count: u64) -> Result<(), No> {
    let mut path = String::new(alloc);
    for _ in 0..count {
        if !path.is_empty() {
            path.push('/')?;
        }
        path.push('d')?;
        case.entries
            .insert(path.clone()?, bare(alloc, StatKind::Folder))?;
    }
    Ok(())
}

fn know(alloc: Global, case: &mut Case, path: &str, words: &[&str]) -> Result<(), No> {
    let [size, nanoseconds, ids @ ..] = words else {
        return Err(No::Case);
    };
    let mut content = Vec::new(alloc);
    for id in ids {
        content.push(parse_id(id)?)?;
    }
    let Ok(nanoseconds) = nanoseconds.parse::<u32>() else {
        return Err(No::Case);
    };
    let mtime = Moment {
        seconds: 0,
        nanoseconds,
    };
    let known = Known {
        size: number_in(size)?,
        mtime,
        content,
    };
    case.job.known.insert(text_of(alloc, path)?, known)?;
    Ok(())
}
