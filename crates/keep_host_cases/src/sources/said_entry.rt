use crate::case_words::number_in;
use crate::no_case::No;
use crate::sources::source_entry::{Entry, Failure};
use crate::sources::source_words::text_of;
use keep_sources::{Moment, Stat, StatKind, Why};
use std::alloc::Global;

/// The entry that the words behind a path say.
pub(crate) fn entry_of(alloc: Global, words: &[&str]) -> Result<Entry, No> {
    let [kind, rest @ ..] = words else {
        return Err(No::Case);
    };
    match *kind {
        "file" => file_of(alloc, rest),
        "folder" => options_of(bare(alloc, StatKind::Folder), rest),
        "link" => {
            let [target] = rest else {
                return Err(No::Case);
            };
            Ok(bare(alloc, StatKind::Link(text_of(alloc, target)?)))
        }
        "fifo" => options_of(bare(alloc, StatKind::Fifo), rest),
        "socket" => options_of(bare(alloc, StatKind::Socket), rest),
        "device" => options_of(bare(alloc, StatKind::Device), rest),
        "chardev" => options_of(bare(alloc, StatKind::CharDevice), rest),
        _ => Err(No::Case),
    }
}

fn file_of(alloc: Global, words: &[&str]) -> Result<Entry, No> {
    let [text, rest @ ..] = words else {
        return Err(No::Case);
    };
    let mut entry = bare(alloc, StatKind::File);
    let text = text_of(alloc, text)?;
    entry.content.extend_from_slice(text.as_bytes())?;
    entry.sight.size = text.len() as u64;
    options_of(entry, rest)
}

fn options_of(entry: Entry, words: &[&str]) -> Result<Entry, No> {
    let mut entry = entry;
    for word in words {
        set_option(&mut entry, word)?;
    }
    Ok(entry)
}

fn set_option(entry: &mut Entry, word: &str) -> Result<(), No> {
    let Some((name, value)) = word.split_once('=') else {
        return Err(No::Case);
    };
    match name {
        "size" => entry.sight.size = number_in(value)?,
        "mtime" => entry.sight.mtime.nanoseconds = nanoseconds_in(value)?,
        "unsayable" => entry.unsayable = number_in(value)?,
        "zeros" => add_zeros(entry, number_in(value)?)?,
        "look" => entry.failure = Some(Failure::Look(why_in(value)?)),
        "list" => entry.failure = Some(Failure::List(why_in(value)?)),
        "open" => entry.failure = Some(Failure::Open(why_in(value)?)),
        "read" => entry.failure = Some(Failure::Read(entry.sight.size, why_in(value)?)),
        _ => return Err(No::Case),
    }
    Ok(())
}

/// So many zeros more.
fn add_zeros(entry: &mut Entry, count: u64) -> Result<(), No> {
    for _ in 0..count {
        entry.content.push(b'0')?;
    }
    entry.sight.size = entry.content.len() as u64;
    Ok(())
}

fn nanoseconds_in(word: &str) -> Result<u32, No> {
    match word.parse::<u32>() {
        Ok(number) => Ok(number),
        Err(_) => Err(No::Case),
    }
}

fn why_in(word: &str) -> Result<Why, No> {
    match word {
        "denied" => Ok(Why::Denied),
        "gone" => Ok(Why::Gone),
        "replaced" => Ok(Why::Replaced),
        "failed" => Ok(Why::Failed),
        "unsayable" => Ok(Why::Unsayable(1)),
        _ => Err(No::Case),
    }
}

/// Something without content.
pub(crate) fn bare(alloc: Global, kind: StatKind) -> Entry {
    let moment = Moment {
        seconds: 0,
        nanoseconds: 0,
    };
    let sight = Stat {
        kind,
        mode: 0,
        mtime: moment,
        ctime: moment,
        uid: 0,
        gid: 0,
        user: None,
        group: None,
        inode: 0,
        device: 0,
        size: 0,
        links: 1,
        stands_for: 0,
    };
    Entry {
        sight,
        content: Vec::new(alloc),
        unsayable: 0,
        failure: None,
    }
}
