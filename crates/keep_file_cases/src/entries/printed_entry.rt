use crate::no_answer::No;
use keep_change::{Change, PackMark, StoredFile};
use keep_journal::{Entry, EventKind};
use keep_names::{FileName, Id};
use std::alloc::Global;

/// What an entry says: its number, the event, and the lists that aren't empty.
pub(crate) fn print_entry(alloc: Global, entry: &Entry) -> Result<String, No> {
    let mut told = format!(in alloc;
        "{} {} {}",
        entry.at,
        word_of(&entry.event.kind),
        entry.event.number
    )?;
    match &entry.event.kind {
        EventKind::Commit(change) => print_change(alloc, change.as_change(), &mut told)?,
        EventKind::Undo | EventKind::Redo => {}
        EventKind::Empty(marks) => print_marks(alloc, "marks", marks.as_slice(), &mut told)?,
    }
    Ok(told)
}

fn word_of(kind: &EventKind) -> &'static str {
    match kind {
        EventKind::Commit(_) => "commit",
        EventKind::Undo => "undo",
        EventKind::Redo => "redo",
        EventKind::Empty(_) => "empty",
    }
}

fn print_change(alloc: Global, change: &Change, told: &mut String) -> Result<(), No> {
    print_files(alloc, "adds", change.adds.as_slice(), told)?;
    print_files(alloc, "drops", change.drops.as_slice(), told)?;
    print_marks(alloc, "sets", change.sets.as_slice(), told)?;
    print_marks(alloc, "clears", change.clears.as_slice(), told)?;
    print_names(alloc, "present", change.present.as_slice(), told)?;
    print_names(alloc, "absent", change.absent.as_slice(), told)?;
    print_packs(alloc, "marked", change.marked.as_slice(), told)?;
    print_packs(alloc, "unmarked", change.unmarked.as_slice(), told)?;
    if change.strict {
        told.push_str(" strict")?;
    }
    Ok(())
}

/// Writes a list's word, unless the list is empty.
fn print_word(alloc: Global, word: &str, count: usize, told: &mut String) -> Result<(), No> {
    if count > 0 {
        let text = format!(in alloc; " {word}")?;
        told.push_str(text.as_str())?;
    }
    Ok(())
}

fn print_files(
    alloc: Global,
    word: &str,
    files: &[StoredFile],
    told: &mut String,
) -> Result<(), No> {
    print_word(alloc, word, files.len(), told)?;
    for file in files {
        let digits = hex::encode(alloc, file.bytes().as_slice())?;
        let name = file.name();
        let text = format!(in alloc; " {}/{}={digits}", name.kind, name.id)?;
        told.push_str(text.as_str())?;
    }
    Ok(())
}

fn print_names(alloc: Global, word: &str, names: &[FileName], told: &mut String) -> Result<(), No> {
    print_word(alloc, word, names.len(), told)?;
    for name in names {
        let text = format!(in alloc; " {}/{}", name.kind, name.id)?;
        told.push_str(text.as_str())?;
    }
    Ok(())
}

fn print_marks(alloc: Global, word: &str, marks: &[PackMark], told: &mut String) -> Result<(), No> {
    print_word(alloc, word, marks.len(), told)?;
    for mark in marks {
        let text = format!(in alloc; " {}@{}", mark.pack, mark.mark.moment)?;
        told.push_str(text.as_str())?;
    }
    Ok(())
}

fn print_packs(alloc: Global, word: &str, packs: &[Id], told: &mut String) -> Result<(), No> {
    print_word(alloc, word, packs.len(), told)?;
    for pack in packs {
        let text = format!(in alloc; " {pack}")?;
        told.push_str(text.as_str())?;
    }
    Ok(())
}
