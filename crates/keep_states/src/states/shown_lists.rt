use keep_change::{Change, PackMark, StoredFile};
use keep_names::{FileName, Id};
use std::alloc::AllocError;
use std::fmt::Write;

fn show_files(list: &str, files: &[StoredFile], out: &mut String) -> Result<(), AllocError> {
    for file in files {
        let (name, length) = (file.name(), file.bytes().as_slice().len());
        writeln!(out, "{list} {name} {length}")?;
    }
    Ok(())
}

fn show_marks(list: &str, marks: &[PackMark], out: &mut String) -> Result<(), AllocError> {
    for set in marks {
        let (pack, moment) = (set.pack, set.mark.moment);
        writeln!(out, "{list} {pack} {moment}")?;
    }
    Ok(())
}

pub(crate) fn show_names(
    list: &str,
    names: &[FileName],
    out: &mut String,
) -> Result<(), AllocError> {
    for name in names {
        writeln!(out, "{list} {name}")?;
    }
    Ok(())
}

pub(crate) fn show_ids(list: &str, ids: &[Id], out: &mut String) -> Result<(), AllocError> {
    for id in ids {
        writeln!(out, "{list} {id}")?;
    }
    Ok(())
}

/// Writes what the change does and asks for, in its lists' order.
pub(crate) fn show_change(change: &Change, out: &mut String) -> Result<(), AllocError> {
    show_files("adds", change.adds.as_slice(), out)?;
    show_files("drops", change.drops.as_slice(), out)?;
    show_marks("sets", change.sets.as_slice(), out)?;
    show_marks("clears", change.clears.as_slice(), out)?;
    show_names("present", change.present.as_slice(), out)?;
    show_names("absent", change.absent.as_slice(), out)?;
    show_ids("marked", change.marked.as_slice(), out)?;
    show_ids("unmarked", change.unmarked.as_slice(), out)?;
    if change.strict {
        writeln!(out, "strict")?;
    }
    Ok(())
}
