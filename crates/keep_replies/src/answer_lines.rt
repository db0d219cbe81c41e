ghost use Rattle.std.specs.Prelude.{◌≡◌};
ghost use Rattle.keep_replies.specs.Telling.{what_text};

use keep_change::What;
use keep_names::FileName;
use keep_read::Finding;
use std::fmt;

/// How many files and marks there are.
#[derive(Clone, Copy)]
pub struct Counts {
    pub files: usize,
    pub marks: usize,
}

impl fmt::Display for Counts {
    ghost use Rattle.std.specs.Prelude.{Some};
    ghost use Rattle.keep_replies.specs.Telling.{counts_text};

    ghost output = { λ counts. Some (counts_text counts.files counts.marks) };

    fn fmt<W: fmt::Write>(&self, f: &mut fmt::Formatter<W>) -> fmt::Result {
        let Counts { files, marks } = self;
        write!(f, "files {files} marks {marks}")
    }
}

/// A file of the repository: how many bytes it has, and whether it is a marked pack.
#[derive(Clone, Copy)]
pub struct FileLine {
    pub name: FileName,
    pub length: usize,
    pub marked: bool,
}

impl fmt::Display for FileLine {
    ghost use Rattle.std.specs.Prelude.{Some};
    ghost use Rattle.keep_replies.specs.Telling.{file_text};

    ghost output = { λ file. Some (file_text file.name file.length file.marked) };

    fn fmt<W: fmt::Write>(&self, f: &mut fmt::Formatter<W>) -> fmt::Result {
        let FileLine { name, length, .. } = self;
        let mark = if self.marked { " marked" } else { "" };
        write!(f, "{name} {length}{mark}")
    }
}

/// An event of the history: its number, what it did, and the number of its change.
#[derive(Clone, Copy)]
pub struct EventLine {
    pub at: u64,
    pub what: What,
    pub change: u64,
}

impl fmt::Display for EventLine {
    ghost use Rattle.std.specs.Prelude.{Some};
    ghost use Rattle.keep_replies.specs.Telling.{event_text};

    ghost output = { λ event. Some (event_text event.at event.what event.change) };

    fn fmt<W: fmt::Write>(&self, f: &mut fmt::Formatter<W>) -> fmt::Result {
        let EventLine { at, change, .. } = self;
        let what = word_of(self.what);
        write!(f, "{at} {what} {change}")
    }
}

fn word_of(what: What) -> &'static str
    ensures { result.now ≡ what_text what }
{
    match what {
        What::Commit => "commit",
        What::Undo => "undo",
        What::Redo => "redo",
        What::Empty => "empty",
    }
}

/// A note was taken under this name.
#[derive(Clone, Copy)]
pub struct Noted<'a>(pub &'a str);

impl fmt::Display for Noted<'_> {
    ghost use Rattle.std.specs.Prelude.{Some};
    ghost use Rattle.keep_replies.specs.Telling.{noted_text};

    ghost output = { λ noted. Some (noted_text noted.0.now) };

    fn fmt<W: fmt::Write>(&self, f: &mut fmt::Formatter<W>) -> fmt::Result {
        write!(f, "noted {}", self.0)
    }
}

/// Whether the repository is as the note of this name has it.
#[derive(Clone, Copy)]
pub struct Compared<'a> {
    pub name: &'a str,
    pub same: bool,
}

impl fmt::Display for Compared<'_> {
    ghost use Rattle.std.specs.Prelude.{Some};
    ghost use Rattle.keep_replies.specs.Telling.{same_text};

    ghost output = { λ compared. Some (same_text compared.name.now compared.same) };

    fn fmt<W: fmt::Write>(&self, f: &mut fmt::Formatter<W>) -> fmt::Result {
        let answer = if self.same { "yes" } else { "no" };
        write!(f, "same {} {answer}", self.name)
    }
}

/// A restored file: its path, and its bytes in hex.
#[derive(Clone, Copy)]
pub struct RestoredFile<'a> {
    pub path: &'a str,
    pub hex: &'a str,
}

impl fmt::Display for RestoredFile<'_> {
    ghost use Rattle.std.specs.Prelude.{Some};
    ghost use Rattle.keep_replies.specs.Telling.{restored_text};

    ghost output = { λ file. Some (restored_text file.path.now file.hex.now) };

    fn fmt<W: fmt::Write>(&self, f: &mut fmt::Formatter<W>) -> fmt::Result {
        let RestoredFile { path, hex } = self;
        write!(f, "{path} {hex}")
    }
}

/// How many files were restored, and how many nodes were skipped.
#[derive(Clone, Copy)]
pub struct RestoredCounts {
    pub files: usize,
    pub skipped: u64,
}

impl fmt::Display for RestoredCounts {
    ghost use Rattle.std.specs.Prelude.{Some};
    ghost use Rattle.keep_replies.specs.Telling.{restored_counts};

    ghost output = { λ counts. Some (restored_counts counts.files counts.skipped) };

    fn fmt<W: fmt::Write>(&self, f: &mut fmt::Formatter<W>) -> fmt::Result {
        let RestoredCounts { files, skipped } = self;
        write!(f, "restored {files} skipped {skipped}")
    }
}

/// What an audit found, with the number of the refusal where there is one.
#[derive(Clone, Copy)]
pub struct FindingLine<'a>(pub &'a Finding);

impl fmt::Display for FindingLine<'_> {
    ghost use Rattle.std.specs.Prelude.{Some};
    ghost use Rattle.keep_replies.specs.Telling.{found_text};

    ghost output = { λ found. Some (found_text found.0.now) };

    fn fmt<W: fmt::Write>(&self, f: &mut fmt::Formatter<W>) -> fmt::Result {
        match self.0 {
            Finding::WrongName(name) => write!(f, "wrong-name {name}")?,
            Finding::Unreadable(file) => write!(f, "unreadable {}", file.name)?,
            Finding::WrongBlob(pack, blob) => write!(f, "wrong-blob {pack} {}", blob.id)?,
            Finding::Broken(snapshot, _) => write!(f, "broken {snapshot}")?,
        }
        match self.0.number() {
            Some(number) => write!(f, " {number}"),
            None => Ok(()),
        }
    }
}

/// How many findings an audit has.
#[derive(Clone, Copy)]
pub struct FoundCount(pub usize);

impl fmt::Display for FoundCount {
    ghost use Rattle.std.specs.Prelude.{Some};
    ghost use Rattle.keep_replies.specs.Telling.{found_count};

    ghost output = { λ count. Some (found_count count.0) };

    fn fmt<W: fmt::Write>(&self, f: &mut fmt::Formatter<W>) -> fmt::Result {
        write!(f, "audit {}", self.0)
    }
}

/// A veto or a watch that was armed.
#[derive(Clone, Copy)]
pub struct Armed<'a>(pub &'a str);

impl fmt::Display for Armed<'_> {
    ghost use Rattle.std.specs.Prelude.{Some};
    ghost use Rattle.keep_replies.specs.Telling.{armed_text};

    ghost output = { λ armed. Some (armed_text armed.0.now) };

    fn fmt<W: fmt::Write>(&self, f: &mut fmt::Formatter<W>) -> fmt::Result {
        write!(f, "armed {}", self.0)
    }
}

/// A watch, and the sum of what it counted.
#[derive(Clone, Copy)]
pub struct TotalLine<'a> {
    pub name: &'a str,
    pub total: u64,
}

impl fmt::Display for TotalLine<'_> {
    ghost use Rattle.std.specs.Prelude.{Some};
    ghost use Rattle.keep_replies.specs.Telling.{total_text};

    ghost output = { λ line. Some (total_text line.name.now line.total) };

    fn fmt<W: fmt::Write>(&self, f: &mut fmt::Formatter<W>) -> fmt::Result {
        let TotalLine { name, total } = self;
        write!(f, "{name} {total}")
    }
}
