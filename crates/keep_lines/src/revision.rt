ghost use Rattle.keep_names.specs.Parses.{Parses};
ghost use Rattle.std.specs.Prelude.{◌≡◌};
ghost use Rattle.keep_lines.specs.Revision.{IsRevision, request_of, revision_text};

use keep_journal::Request;
use keep_names::parse_number;

/// What a line asks about the change of a number.
#[derive(Clone, Copy, PartialEq, Eq)]
pub enum Revision {
    /// To take it back.
    Undo(u64),
    /// To make it again.
    Redo(u64),
    /// To make it final, with all before it.
    Empty(u64),
}

impl Revision {
    /// The request that asks a book for it.
    pub fn request(self) -> Request
        ensures { result ≡ request_of self }
    {
        match self {
            Revision::Undo(number) => Request::Undo(number),
            Revision::Redo(number) => Request::Redo(number),
            Revision::Empty(number) => Request::Empty(number),
        }
    }
}

/// What the line asks about an earlier change.
pub(crate) fn parse_revision(text: &str) -> Option<Revision>
    ensures { Parses IsRevision revision_text text.now result }
{
    let (verb, number) = text.split_once(' ')?;
    let number = parse_number(number)?;
    match verb {
        "undo" => Some(Revision::Undo(number)),
        "redo" => Some(Revision::Redo(number)),
        "empty" => Some(Revision::Empty(number)),
        _ => None,
    }
}
