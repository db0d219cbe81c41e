ghost use Rattle.std.specs.Prelude.{◌≡◌, IfOk, Some, string_bytes, take};
ghost use Rattle.keep_names.specs.FileName.{IsKind, file_name_text, kind_text, path_text};
ghost use Rattle.keep_names.specs.Id.{id_text};
ghost use Rattle.keep_names.specs.Parses.{Parses};

use crate::id::{Id, print_id};
use std::alloc::{AllocError, Global};
use std::fmt;

/// The kinds of a repository's files, in the order in which they are listed.
#[derive(Clone, Copy, Debug, PartialEq, Eq, PartialOrd, Ord, Hash)]
pub enum Kind {
    Pack,
    Index,
    Snapshot,
}

/// The kind that prints as this word.
pub fn parse_kind(word: &str) -> Option<Kind>
    ensures { Parses IsKind kind_text word.now result }
{
    match word {
        "pack" => Some(Kind::Pack),
        "index" => Some(Kind::Index),
        "snapshot" => Some(Kind::Snapshot),
        _ => None,
    }
}

impl fmt::Display for Kind {
    ghost output = { λ kind. Some (kind_text kind) };

    fn fmt<W: fmt::Write>(&self, f: &mut fmt::Formatter<W>) -> fmt::Result {
        f.write_str(match self {
            Kind::Pack => "pack",
            Kind::Index => "index",
            Kind::Snapshot => "snapshot",
        })
    }
}

/// The name of a file in a repository.
#[derive(Clone, Copy, Debug, PartialEq, Eq, PartialOrd, Ord, Hash)]
pub struct FileName {
    pub kind: Kind,
    pub id: Id,
}

impl FileName {
    ghost use Rattle.keep_names.specs.FileName.{named};
    ghost use Rattle.keep_names.specs.declared.file_name.Kind.TheVariants as kind;

    pub fn pack(id: Id) -> FileName
        ensures { result ≡ named kind.Pack id }
    {
        FileName {
            kind: Kind::Pack,
            id,
        }
    }

    pub fn index(id: Id) -> FileName
        ensures { result ≡ named kind.Index id }
    {
        FileName {
            kind: Kind::Index,
            id,
        }
    }

    pub fn snapshot(id: Id) -> FileName
        ensures { result ≡ named kind.Snapshot id }
    {
        FileName {
            kind: Kind::Snapshot,
            id,
        }
    }
}

impl fmt::Display for FileName {
    ghost output = { λ name. Some (file_name_text name) };

    fn fmt<W: fmt::Write>(&self, f: &mut fmt::Formatter<W>) -> fmt::Result {
        write!(f, "{} {}", self.kind, self.id)
    }
}

/// Where the file lies in a repository of restic's layout, below the repository's folder.
pub fn path_of(alloc: Global, name: FileName) -> Result<String, AllocError>
    ensures { IfOk result (λ path. string_bytes path ≡ path_text name) }
{
    let digits = print_id(alloc, name.id)?;
    match name.kind {
        Kind::Pack => {
            let folder = folder_of(alloc, name.id)?;
            format!(in alloc; "data/{folder}/{digits}")
        }
        Kind::Index => format!(in alloc; "index/{digits}"),
        Kind::Snapshot => format!(in alloc; "snapshots/{digits}"),
    }
}

/// The folder of a pack: packs are spread over 256 of them.
fn folder_of(alloc: Global, id: Id) -> Result<String, AllocError>
    ensures { IfOk result (λ folder. string_bytes folder ≡ take 2 (id_text id)) }
{
    let first = id.0[0];
    format!(in alloc; "{first:02x}")
}
