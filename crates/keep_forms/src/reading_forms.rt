//! The commands that only read.
ghost use Rattle.std.specs.Prelude.{◌≡◌, map};
ghost use Rattle.keep_forms.specs.Form.{shape_by};
ghost use Rattle.keep_forms.specs.Keep as spec;

use crate::common_forms::{CHANGE, HOST, PATH, SNAP, TAG};
use crate::form::{Argument, Form, Kind};

/// The commands that only read.
pub(crate) fn reading() -> [Form; 10]
    ensures { map (shape_by spec.common) result ≡ spec.reading }
{
    READING
}

const READING: [Form; 10] = [
    Form {
        name: "snapshots",
        about: "List snapshots",
        arguments: &[HOST, TAG, PATH, LATEST],
    },
    Form {
        name: "ls",
        about: "List what a snapshot has",
        arguments: &[SNAP, BELOW],
    },
    Form {
        name: "dump",
        about: "Write the bytes of a snapshot's file",
        arguments: &[SNAP, FILE],
    },
    Form {
        name: "diff",
        about: "Tell how two snapshots differ",
        arguments: &[OLD, NEW],
    },
    Form {
        name: "find",
        about: "Find paths in all snapshots",
        arguments: &[PATTERN],
    },
    Form {
        name: "restore",
        about: "Put a snapshot's files into a directory",
        arguments: &[SNAP, TARGET, INCLUDE],
    },
    Form {
        name: "check",
        about: "Look whether the repository is whole",
        arguments: &[READ_DATA],
    },
    Form {
        name: "history",
        about: "List what was done to the repository",
        arguments: &[LAST],
    },
    Form {
        name: "show",
        about: "Tell what a change did, and what leans on it",
        arguments: &[CHANGE],
    },
    Form {
        name: "graph",
        about: "Tell which changes lean on which",
        arguments: &[FIRST, DOT],
    },
];

const LATEST: Argument = Argument {
    name: "latest",
    kind: Kind::Number(1, 1_048_576),
    help: "Only the latest N",
};

const BELOW: Argument = Argument {
    name: "PATH",
    kind: Kind::WordOrNone,
    help: "Only what is at this path or below it",
};

const FILE: Argument = Argument {
    name: "PATH",
    kind: Kind::Word,
    help: "The file's path",
};

const OLD: Argument = Argument {
    name: "OLD",
    kind: Kind::Word,
    help: "A snapshot: the first part of its id, latest, or @N",
};

const NEW: Argument = Argument {
    name: "NEW",
    kind: Kind::Word,
    help: "Another snapshot",
};

const PATTERN: Argument = Argument {
    name: "PATTERN",
    kind: Kind::Word,
    help: "What paths have to match",
};

const TARGET: Argument = Argument {
    name: "target",
    kind: Kind::NeededName("DIR"),
    help: "The directory to write to, which is made where it isn't there",
};

const INCLUDE: Argument = Argument {
    name: "include",
    kind: Kind::Names("PATTERN"),
    help: "Only what this pattern matches",
};

const READ_DATA: Argument = Argument {
    name: "read-data",
    kind: Kind::Flag,
    help: "Read each pack too",
};

const LAST: Argument = Argument {
    name: "last",
    kind: Kind::Number(1, 1_048_576),
    help: "Only the last N events",
};

const FIRST: Argument = Argument {
    name: "N",
    kind: Kind::IndexOrNone,
    help: "Only this change and what leans on it",
};

const DOT: Argument = Argument {
    name: "dot",
    kind: Kind::Flag,
    help: "Print it for graphviz",
};
