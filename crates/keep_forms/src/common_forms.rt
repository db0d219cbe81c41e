//! Arguments of several commands.
ghost use Rattle.std.specs.Prelude.{◌≡◌, map};
ghost use Rattle.keep_forms.specs.Form.{rule_in};
ghost use Rattle.keep_forms.specs.Keep as spec;

use crate::form::{Argument, Kind};

/// What stands before and behind each command.
pub(crate) fn common() -> [Argument; 3]
    ensures { map rule_in result ≡ spec.common }
{
    COMMON
}

const COMMON: [Argument; 3] = [
    Argument {
        name: "repo",
        kind: Kind::Lettered('r', "DIR"),
        help: "The repository's folder",
    },
    Argument {
        name: "json",
        kind: Kind::Flag,
        help: "Print one JSON document",
    },
    Argument {
        name: "wait",
        kind: Kind::Number(0, 4_294_967_295),
        help: "Wait for the folder's lock at most so many seconds [default: 10]",
    },
];

pub(crate) const HOST: Argument = Argument {
    name: "host",
    kind: Kind::Text("HOST"),
    help: "Only snapshots of this host",
};

pub(crate) const TAG: Argument = Argument {
    name: "tag",
    kind: Kind::Name("TAG"),
    help: "Only snapshots with this tag",
};

pub(crate) const PATH: Argument = Argument {
    name: "path",
    kind: Kind::Name("PATH"),
    help: "Only snapshots of this path",
};

pub(crate) const SNAP: Argument = Argument {
    name: "SNAP",
    kind: Kind::Word,
    help: "A snapshot: the first part of its id, latest, or @N",
};

pub(crate) const CHANGE: Argument = Argument {
    name: "N",
    kind: Kind::Index,
    help: "The number of a change",
};

pub(crate) const DRY_RUN: Argument = Argument {
    name: "dry-run",
    kind: Kind::Flag,
    help: "Print what would be done, and do nothing",
};

pub(crate) const YES: Argument = Argument {
    name: "yes",
    kind: Kind::Flag,
    help: "Don't ask",
};
