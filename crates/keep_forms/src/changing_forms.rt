//! The commands that make or change something.
ghost use Rattle.std.specs.Prelude.{◌≡◌, map};
ghost use Rattle.keep_forms.specs.Form.{shape_by};
ghost use Rattle.keep_forms.specs.Keep as spec;

use crate::common_forms::{CHANGE, DRY_RUN, HOST, PATH, TAG, YES};
use crate::form::{Argument, Form, Kind};

/// The commands that make or change something.
pub(crate) fn changing() -> [Form; 14]
    ensures { map (shape_by spec.common) result ≡ spec.changing }
{
    CHANGING
}

const CHANGING: [Form; 14] = [
    Form {
        name: "init",
        about: "Make a repository",
        arguments: &[FOLDER],
    },
    Form {
        name: "backup",
        about: "Back up files and directories",
        arguments: &[SOURCES, OWN_HOST, TIME, TAGS, EXCLUDE, DRY_RUN],
    },
    Form {
        name: "forget",
        about: "Drop the snapshots that no --keep option keeps",
        arguments: &[
            HOST,
            TAG,
            PATH,
            KEEP_LAST,
            KEEP_DAILY,
            KEEP_WEEKLY,
            KEEP_MONTHLY,
            KEEP_YEARLY,
            KEEP_TAGS,
            DRY_RUN,
        ],
    },
    Form {
        name: "tag",
        about: "Change the tags of a snapshot, or of all",
        arguments: &[ONE, ALL, ADD, REMOVE, SET],
    },
    Form {
        name: "rewrite",
        about: "Make all snapshots anew without what patterns match",
        arguments: &[LEFT_OUT, FORGET, DRY_RUN],
    },
    Form {
        name: "repair",
        about: "Make one index of all packs",
        arguments: &[],
    },
    Form {
        name: "mark",
        about: "Mark the packs that no snapshot needs",
        arguments: &[],
    },
    Form {
        name: "sweep",
        about: "Drop the packs that are marked",
        arguments: &[OLDER_THAN],
    },
    Form {
        name: "prune",
        about: "Mark, and then sweep",
        arguments: &[OLDER_THAN],
    },
    Form {
        name: "undo",
        about: "Take a change back",
        arguments: &[CHANGE, WITH_ALL, YES],
    },
    Form {
        name: "redo",
        about: "Make a change again that was taken back",
        arguments: &[CHANGE],
    },
    Form {
        name: "empty",
        about: "Make all changes up to N final, and free what they hold",
        arguments: &[CHANGE, YES],
    },
    Form {
        name: "script",
        about: "Run the lines of a script, as keepd does",
        arguments: &[SCRIPT],
    },
    Form {
        name: "rescue",
        about: "Make a new repository of what is whole in a damaged one",
        arguments: &[DAMAGED, NEW],
    },
];

const FOLDER: Argument = Argument {
    name: "DIR",
    kind: Kind::Word,
    help: "The repository's folder",
};

const SOURCES: Argument = Argument {
    name: "PATH",
    kind: Kind::Words,
    help: "A file or a directory",
};

const OWN_HOST: Argument = Argument {
    name: "host",
    kind: Kind::Name("HOST"),
    help: "The host's name in place of the machine's",
};

const TIME: Argument = Argument {
    name: "time",
    kind: Kind::Name("TIME"),
    help: "The snapshot's time in place of now's",
};

const TAGS: Argument = Argument {
    name: "tag",
    kind: Kind::Names("TAG"),
    help: "A tag of the snapshot",
};

const EXCLUDE: Argument = Argument {
    name: "exclude",
    kind: Kind::Names("PATTERN"),
    help: "Leave out what this pattern matches",
};

const KEEP_LAST: Argument = Argument {
    name: "keep-last",
    kind: Kind::Number(1, 1_048_576),
    help: "Of each host and list of paths keep the latest N",
};

const KEEP_DAILY: Argument = Argument {
    name: "keep-daily",
    kind: Kind::Number(1, 1_048_576),
    help: "Keep the latest of each of the last N days that have one",
};

const KEEP_WEEKLY: Argument = Argument {
    name: "keep-weekly",
    kind: Kind::Number(1, 1_048_576),
    help: "Likewise of weeks",
};

const KEEP_MONTHLY: Argument = Argument {
    name: "keep-monthly",
    kind: Kind::Number(1, 1_048_576),
    help: "Likewise of months",
};

const KEEP_YEARLY: Argument = Argument {
    name: "keep-yearly",
    kind: Kind::Number(1, 1_048_576),
    help: "Likewise of years",
};

const KEEP_TAGS: Argument = Argument {
    name: "keep-tag",
    kind: Kind::Names("TAG"),
    help: "Keep what has this tag",
};

const ONE: Argument = Argument {
    name: "SNAP",
    kind: Kind::WordOrNone,
    help: "A snapshot: the first part of its id, latest, or @N",
};

const ALL: Argument = Argument {
    name: "all",
    kind: Kind::Flag,
    help: "All snapshots",
};

const ADD: Argument = Argument {
    name: "add",
    kind: Kind::Names("TAG"),
    help: "A tag to add",
};

const REMOVE: Argument = Argument {
    name: "remove",
    kind: Kind::Names("TAG"),
    help: "A tag to take away",
};

const SET: Argument = Argument {
    name: "set",
    kind: Kind::Names("TAG"),
    help: "A tag to set in place of those that are there",
};

const LEFT_OUT: Argument = Argument {
    name: "exclude",
    kind: Kind::NeededNames("PATTERN"),
    help: "What to leave out",
};

const FORGET: Argument = Argument {
    name: "forget",
    kind: Kind::Flag,
    help: "Drop the old snapshots",
};

const OLDER_THAN: Argument = Argument {
    name: "older-than",
    kind: Kind::Name("SPAN"),
    help: "Only packs marked for so long: a number and s, m, h, d or w, as 7d",
};

const WITH_ALL: Argument = Argument {
    name: "with-all",
    kind: Kind::Flag,
    help: "And all changes that lean on it",
};

const SCRIPT: Argument = Argument {
    name: "FILE",
    kind: Kind::WordOrNone,
    help: "The script's file [default: standard input]",
};

const DAMAGED: Argument = Argument {
    name: "DIR",
    kind: Kind::Word,
    help: "The damaged repository's folder",
};

const NEW: Argument = Argument {
    name: "target",
    kind: Kind::NeededName("DIR"),
    help: "The new folder, which is made where it isn't there",
};
