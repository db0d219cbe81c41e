/// What is asked.
#[derive(Drop)]
pub enum Command<'a> {
    /// To make a repository in this folder.
    Init {
        folder: &'a str,
    },
    Backup(Backup<'a>),
    /// To list snapshots: the latest so many, 1 to 1,048,576, or all.
    Snapshots {
        chosen: Chosen<'a>,
        latest: Option<u32>,
    },
    /// To list what a snapshot has, at a path or in all.
    Ls {
        snapshot: &'a str,
        path: Option<&'a str>,
    },
    /// To write the bytes of a snapshot's file.
    Dump {
        snapshot: &'a str,
        path: &'a str,
    },
    /// To tell what a snapshot has that an older one hasn't, and the other way round.
    Diff {
        old: &'a str,
        new: &'a str,
    },
    /// To name what the pattern matches in any snapshot.
    Find {
        pattern: &'a str,
    },
    Restore(Restore<'a>),
    Forget(Forget<'a>),
    Tag(Tag<'a>),
    Rewrite(Rewrite<'a>),
    /// To look whether the repository is whole, each byte of its packs read or not.
    Check {
        read_data: bool,
    },
    /// To make one index of all packs.
    Repair,
    /// To mark the packs that no snapshot needs.
    Mark,
    /// To drop the packs whose marks have waited so many seconds.
    Sweep {
        older_than: u64,
    },
    /// To mark, and then to sweep.
    Prune {
        older_than: u64,
    },
    /// To list the events, or the last so many, 1 to 1,048,576.
    History {
        last: Option<u32>,
    },
    /// To tell what a change did.
    Show {
        change: u64,
    },
    /// To take a change back, alone or with all that lean on it, asked about or not.
    Undo {
        change: u64,
        with_all: bool,
        yes: bool,
    },
    /// To make a change again that was taken back.
    Redo {
        change: u64,
    },
    /// To make the changes up to this number final, asked about or not.
    Empty {
        through: u64,
        yes: bool,
    },
    /// To run the lines of a file, or of standard input.
    Script {
        file: Option<&'a str>,
    },
    /// To tell which changes lean on which, of all or of one and those that lean on it, as text or for graphviz.
    Graph {
        change: Option<u64>,
        dot: bool,
    },
    /// To make a new folder of what is whole in one.
    Rescue {
        folder: &'a str,
        target: &'a str,
    },
}

/// A backup that is asked for.
#[derive(Drop)]
pub struct Backup<'a> {
    pub paths: Vec<&'a str>,
    pub host: Option<&'a str>,
    pub time: Option<&'a str>,
    pub tags: Vec<&'a str>,
    pub exclude: Vec<&'a str>,
    pub dry_run: bool,
}

/// Which snapshots are meant: those of a host, with a tag, of a path, as far as each is given.
#[derive(Clone, Copy)]
pub struct Chosen<'a> {
    /// It may be empty, as the host of a snapshot may.
    pub host: Option<&'a str>,
    pub tag: Option<&'a str>,
    pub path: Option<&'a str>,
}

/// A restore that is asked for, of all or of what a pattern matches.
#[derive(Drop)]
pub struct Restore<'a> {
    pub snapshot: &'a str,
    pub target: &'a str,
    pub include: Vec<&'a str>,
}

/// A forget that is asked for. It keeps something.
#[derive(Drop)]
pub struct Forget<'a> {
    pub chosen: Chosen<'a>,
    pub keep: Keep<'a>,
    pub dry_run: bool,
}

/// What a forget keeps. Each number is 1 to 1,048,576.
#[derive(Drop)]
pub struct Keep<'a> {
    pub last: Option<u32>,
    pub daily: Option<u32>,
    pub weekly: Option<u32>,
    pub monthly: Option<u32>,
    pub yearly: Option<u32>,
    pub tags: Vec<&'a str>,
}

/// Other tags for a snapshot, or for all: tags are set, or some are added and some taken away.
#[derive(Drop)]
pub struct Tag<'a> {
    /// The one. All where none is named.
    pub snapshot: Option<&'a str>,
    pub add: Vec<&'a str>,
    pub remove: Vec<&'a str>,
    pub set: Vec<&'a str>,
}

/// A rewrite that is asked for, of all snapshots.
#[derive(Drop)]
pub struct Rewrite<'a> {
    pub exclude: Vec<&'a str>,
    pub forget: bool,
    pub dry_run: bool,
}
