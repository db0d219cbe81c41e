use keep_backup::BackupFacts;
use keep_build::Cut;
use keep_labels::{Edit, Policy};

/// What all jobs of a run go by.
#[derive(Clone, Copy)]
pub struct Settings {
    /// How backups cut files.
    pub cut: Cut,
    /// The moment that marks get, and until which a sweep counts how long they waited: whole seconds since
    /// 1970-01-01T00:00:00Z.
    pub now: i64,
}

/// What one planner is asked for, with all that it needs. `F` is how a filter is held ([`crate::HoldsFilter`]).
#[derive(Drop)]
pub enum Job<F> {
    /// Files to back up as a new snapshot, each by the text of its absolute path.
    Backup {
        facts: BackupFacts,
        files: Vec<(String, Vec<u8>)>,
    },
    /// Something to do to the snapshots that the filter takes.
    Filtered {
        filter: F,
        task: Task,
    },
    /// One index of all packs in the place of all that there are.
    Repair,
    /// Marks for the packs that no snapshot needs.
    Mark,
    /// To drop the packs whose marks have waited so many seconds.
    Sweep(u64),
}

/// What is done to the snapshots that a filter takes.
#[derive(Drop)]
pub enum Task {
    /// They get other tags.
    Tag(Edit),
    /// Those that the policy doesn't keep are dropped.
    Forget(Policy),
    /// They are made anew without what the patterns match.
    Rewrite {
        /// Whether the old ones go.
        forget: bool,
        /// As [`keep_patterns::parse_pattern`] reads them.
        patterns: Vec<String>,
    },
}
