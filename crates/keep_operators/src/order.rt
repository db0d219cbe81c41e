use keep_jobs::Settings;
use std::alloc::Global;

/// What a crew is asked for: each of its operators backs up one file of its own.
#[derive(Clone, Copy)]
pub struct Order<'a> {
    pub alloc: Global,
    /// How many operators: 1 to 8.
    pub size: u32,
    /// What their backups go by.
    pub settings: Settings,
    /// When they back up, as RFC 3339 writes it.
    pub time: &'a str,
}

/// What a crew did.
#[derive(Clone, Copy)]
pub struct CrewTally {
    /// How many of its backups are in the journal.
    pub accepted: u64,
    /// The number of the journal's last event.
    pub length: u64,
}

/// Why no operator worked.
#[derive(Clone, Copy)]
pub enum NoCrew {
    Memory,
    /// There was no place for one of them.
    NoPass,
}
