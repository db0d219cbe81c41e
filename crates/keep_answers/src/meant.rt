use crate::hook_place::HookPlace;
use keep_lines::{JobLine, Revision};
use keep_names::{FileName, Id, Kind};
use keep_repo::Repo;

/// What a command means: there are values in the places of its names. `'t` is that of the line, and `'n` that of the
/// notes.
#[derive(Drop)]
pub(crate) enum Meant<'t, 'n> {
    /// A job. Its filter is lent by the kit as long as the job is done, by [`keep_jobs::resolve`]: no function may hand
    /// on what holds a stored question.
    Job(JobLine),
    /// To add a file by itself, whatever is in it.
    Add { kind: Kind, bytes: Vec<u8> },
    /// To drop the file of this name by itself.
    Drop(FileName),
    Revision(Revision),
    /// To take the change of this number back, with all that leans on it.
    Cascade(u64),
    Tell(Topic),
    /// To tell whether the repository is as this one, which was noted under the name.
    Compare(&'t str, &'n Repo),
    /// To tell the files of the snapshot of this id.
    Restore(Id),
    /// To note the repository under this name.
    Note(&'t str),
    /// To arm the veto or the watch of this name, which is at the place.
    Arm(&'t str, HookPlace),
}

/// What can be told without a value.
#[derive(Clone, Copy)]
pub(crate) enum Topic {
    List,
    Count,
    History,
    Audit,
    Totals,
}
