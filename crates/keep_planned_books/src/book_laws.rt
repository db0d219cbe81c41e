ghost use Rattle.keep_jobs.specs.Job.{job_view};
ghost use Rattle.keep_reach.specs.Sound.{IsSound};
ghost use Rattle.keep_sound.specs.Restic.{restic};
ghost use Rattle.keep_sound.specs.Whole.{IsWhole};
ghost use Rattle.keep_planned_books.specs.Jobs.{IsText, PlannedChangesKeep};
ghost use Rattle.keep_planned_books.specs.Losing.{AnswersLoseNothing, BooksLoseNothing, CascadesLoseNothing, OpeningsLoseNothing, SelectionsLoseNothing};

use crate::{
    books_are_sound, books_begin_sound, books_stay_sound, selections_of_books_are_sound,
    views_know_what_books_know,
};
use keep_jobs::{HoldsFilter, Job};
use keep_journal::what_lasts_is_kept;
use keep_names::orders_tell_apart;
use keep_read::sound_repositories_lose_no_blob;
use keep_reading::one_reading;
use keep_safety::{
    a_planned_backup_is_safe, a_planned_forget_is_safe, a_planned_mark_is_safe,
    a_planned_repair_is_safe, a_planned_sweep_is_safe, a_planned_tagging_is_safe,
    plan_rewrite_is_safe,
};
use keep_sound::{safe_changes_keep_whole, sound_repositories_are_whole};

/// What a job is asked for in texts is such.
pub fn jobs_are_said_in_texts<F: HoldsFilter>(job: &Job<F>)
    ensures { IsText (job_view F.rule job.now) }
{
    a_planned_backup_is_safe();
    a_planned_tagging_is_safe();
}

/// The change of a job keeps every sound repository sound that meets it, and so every whole one whole: whatever
/// snapshots are known. A mark's may be committed only where nothing happened since it was planned, and does so where
/// those are known that were shown then.
pub fn planned_changes_keep_whole()
    ensures sound { PlannedChangesKeep IsSound }
    ensures whole { PlannedChangesKeep (IsWhole restic) }
{
    orders_tell_apart();
    a_planned_backup_is_safe();
    a_planned_tagging_is_safe();
    a_planned_forget_is_safe();
    plan_rewrite_is_safe();
    a_planned_repair_is_safe();
    a_planned_mark_is_safe();
    a_planned_sweep_is_safe();
    safe_changes_keep_whole();
}

/// In a history whose changes are all planned as jobs, be it on the book as it is or on an earlier one, no snapshot
/// loses a blob that it reaches: not in the present repository, nor by what any answer or cascade leaves, nor in what
/// any of the changes that can still be undone make of the opening without the others, nor in what is opened of a
/// shelf after a stop.
pub fn planned_histories_lose_nothing()
    ensures selections { SelectionsLoseNothing }
    ensures books { BooksLoseNothing }
    ensures answers { AnswersLoseNothing }
    ensures cascades { CascadesLoseNothing }
    ensures openings { OpeningsLoseNothing }
{
    planned_changes_keep_whole();
    sound_repositories_are_whole();
    what_lasts_is_kept();
    one_reading();
    views_know_what_books_know();
    books_begin_sound();
    books_stay_sound();
    books_are_sound();
    selections_of_books_are_sound();
    sound_repositories_lose_no_blob();
}
