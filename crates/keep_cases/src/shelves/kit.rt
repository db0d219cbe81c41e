use crate::shelves::running::{Counts, Trial, run_lines, run_script};
use crate::shelves::shelf_stop::Stop;
use keep_change::{Outline, What};
use keep_hooks::{
    AskOutline, CountOutline, Limit, Measure, Veto, Watch, files_written, snapshots_dropped,
};
use keep_jobs::Kit;
use keep_plan::{AskFacts, Filter, Pick};
use keep_snap::SnapFacts;

/// Makes the trial, whose lines can name the filter `all`. Those of one script can arm the vetoes `few-drops` and
/// `no-empty` too, and the watches `events` and `files`.
pub(crate) fn run_with_kit(trial: Trial<'_>, out: &mut String) -> Result<Counts, Stop> {
    let alloc = trial.case.alloc;
    let ask: AskFacts = Box::new(alloc, |_: &SnapFacts| true)?;
    let all = Filter::new(String::from_str(alloc, "all")?, Pick::Any, ask);
    let filters = vec![in alloc; all]?;
    if trial.as_script {
        run_with_hooks(trial, filters, out)
    } else {
        run_lines(trial, filters, out)
    }
}

/// Makes the trial of a script with these filters.
fn run_with_hooks(
    trial: Trial<'_>,
    filters: Vec<Filter>,
    out: &mut String,
) -> Result<Counts, Stop> {
    let alloc = trial.case.alloc;
    let ask: AskOutline = Box::new(alloc, |outline: &Outline| snapshots_dropped(outline) > 1)?;
    let name = String::from_str(alloc, "few-drops")?;
    let few_drops = Veto::new(name, Limit::SnapshotDropsAtMost(1), ask);
    let ask: AskOutline = Box::new(alloc, |outline: &Outline| outline.what == What::Empty)?;
    let no_empty = Veto::new(String::from_str(alloc, "no-empty")?, Limit::NoEmpty, ask);
    let ask: CountOutline = Box::new(alloc, |_: &Outline| 1)?;
    let events = Watch::new(String::from_str(alloc, "events")?, Measure::Events, ask);
    let ask: CountOutline = Box::new(alloc, |outline: &Outline| files_written(outline))?;
    let files = Watch::new(
        String::from_str(alloc, "files")?,
        Measure::FilesWritten,
        ask,
    );
    let mut kit = Kit {
        filters,
        vetoes: vec![in alloc; few_drops, no_empty]?,
        watches: vec![in alloc; events, files]?,
    };
    run_script(trial, &mut kit, out)
}
