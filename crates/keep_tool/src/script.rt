use keep_catalog::Hashing;
use keep_command::{Ending, HostShelves, NoOperators, keepd, report_ending};
use keep_run::{Failure, Run};
use keep_tables::utc_time;
use std::fs::File;
use std::io::{BufWriter, Read};

/// `keep script`: keepd's lines, from a file or from standard input.
pub(crate) fn script<H: Hashing + Copy>(
    run: &Run<'_>,
    hashing: H,
    file: Option<&str>,
) -> Result<(), Failure> {
    match file {
        None => answer(run, hashing, &mut run.rt.stdin()),
        Some(path) => match File::open(run.rt, path) {
            Ok(mut script) => answer(run, hashing, &mut script),
            Err(error) => {
                let cause = format!(in run.alloc; "cannot open {path}: {error}")?;
                Err(Failure::Refused(cause))
            }
        },
    }
}

/// Answers the lines over the repository's folder, as keepd does.
fn answer<H: Hashing + Copy, R: Read>(
    run: &Run<'_>,
    hashing: H,
    reader: &mut R,
) -> Result<(), Failure> {
    let now = utc_time(run.alloc, run.now)?;
    let folder = format!(in run.alloc; "--folder={}", run.folder)?;
    let now = format!(in run.alloc; "--now={now}")?;
    let words = vec![in run.alloc; folder.as_str(), now.as_str()]?;
    let Ok(mut writer) = BufWriter::new(run.alloc, run.rt.stdout()) else {
        return Err(Failure::Memory);
    };
    let shelves = HostShelves::new(run.rt, hashing);
    let ending = keepd(
        run.alloc,
        &shelves,
        &NoOperators,
        words.as_slice(),
        reader,
        &mut writer,
    );
    match report_ending(ending, &mut run.rt.stderr()) {
        (0, _) => Ok(()),
        (2, _) => Err(Failure::BadWords),
        _ => Err(Failure::Told),
    }
}
