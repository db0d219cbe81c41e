use crate::no_answer::No;
use keep_snap::{parse_moment, parse_time};
use std::alloc::Global;

/// The instant, and the written day, the Monday of its week, its month and its year.
pub(crate) fn time(alloc: Global, text: &str) -> Result<String, No> {
    let Some(time) = parse_time(text) else {
        return Ok(String::from_str(alloc, "none")?);
    };
    Ok(format!(in alloc;
        "{} day {} week {} month {}-{} year {}",
        time.instant, time.day, time.week, time.month.year, time.month.month, time.year
    )?)
}

/// The whole seconds of the instant.
pub(crate) fn moment(alloc: Global, text: &str) -> Result<String, No> {
    Ok(match parse_moment(text) {
        Some(seconds) => format!(in alloc; "{seconds}")?,
        None => String::from_str(alloc, "none")?,
    })
}
