//! The program `keep`: the command that people type.
#![tactic(auto)]

mod answer;
mod dispatch;
mod files_ahead;
mod folder_opening;
mod hashing;
mod looking;
mod script;
mod yes_or_no;

use crate::dispatch::keep;
use keep_run::report_failure;
use keep_streams::fill_streams;
use keep_threads::Processors;
use std::process::ExitCode;

fn main(rt: HostRuntime) -> ExitCode {
    if fill_streams(&rt).is_err() {
        return ExitCode::from(1);
    }
    match keep(&rt, Processors::of(&rt)) {
        Ok(()) => ExitCode::SUCCESS,
        Err(failure) => ExitCode::from(report_failure(&rt, failure)),
    }
}
