use crate::case_words;
use crate::states::placing::type_word;
use crate::states::state::State;
use crate::stop::Stop;
use keep_lines::print_hex;
use keep_names::Id;
use keep_read::{Finding, RestoredFiles, audit, restore};
use keep_replies::{FoundCount, Refused, RestoredCounts, RestoredFile};
use std::alloc::{AllocError, Global};
use std::fmt::Write;

/// Restores or audits, if the line asks for it.
pub(crate) fn answer(
    state: &State,
    verb: &str,
    rest: &str,
    out: &mut String,
) -> Result<bool, Stop> {
    match verb {
        "restore" => restored(state, case_words::id(rest)?, out)?,
        "audit" => audited(state, out)?,
        _ => return Ok(false),
    }
    Ok(true)
}

fn restored(state: &State, snapshot: Id, out: &mut String) -> Result<(), AllocError> {
    match restore(state.alloc, &state.ground.view(), snapshot) {
        Ok(restored) => show_restored(state.alloc, &restored, out),
        Err(refusal) => writeln!(out, "{}", Refused(refusal)),
    }
}

fn show_restored(
    alloc: Global,
    restored: &RestoredFiles,
    out: &mut String,
) -> Result<(), AllocError> {
    for (path, bytes) in &restored.files {
        let (path, hex) = (path.as_str(), print_hex(alloc, bytes)?);
        let hex = hex.as_str();
        writeln!(out, "{}", RestoredFile { path, hex })?;
    }
    let (files, skipped) = (restored.files.len(), restored.skipped);
    writeln!(out, "{}", RestoredCounts { files, skipped })
}

fn audited(state: &State, out: &mut String) -> Result<(), AllocError> {
    let findings = audit(state.alloc, &state.ground.view())?;
    for finding in &findings {
        show_finding(finding, out)?;
    }
    writeln!(out, "{}", FoundCount(findings.len()))
}

/// Writes what was found with its refusal, and the refusal's number.
fn show_finding(finding: &Finding, out: &mut String) -> Result<(), AllocError> {
    match finding {
        Finding::WrongName(name) => write!(out, "wrong-name {name}")?,
        Finding::Unreadable(file) => write!(out, "unreadable {file}")?,
        Finding::WrongBlob(pack, blob) => {
            let (word, id) = (type_word(blob.blob_type), blob.id);
            write!(out, "wrong-blob {pack} {word} {id}")?;
        }
        Finding::Broken(snapshot, refusal) => write!(out, "broken {snapshot} {refusal}")?,
    }
    match finding.number() {
        Some(number) => writeln!(out, " {number}"),
        None => writeln!(out),
    }
}
