ghost use Rattle.std.specs.Prelude.{◌≡◌, ◌++◌, IfOk, OnOk, codes, string_bytes};
ghost use Rattle.keep_damage.specs.Report.{deed_text, finding_text, findings_text};

use crate::finding::Finding;
use keep_paths::path_of_key;
use keep_shelf::Key;
use std::alloc::{AllocError, Global};

/// What the findings say, each behind a semicolon and a space. Files and entries are named by where they lie below the
/// folder of a repository.
pub fn report(alloc: Global, findings: &[Finding]) -> Result<String, AllocError>
    ensures { IfOk result (λ text. string_bytes text ≡ findings_text findings.now) }
{
    let mut text = String::new(alloc);
    for finding in findings {
        push_finding(alloc, *finding, &mut text)?;
    }
    Ok(text)
}

fn push_finding(alloc: Global, finding: Finding, text: &mut String) -> Result<(), AllocError>
    ensures { OnOk result (string_bytes text.new ≡ string_bytes text.old ++ (codes "; " ++ finding_text finding)) }
{
    let words = words_of(alloc, finding)?;
    text.push_str("; ")?;
    text.push_str(words.as_str())?;
    Ok(())
}

/// What the finding says.
fn words_of(alloc: Global, finding: Finding) -> Result<String, AllocError>
    ensures { IfOk result (λ words. string_bytes words ≡ finding_text finding) }
{
    match finding {
        Finding::NoEntry(k) => format!(in alloc; "journal/{k} is no entry"),
        Finding::Misplaced(k) => format!(in alloc;
            "journal/{k} can't follow the entries before it"
        ),
        Finding::OtherBytes(key, entry) => {
            let path = path_of_key(alloc, key)?;
            let deed = deed_of(key);
            format!(in alloc; "{path} has other bytes than entry {entry} {deed}")
        }
        Finding::Untold(key) => {
            let path = path_of_key(alloc, key)?;
            format!(in alloc; "{path} is there and no entry tells it")
        }
        Finding::Missing(key) => {
            let path = path_of_key(alloc, key)?;
            format!(in alloc; "{path} is missing")
        }
        Finding::Unmade => format!(in alloc; "the changes of the entries can't be made in turn"),
    }
}

/// What the entry did to the bytes of a file there.
fn deed_of(key: Key) -> &'static str
    ensures { result.now ≡ deed_text key }
{
    match key {
        Key::Live(_) => "added",
        Key::Trash(_, _) | Key::Entry(_) => "tells",
    }
}
