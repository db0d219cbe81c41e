ghost use Rattle.std.specs.Prelude.{◌≡◌, [], OnOk};
ghost use Rattle.keep_book.specs.Armed.{HasSums, ledger_of};
ghost use Rattle.keep_read.specs.Findings.{findings_in};

use keep_book::Book;
use keep_catalog::Hashing;
use keep_names::Id;
use keep_read::{Finding, audit_with};
use keep_rows::FindingRow;
use keep_run::{Failure, Run, print_rows};
use keep_shelf::Shelf;

/// `keep check`: all that is wrong. There is something where it fails. Blobs are hashed first, and then files, by this,
/// which is let go before anything is printed.
pub fn check<S: Shelf, H: Hashing + Drop>(
    run: &Run<'_>,
    book: &mut Book<S>,
    mut hashing: H,
) -> Result<(), Failure>
    requires { HasSums book.old }
    ensures well { OnOk result (findings_in (ledger_of book.new).live ≡ []) }
    ensures same { ledger_of book.new ≡ ledger_of book.old }
{
    book.hash_all(&mut hashing);
    let findings = audit_with(run.alloc, &book.ledger().view(), &mut hashing)?;
    drop(hashing);
    print_findings(run, &findings)
}

/// Prints what is wrong. There is something where it fails.
fn print_findings(run: &Run<'_>, findings: &[Finding]) -> Result<(), Failure>
    ensures { OnOk result (findings.now ≡ []) }
{
    if findings.is_empty() && !run.is_json {
        return run.print(b"nothing is wrong\n");
    }
    let mut rows = Vec::new(run.alloc);
    for finding in findings {
        rows.push(row_of(run, *finding)?)?;
    }
    print_rows(run, rows.as_slice())?;
    if findings.is_empty() {
        Ok(())
    } else {
        Err(Failure::Told)
    }
}

/// The row of something that is wrong.
fn row_of(run: &Run<'_>, finding: Finding) -> Result<FindingRow, Failure> {
    let (word, id): (&str, Id) = match finding {
        Finding::WrongName(name) => ("wrong name", name.id),
        Finding::Unreadable(file) => ("unreadable", file.name.id),
        Finding::WrongBlob(pack, _) => ("wrong blob in pack", pack),
        Finding::Broken(snapshot, _) => ("broken snapshot", snapshot),
    };
    Ok(FindingRow {
        word: String::from_str(run.alloc, word)?,
        id,
        number: finding.number(),
    })
}
