ghost use Rattle.std.specs.Prelude.{◌≡◌, ◌++◌, IfOk, OnOk, map};
ghost use Rattle.keep_read.specs.Findings.{findings_in};
ghost use Rattle.keep_read.specs.declared.finding.Finding.TheVariants.{Broken, Unreadable, WrongBlob};

use crate::finding::Finding;
use crate::wrong_names::wrong_names;
use keep_catalog::{Hashing, OneByOne, ReachError, Unread};
use keep_names::{BlobId, Id};
use keep_reach::broken;
use keep_view::View;
use std::alloc::{AllocError, Global};

/// All that is wrong with the files of the view's repository: wrong names, files that can't be read, wrong blobs, and
/// broken snapshots, each by name. A snapshot that can't be read isn't broken too.
///
/// Each file is hashed, and each blob that the repository didn't hash before.
pub fn audit(alloc: Global, view: &View) -> Result<Vec<Finding>, AllocError>
    ensures { IfOk result (λ findings. findings.items ≡ findings_in view.now.repo) }
{
    audit_with(alloc, view, &mut OneByOne)
}

/// All that is wrong, as `audit` finds it. Files are handed in to be hashed, many at a time.
pub fn audit_with<H: Hashing>(
    alloc: Global,
    view: &View,
    hashing: &mut H,
) -> Result<Vec<Finding>, AllocError>
    ensures { IfOk result (λ findings. findings.items ≡ findings_in view.now.repo) }
{
    let mut findings = wrong_names(alloc, view.repo(), hashing)?;
    let catalog = view.read_past(alloc)?;
    let unread = catalog.unread(alloc)?;
    add_unread(&mut findings, &unread)?;
    let wrong = catalog.wrong_blobs(alloc)?;
    add_wrong(&mut findings, &wrong)?;
    let broken = broken(alloc, &catalog)?;
    add_broken(&mut findings, &broken)?;
    Ok(findings)
}

fn add_unread(findings: &mut Vec<Finding>, unread: &[Unread]) -> Result<(), AllocError>
    ensures { OnOk result (findings.new.items ≡ findings.old.items ++ map Unreadable unread.now) }
{
    for file in unread {
        findings.push(Finding::Unreadable(*file))?;
    }
    Ok(())
}

fn add_wrong(findings: &mut Vec<Finding>, wrong: &[(Id, BlobId)]) -> Result<(), AllocError>
    ensures { OnOk result (findings.new.items
        ≡ findings.old.items ++ map (λ w. WrongBlob w.0 w.1) wrong.now) }
{
    for (pack, blob) in wrong {
        findings.push(Finding::WrongBlob(*pack, *blob))?;
    }
    Ok(())
}

fn add_broken(findings: &mut Vec<Finding>, broken: &[(Id, ReachError)]) -> Result<(), AllocError>
    ensures { OnOk result (findings.new.items
        ≡ findings.old.items ++ map (λ b. Broken b.0 b.1) broken.now) }
{
    for (snapshot, refusal) in broken {
        findings.push(Finding::Broken(*snapshot, *refusal))?;
    }
    Ok(())
}
