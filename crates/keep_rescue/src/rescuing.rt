ghost use Rattle.std.specs.Prelude.{◌≡◌, Err, IfOk, false, map};
ghost use Rattle.keep_rescue.specs.Rescued.{IsTaken, IsWalked, IsWanted, Rescues};
ghost use Rattle.keep_rescue.specs.Seen.{seen_by};
ghost use Rattle.keep_rescue.specs.declared.rescued.NotRescued.TheVariants.{NotNew};
ghost use Rattle.keep_rescue.specs.Rescued as spec;
ghost use Rattle.keep_sources.specs.Took.{skip_view};
ghost use Rattle.keep_sources.specs.Walked.{archive_of, skipped_of};

use crate::rescued::{NotRescued, Rescued};
use crate::salvage::{Salvage, put_file};
use keep_sources::{Scope, Skipped, Source, Stop, Taking};
use keep_targets::{Target, TargetError};
use std::alloc::{AllocError, Global};
use std::collections::HashMap;

/// Makes a new folder of what is whole in an old one: each pack, index and snapshot whose bytes have its name, below the
/// folders in which they lay, and at the end the config, or this new one where the old one isn't there or can't be read.
/// No journal is made and no trash. No link is followed, and nothing is written over.
///
/// `NotNew` where something is in the new folder, and then nothing is done. Where it ends with an error otherwise, the
/// folder has no whole config, so that it doesn't open.
pub fn rescue<S: Source, T: Target>(
    alloc: Global,
    source: S,
    target: T,
    fresh: &str,
) -> Result<Rescued<T>, NotRescued>
    ensures used { T.is_new target ≡ false → result ≡ Err NotNew }
    ensures rescued { IfOk result (λ rescued. Rescues S.told T.calls (T.calls target) fresh.now rescued) }
{
    if !target.is_new() {
        return Err(NotRescued::NotNew);
    }
    let (salvage, skipped) = walked(alloc, source, target)?;
    finish(salvage, skipped, fresh)
}

/// Takes what is wanted of the old folder. It gives what couldn't be read too.
fn walked<S: Source, T: Target>(
    alloc: Global,
    source: S,
    target: T,
) -> Result<(Salvage<T>, Vec<Skipped>), NotRescued>
    ensures { IfOk result (λ walked. IsWalked S.told T.calls (T.calls target) walked.0 walked.1.items) }
{
    let job = wanted(alloc)?;
    let mut taking = Taking::new(alloc, source, Salvage::new(alloc, target))?;
    let taken = walk_source(alloc, &mut taking, &job);
    let (_source, salvage) = taking.into_parts();
    match taken {
        Ok(skipped) => Ok((salvage, skipped)),
        Err(stop) => Err(refused(stop, salvage.refusal)),
    }
}

/// Goes the walk. It gives what isn't taken, or not as it was seen.
fn walk_source<S: Source, T: Target>(
    alloc: Global,
    taking: &mut Taking<S, Salvage<T>>,
    job: &Scope,
) -> Result<Vec<Skipped>, Stop>
    ensures { IfOk result (λ skipped. IsTaken S.told job.now (seen_by T.calls (archive_of taking.old))
        (seen_by T.calls (archive_of taking.new)) (skipped_of taking.old) skipped.items) }
{
    taking.take(job)?;
    Ok(copied(alloc, taking.skipped())?)
}

/// Why nothing is rescued, where the walk stopped so.
fn refused(stop: Stop, refusal: Option<TargetError>) -> NotRescued {
    match (stop, refusal) {
        (Stop::Refused, Some(refusal)) => NotRescued::Refused(refusal),
        _ => NotRescued::Memory,
    }
}

/// What of the old folder is read.
fn wanted(alloc: Global) -> Result<Scope, AllocError>
    ensures { IfOk result IsWanted }
{
    let mut paths = Vec::new(alloc);
    paths.push(String::from_str(alloc, "config")?)?;
    paths.push(String::from_str(alloc, "data")?)?;
    paths.push(String::from_str(alloc, "index")?)?;
    paths.push(String::from_str(alloc, "snapshots")?)?;
    Ok(Scope {
        paths,
        excludes: Vec::new(alloc),
        known: HashMap::new(alloc),
    })
}

fn copied(alloc: Global, skipped: &[Skipped]) -> Result<Vec<Skipped>, AllocError>
    ensures { IfOk result (λ made. map skip_view made.items ≡ map skip_view skipped.now) }
{
    let mut made = Vec::with_capacity(alloc, skipped.len())?;
    for one in skipped {
        let path = one.path.clone()?;
        made.push(Skipped { path, why: one.why })?;
    }
    Ok(made)
}

/// Writes the config behind all that was taken.
fn finish<T: Target>(
    salvage: Salvage<T>,
    skipped: Vec<Skipped>,
    fresh: &str,
) -> Result<Rescued<T>, NotRescued>
    ensures { IfOk result (λ rescued. spec.IsFinished T.calls (seen_by T.calls salvage) skipped.items fresh.now rescued) }
{
    let Salvage {
        alloc: _,
        mut target,
        folders: _,
        bytes: _,
        config,
        saved,
        lost,
        refusal: _,
    } = salvage;
    if saved.is_empty() && config.is_none() {
        return Err(NotRescued::NothingWhole);
    }
    let text = match &config {
        Some(config) => config.as_slice(),
        None => fresh.as_bytes(),
    };
    if let Err(refusal) = put_file(&mut target, "/config", text) {
        return Err(NotRescued::Refused(refusal));
    }
    Ok(Rescued {
        target,
        saved,
        lost,
        skipped,
        has_config: config.is_some(),
    })
}
