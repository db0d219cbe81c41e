use keep_backup::{BackupFacts, plan_backup};
use keep_build::Cut;
use keep_change::{Change, Listed, Planned, StoredFile};
use keep_desk::{Desk, Pass};
use keep_names::{FileName, Kind};
use keep_register::Naming;
use keep_repo::Repo;
use keep_upkeep::{plan_mark, plan_sweep};
use keep_view::View;
use std::alloc::{AllocError, Global};
use std::test::Fail;

/// What an operator has planned.
#[derive(Clone, Copy)]
pub enum Command<'a> {
    /// A backup by `keep` of the host `web`: its time, its paths, and the bytes that each file has.
    Backup(&'a str, &'a [&'a str], &'a [u8]),
    /// The snapshot of the least name is dropped.
    DropSnapshot,
    Mark,
    Sweep,
}

impl Command<'_> {
    /// The change that it plans on what the pass is shown now.
    pub fn plan<N: Naming, L>(
        &self,
        alloc: Global,
        desk: &Desk<N, L>,
        pass: &mut Pass<N>,
    ) -> Result<Planned, Fail> {
        let Ok(shown) = desk.view(pass) else {
            return Err(Fail::new("nothing is shown"));
        };
        let view = shown.get();
        match *self {
            Command::Backup(time, paths, bytes) => backup(alloc, &view, time, paths, bytes),
            Command::DropSnapshot => drop_snapshot(alloc, &view),
            Command::Mark => Ok(plan_mark(alloc, &view, 0)?),
            Command::Sweep => Ok(plan_sweep(alloc, &view, 0, 0)?),
        }
    }
}

fn backup(
    alloc: Global,
    view: &View,
    time: &str,
    paths: &[&str],
    bytes: &[u8],
) -> Result<Planned, Fail> {
    let mut files = Vec::new(alloc);
    for path in paths {
        files.push((String::from_str(alloc, path)?, bytes.to_vec(alloc)?))?;
    }
    let facts = facts_of(alloc, time)?;
    Ok(plan_backup(alloc, view, &files, &facts, Cut::after(1_048_576))?)
}

fn facts_of(alloc: Global, time: &str) -> Result<BackupFacts, AllocError> {
    Ok(BackupFacts {
        host: String::from_str(alloc, "web")?,
        user: String::from_str(alloc, "keep")?,
        paths: vec![in alloc; String::from_str(alloc, "/")?]?,
        time: String::from_str(alloc, time)?,
    })
}

fn drop_snapshot(alloc: Global, view: &View) -> Result<Planned, Fail> {
    let Some(file) = least_snapshot(view.repo())? else {
        return Err(Fail::new("no snapshot"));
    };
    let mut change = Change::new(alloc);
    change.drops = Listed::from_vec(vec![in alloc; file]?);
    Ok(Planned {
        change,
        seen: view.length(),
    })
}

/// The snapshot of the least name, if there is any.
fn least_snapshot(repo: &Repo) -> Result<Option<StoredFile>, AllocError> {
    let ids = repo.ids(Kind::Snapshot)?;
    let Some(id) = ids.first() else {
        return Ok(None);
    };
    let name = FileName::snapshot(*id);
    match repo.get(name) {
        Some(bytes) => Ok(Some(StoredFile::under(name, bytes.clone()?))),
        None => Ok(None),
    }
}
