ghost use Rattle.std.specs.Prelude.{◌≡◌, IfOk};
ghost use Rattle.keep_hooks.specs.Written.{name_count};

use keep_change::{Listed, Outline, What};
use keep_hooks::{ArmedWatch, CountOutline, Measure, Watch, snapshots_dropped};
use keep_names::{FileName, id_of};
use keep_plan::{AskFacts, Filter, Pick, has_path};
use keep_snap::{Month, SnapFacts};
use std::alloc::{AllocError, Global};
use std::test::Fail;

/// The facts of a snapshot of this host, with one tag and one path.
fn facts_of(alloc: Global, host: &str, tag: &str, path: &str) -> Result<SnapFacts, AllocError> {
    let mut tags = Vec::new(alloc);
    tags.push(String::from_str(alloc, tag)?)?;
    let mut paths = Vec::new(alloc);
    paths.push(String::from_str(alloc, path)?)?;
    Ok(SnapFacts {
        name: id_of(b"one"),
        instant: 0,
        day: 0,
        week: -3,
        month: Month {
            year: 1970,
            month: 1,
        },
        year: 1970,
        host: String::from_str(alloc, host)?,
        user: String::new(alloc),
        paths,
        tags,
        tree: id_of(b"two"),
    })
}

#[test]
fn a_filter_takes_what_has_its_path(rt: HostRuntime) -> Result<(), Fail> {
    let alloc = rt.alloc();
    let path = String::from_str(alloc, "/home")?;
    let ask: AskFacts = Box::new(
        alloc,
        move |facts: &SnapFacts| has_path(facts, path.as_str()),
    )?;
    let rule = Pick::Path(String::from_str(alloc, "/home")?);
    let filter = Filter::new(String::from_str(alloc, "mine")?, rule, ask);
    assert!(rt; filter.takes(&facts_of(alloc, "web", "day", "/home")?));
    assert!(rt; !filter.takes(&facts_of(alloc, "/home", "/home", "/")?));
    Ok(())
}

/// The outline of an event whose change drops a snapshot and a pack.
fn outline_of(alloc: Global, what: What) -> Result<Outline, AllocError>
    ensures what { IfOk result (λ made. made.what ≡ what) }
    ensures names { IfOk result (λ made. name_count made ≡ 2) }
{
    let snapshot = FileName::snapshot(id_of(b"one"));
    let pack = FileName::pack(id_of(b"two"));
    let drops = vec![in alloc; snapshot, pack]?;
    Ok(Outline {
        what,
        number: 1,
        adds: Listed::from_vec(Vec::new(alloc)),
        drops: Listed::from_vec(drops),
        sets: Listed::from_vec(Vec::new(alloc)),
        clears: Listed::from_vec(Vec::new(alloc)),
    })
}

#[test]
fn a_watch_counts_the_snapshots_that_commits_drop(rt: HostRuntime) -> Result<(), Fail> {
    let alloc = rt.alloc();
    let ask: CountOutline = Box::new(alloc, |outline: &Outline| snapshots_dropped(outline))?;
    let name = String::from_str(alloc, "snapshots")?;
    let mut watch = ArmedWatch::new(Watch::new(name, Measure::SnapshotsDropped, ask), 0);
    let commit = outline_of(alloc, What::Commit)?;
    watch.tell(&commit);
    let undo = outline_of(alloc, What::Undo)?;
    watch.tell(&undo);
    assert_eq!(rt; watch.total(), 1);
    Ok(())
}
