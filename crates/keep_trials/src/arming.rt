ghost use Rattle.std.specs.Prelude.{◌≡◌};
ghost use Rattle.keep_book.specs.Armed.{HasSums};
ghost use Rattle.keep_hooks.specs.Limits.{refuses};
ghost use Rattle.keep_hooks.specs.declared.limit.Limit.TheVariants.{FilesWrittenAtMost};

use keep_book::{Book, NotArmed};
use keep_change::{Change, Listed, Outline, Planned, StoredFile, What};
use keep_hooks::{
    AskOutline, CountOutline, Limit, Measure, Veto, Watch, files_written, makes_change,
};
use keep_ledger::{Refusal, Told};
use keep_names::Kind;
use keep_shelf::MemoryShelf;
use std::alloc::{AllocError, Global};
use std::test::Fail;

/// The limit that refuses each commit and redo that adds or drops a file.
const NO_FILES: Limit = Limit::FilesWrittenAtMost(0);

/// What a veto of that limit answers.
fn writes_files(outline: &Outline) -> bool
    ensures { result ≡ refuses (FilesWrittenAtMost 0) outline.now }
{
    makes_change(outline.what) && files_written(outline) > 0
}

/// A file of one byte.
fn one_file(alloc: Global, kind: Kind) -> Result<Listed<StoredFile>, AllocError> {
    let file = StoredFile::of(alloc, kind, vec![in alloc; b'a']?)?;
    let mut files = Vec::new(alloc);
    files.push(file)?;
    Ok(Listed::from_vec(files))
}

/// Adds an index.
fn adding(alloc: Global) -> Result<Planned, AllocError> {
    let mut change = Change::new(alloc);
    change.adds = one_file(alloc, Kind::Index)?;
    Ok(Planned { change, seen: 0 })
}

/// Whether the request was refused by the veto of this name.
fn is_vetoed(reply: &Result<Told, Refusal>, name: &str) -> bool {
    match reply {
        Err(Refusal::Vetoed(veto)) => veto.as_str() == name,
        _ => false,
    }
}

/// Whether the veto is armed.
fn arms(book: &mut Book<MemoryShelf>, veto: Veto) -> bool
    requires { HasSums book.old }
    ensures { HasSums book.new }
{
    book.add_veto(veto).is_ok()
}

/// Whether the veto is handed back as it is, because its name is armed.
fn hands_back(book: &mut Book<MemoryShelf>, veto: Veto) -> bool
    requires { HasSums book.old }
    ensures { HasSums book.new }
{
    match book.add_veto(veto) {
        Err(NotArmed::DoubleName(veto)) => veto.name.as_str() == "one" && veto.rule == NO_FILES,
        _ => false,
    }
}

/// Whether the watch is handed back as it is, because its name is armed.
fn hands_watch_back(book: &mut Book<MemoryShelf>, watch: Watch) -> bool
    requires { HasSums book.old }
    ensures { HasSums book.new }
{
    match book.add_watch(watch) {
        Err(NotArmed::DoubleName(watch)) => watch.name() == "two",
        _ => false,
    }
}

/// The veto that is named is the first of those armed that refuses; one that was handed back isn't asked.
#[test]
fn names_are_armed_once_and_the_first_veto_that_refuses_is_named(
    rt: HostRuntime,
) -> Result<(), Fail> {
    let alloc = rt.alloc();
    let ask: AskOutline = Box::new(alloc, |outline: &Outline| outline.what == What::Empty)?;
    let one = Veto::new(String::from_str(alloc, "one")?, Limit::NoEmpty, ask);
    let ask: AskOutline = Box::new(alloc, |outline: &Outline| writes_files(outline))?;
    let two = Veto::new(String::from_str(alloc, "two")?, NO_FILES, ask);
    let ask: AskOutline = Box::new(alloc, |outline: &Outline| writes_files(outline))?;
    let three = Veto::new(String::from_str(alloc, "three")?, NO_FILES, ask);
    let ask: AskOutline = Box::new(alloc, |outline: &Outline| writes_files(outline))?;
    let double = Veto::new(String::from_str(alloc, "one")?, NO_FILES, ask);
    let ask: CountOutline = Box::new(alloc, |_: &Outline| 1)?;
    let watch = Watch::new(String::from_str(alloc, "two")?, Measure::Events, ask);
    let planned = adding(alloc)?;
    let mut book = Book::open(alloc, MemoryShelf::new(alloc))?;
    assert!(rt; arms(&mut book, one));
    assert!(rt; arms(&mut book, two));
    assert!(rt; arms(&mut book, three));
    assert!(rt; hands_back(&mut book, double));
    assert!(rt; hands_watch_back(&mut book, watch));
    assert!(rt; book.is_armed("two") && !book.is_armed("four"));
    assert!(rt; is_vetoed(&book.commit(planned), "two"));
    assert_eq!(rt; book.undo(1), Err(Refusal::Unknown));
    Ok(())
}
