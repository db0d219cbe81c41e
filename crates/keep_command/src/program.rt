ghost use Rattle.std.specs.Prelude.{◌≡◌, ◌≢◌, ◌≤◌, ◌⊎◌, IfErr, IfOk, IfSome, None, length, map};
ghost use Rattle.keep_jobs.specs.Kits.{named_rule};
ghost use Rattle.keep_answers.specs.Known.{WritesLines};
ghost use Rattle.keep_script.specs.Line.{longest_script};
ghost use Rattle.keep_script.specs.Run.{IsUntouched};
ghost use Rattle.keep_script.specs.declared.status.RunStatus.{RunStatus};
ghost use Rattle.keep_command.specs.Ending.{NamesBadWord};
ghost use Rattle.keep_command.specs.Following.{EndsBy, EndsWith};
ghost use Rattle.keep_options.specs.Option.{options_of, options_view};
ghost use Rattle.keep_command.specs.NamedShelf.{shelved_of};
ghost use Rattle.keep_command.specs.Running.{KeepsLines, stored};

use crate::crew::Crew;
use crate::ending::Ending;
use crate::serving::serve;
use crate::shelves::Shelves;
use crate::stored_questions::Stored;
use crate::terms::Terms;
use keep_change::{Outline, What};
use keep_hooks::{
    AskOutline, CountOutline, Limit, Measure, Veto, Watch, files_written, snapshots_dropped,
};
use keep_options::{BadOptions, Options, find_bad_word, read_options};
use keep_plan::{AskFacts, Filter, Pick, has_tag};
use keep_script::RunStatus;
use keep_snap::SnapFacts;
use std::alloc::{AllocError, Global};
use std::io::{Read, Write};

/// Answers the script that the reader gives, by the options that the words behind the program's name give: over what
/// stands in the folder that they name, or over a shelf in memory with nothing on it. Then it has the crew work that
/// they ask for, where each line was answered and the shelf never failed. What is left then is let go: the book as the
/// last line left it, or as the crew did, or the shelf that wasn't opened.
pub fn keepd<'a, H, C, R, W>(
    alloc: Global,
    shelves: &H,
    crew: &C,
    words: &[&'a str],
    reader: &mut R,
    writer: &mut W,
) -> Ending<'a>
where
    H: Shelves,
    C: Crew,
    R: Read,
    W: Write,
    ensures refused { let given = map (λ word. word.now) words.entry.now in options_of given ≡ None
        → (NamesBadWord given result ⊎ (result ≡ Ending.Ran RunStatus.NoMemory))
        × IsUntouched (R.remaining reader.old) (R.remaining reader.new) (W.contents writer.old)
        (W.contents writer.new) }
    ensures answers { IfSome (options_of (map (λ word. word.now) words.entry.now)) (λ options.
        EndsBy shelved_of (H.gives shelves.now) (H.takes shelves.now) (C.answers crew.now) options
        (R.remaining reader.old) (R.remaining reader.new) (W.contents writer.old) (W.contents writer.new) result) }
    ensures whole { result ≢ Ending.Ran RunStatus.WriteFailed →
        WritesLines (W.contents writer.old) (W.contents writer.new) }
    ensures past_limit { result ≡ Ending.Ran RunStatus.ScriptTooLong →
        IfSome (R.remaining reader.old) (λ script. longest_script ≤ length script) }
{
    match read_options(alloc, &*words) {
        Ok(options) => answer_by(shelves, crew, Terms::new(alloc, options), reader, writer),
        Err(BadOptions::Refused) => refuse(alloc, words),
        Err(BadOptions::Memory) => Ending::Ran(RunStatus::NoMemory),
    }
}

/// Answers the script by the options.
fn answer_by<'a, H, C, R, W>(
    shelves: &H,
    crew: &C,
    terms: Terms<'_>,
    reader: &mut R,
    writer: &mut W,
) -> Ending<'a>
where
    H: Shelves,
    C: Crew,
    R: Read,
    W: Write,
    ensures ends { EndsBy shelved_of (H.gives shelves.now) (H.takes shelves.now) (C.answers crew.now)
        (options_view terms.entry.options) (R.remaining reader.old) (R.remaining reader.new)
        (W.contents writer.old) (W.contents writer.new) result }
    ensures lines { KeepsLines (R.remaining reader.old) (W.contents writer.old) (W.contents writer.new) result }
{
    match answer(shelves, crew, terms, reader, writer) {
        Ok(ended) => ended,
        Err(error) => Ending::from(error),
    }
}

/// Answers the script, with the filters `all`, `host` and `tagged`.
fn answer<'a, H, C, R, W>(
    shelves: &H,
    crew: &C,
    terms: Terms<'_>,
    reader: &mut R,
    writer: &mut W,
) -> Result<Ending<'a>, AllocError>
where
    H: Shelves,
    C: Crew,
    R: Read,
    W: Write,
    ensures ends { IfOk result (λ ended. EndsBy shelved_of (H.gives shelves.now) (H.takes shelves.now)
        (C.answers crew.now) (options_view terms.entry.options)
        (R.remaining reader.old) (R.remaining reader.new) (W.contents writer.old) (W.contents writer.new) ended
        × KeepsLines (R.remaining reader.old) (W.contents writer.old) (W.contents writer.new) ended) }
    ensures untouched { IfErr result (λ error.
        IsUntouched (R.remaining reader.old) (R.remaining reader.new) (W.contents writer.old) (W.contents writer.new)) }
{
    let alloc = terms.alloc;
    let options = terms.options;
    let ask: AskFacts = Box::new(alloc, |_: &SnapFacts| true)?;
    let all = Filter::new(String::from_str(alloc, "all")?, Pick::Any, ask);
    let host = String::from_str(alloc, options.host)?;
    let rule = Pick::Host(host.clone()?);
    let ask: AskFacts = Box::new(
        alloc,
        move |facts: &SnapFacts| facts.host.as_str() == host.as_str(),
    )?;
    let by_host = Filter::new(String::from_str(alloc, "host")?, rule, ask);
    let tag = String::from_str(alloc, options.tagged)?;
    let rule = Pick::Tagged(tag.clone()?);
    let ask: AskFacts = Box::new(alloc, move |facts: &SnapFacts| has_tag(facts, tag.as_str()))?;
    let by_tag = Filter::new(String::from_str(alloc, "tagged")?, rule, ask);
    let filters = vec![in alloc; all, by_host, by_tag]?;
    answer_with(shelves, crew, terms, filters, reader, writer)
}

/// Answers the script, with these filters, the vetoes `few-drops` and `no-empty`, and the watches `events` and `files`.
fn answer_with<'a, H, C, R, W>(
    shelves: &H,
    crew: &C,
    terms: Terms<'_>,
    filters: Vec<Filter>,
    reader: &mut R,
    writer: &mut W,
) -> Result<Ending<'a>, AllocError>
where
    H: Shelves,
    C: Crew,
    R: Read,
    W: Write,
    ensures ends { IfOk result (λ ended. let options = options_view terms.entry.options in EndsWith
        shelved_of (H.gives shelves.now) (H.takes shelves.now) (C.answers crew.now)
        (stored (map named_rule filters.items) options.drops) options
        (R.remaining reader.old) (R.remaining reader.new) (W.contents writer.old) (W.contents writer.new) ended
        × KeepsLines (R.remaining reader.old) (W.contents writer.old) (W.contents writer.new) ended) }
    ensures untouched { IfErr result (λ error.
        IsUntouched (R.remaining reader.old) (R.remaining reader.new) (W.contents writer.old) (W.contents writer.new)) }
{
    let alloc = terms.alloc;
    let options = terms.options;
    let most = u64::from(options.drops);
    let ask: AskOutline = Box::new(
        alloc,
        move |outline: &Outline| snapshots_dropped(outline) > most,
    )?;
    let name = String::from_str(alloc, "few-drops")?;
    let few_drops = Veto::new(name, Limit::SnapshotDropsAtMost(most), ask);
    let ask: AskOutline = Box::new(alloc, |outline: &Outline| outline.what == What::Empty)?;
    let no_empty = Veto::new(String::from_str(alloc, "no-empty")?, Limit::NoEmpty, ask);
    let ask: CountOutline = Box::new(alloc, |_: &Outline| 1)?;
    let events = Watch::new(String::from_str(alloc, "events")?, Measure::Events, ask);
    let ask: CountOutline = Box::new(alloc, |outline: &Outline| files_written(outline))?;
    let files = Watch::new(
        String::from_str(alloc, "files")?,
        Measure::FilesWritten,
        ask,
    );
    let stored = Stored {
        vetoes: vec![in alloc; few_drops, no_empty]?,
        watches: vec![in alloc; events, files]?,
        filters,
    };
    Ok(serve(shelves, crew, terms, stored, reader, writer))
}

/// The end where the words aren't options.
fn refuse<'a>(alloc: Global, words: &[&'a str]) -> Ending<'a>
    requires { options_of (map (λ word. word.now) words.now) ≡ None }
    ensures { NamesBadWord (map (λ word. word.now) words.entry.now) result ⊎ (result ≡ Ending.Ran RunStatus.NoMemory) }
{
    match find_bad_word(alloc, words) {
        Ok(word) => Ending::BadOptions(word),
        Err(AllocError) => Ending::Ran(RunStatus::NoMemory),
    }
}
