ghost use Rattle.std.specs.Prelude.{◌≡◌, IfErr, IfOk, None, Some};
ghost use Rattle.keep_book.specs.Armed.{hooks_of, ledger_of};
ghost use Rattle.keep_hooks.specs.Rules.{rules_of, watches_of};
ghost use Rattle.keep_jobs.specs.Kits.{KitData, filters_of, kit_view};
ghost use Rattle.keep_lines.specs.declared.mistake.Mistake.TheVariants.{NoFile, NoHook};
ghost use Rattle.keep_answers.specs.Arming.{hook_place, veto_place, watch_place};
ghost use Rattle.keep_answers.specs.Files.{file_meant};
ghost use Rattle.keep_answers.specs.Meaning.{Resolves, meant_by, question_meant};
ghost use Rattle.keep_answers.specs.State.{state_of};

use crate::hook_place::HookPlace;
use crate::meant::{Meant, Topic};
use crate::raw_files::find;
use crate::session::Session;
use keep_book::Book;
use keep_hooks::{Veto, Watch};
use keep_jobs::Kit;
use keep_lines::{Command, MeantFile, Mistake, Question, RawFile};
use keep_names::{FileName, Kind};
use keep_shelf::Shelf;

impl Session {
    /// What the command means, with values in the places of its names, or why its line is bad: a name has nothing
    /// behind it. It takes no memory.
    pub(crate) fn resolve<'t, 'n, S: Shelf>(
        &'n self,
        command: Command<'t>,
        kit: &Kit,
        book: &Book<S>,
    ) -> Result<Meant<'t, 'n>, Mistake>
        ensures { Resolves (filters_of kit.now) (meant_by (state_of (kit_view kit.now) self.now book.now) command.entry)
            result }
    {
        match command {
            Command::Job(line) => Ok(Meant::Job(line)),
            Command::RawFile(RawFile::Add { kind, bytes }) => Ok(Meant::Add { kind, bytes }),
            Command::RawFile(RawFile::Drop { kind, target }) => {
                let name = file_named(book, kind, target)?;
                Ok(Meant::Drop(name))
            }
            Command::Revision(revision) => Ok(Meant::Revision(revision)),
            Command::Cascade(number) => Ok(Meant::Cascade(number)),
            Command::Question(question) => self.resolve_question(question, book),
            Command::Note(name) => Ok(Meant::Note(name)),
            Command::Arm(name) => {
                let place = place_of(kit, book, name)?;
                Ok(Meant::Arm(name, place))
            }
        }
    }

    fn resolve_question<'t, 'n, S: Shelf>(
        &'n self,
        question: Question<'t>,
        book: &Book<S>,
    ) -> Result<Meant<'t, 'n>, Mistake>
        ensures { (kit : KitData)
            → Resolves kit.filters (question_meant (state_of kit self.now book.now) question.entry) result }
    {
        match question {
            Question::List => Ok(Meant::Tell(Topic::List)),
            Question::Count => Ok(Meant::Tell(Topic::Count)),
            Question::History => Ok(Meant::Tell(Topic::History)),
            Question::Audit => Ok(Meant::Tell(Topic::Audit)),
            Question::Totals => Ok(Meant::Tell(Topic::Totals)),
            Question::Same(name) => match self.notes.get(name) {
                Some(noted) => Ok(Meant::Compare(name, noted)),
                None => Err(Mistake::NoNote),
            },
            Question::Restore(target) => {
                let name = file_named(book, Kind::Snapshot, target)?;
                Ok(Meant::Restore(name.id))
            }
        }
    }
}

/// The file that the target means.
fn file_named<S: Shelf>(book: &Book<S>, kind: Kind, target: MeantFile) -> Result<FileName, Mistake>
    ensures found { IfOk result (λ name. file_meant (ledger_of book.now).events kind target ≡ Some name) }
    ensures none { IfErr result (λ error. (error ≡ NoFile)
        × (file_meant (ledger_of book.now).events kind target ≡ None)) }
{
    find(book.ledger().history(), kind, target).ok_or(Mistake::NoFile)
}

/// Where the veto or the watch of the name is: of those that aren't armed the first veto, or else the first watch.
fn place_of<S: Shelf>(kit: &Kit, book: &Book<S>, name: &str) -> Result<HookPlace, Mistake>
    ensures found { IfOk result (λ place. hook_place (hooks_of book.now) (kit_view kit.now) name.now ≡ Some place) }
    ensures none { IfErr result (λ error. (error ≡ NoHook)
        × (hook_place (hooks_of book.now) (kit_view kit.now) name.now ≡ None)) }
{
    if book.is_armed(name) {
        return Ok(HookPlace::Armed);
    }
    if let Some(place) = veto_named(kit.vetoes.as_slice(), name) {
        return Ok(HookPlace::Veto(place));
    }
    match watch_named(kit.watches.as_slice(), name) {
        Some(place) => Ok(HookPlace::Watch(place)),
        None => Err(Mistake::NoHook),
    }
}

/// The place of the first veto of the name.
fn veto_named(vetoes: &[Veto], name: &str) -> Option<usize>
    ensures { result ≡ veto_place name.now (rules_of vetoes.now) }
{
    for (place, veto) in vetoes.iter().enumerate() {
        if veto.name.as_str() == name {
            return Some(place);
        }
    }
    None
}

/// The place of the first watch of the name.
fn watch_named(watches: &[Watch], name: &str) -> Option<usize>
    ensures { result ≡ watch_place name.now (watches_of watches.now) }
{
    for (place, watch) in watches.iter().enumerate() {
        if watch.name() == name {
            return Some(place);
        }
    }
    None
}
