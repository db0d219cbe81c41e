ghost use Rattle.std.specs.Prelude.{◌≡◌, Err, IfOk, IfSome, None, Ok, OnOk};
ghost use Rattle.keep_lines.specs.Command.{Asks, IsCommand, arm_text, cascade_text, command_text, note_text};
ghost use Rattle.keep_lines.specs.Line.{IsPassedOver, IsText};
ghost use Rattle.keep_lines.specs.Mistake.{IsMistake};
ghost use Rattle.keep_names.specs.Parses.{Parses};
ghost use Rattle.keep_names.specs.Number.{IsNumber};
ghost use Rattle.keep_lines.specs.Word.{IsName};
ghost use Rattle.keep_lines.specs.declared.command.LineError.TheVariants as the_error;
ghost use Rattle.keep_lines.specs.declared.mistake.Mistake.{Mistake};

use crate::job_line::{JobLine, parse_job};
use crate::line::{is_passed_over, text_of};
use crate::mistake::{Mistake, mistake_of};
use crate::question::{Question, parse_question};
use crate::raw_file::{RawFile, parse_raw_file};
use crate::revision::{Revision, parse_revision};
use crate::word::is_name;
use keep_names::parse_number;
use std::alloc::{AllocError, Global};

/// What a line asks for.
#[derive(Drop)]
pub enum Command<'a> {
    Job(JobLine),
    RawFile(RawFile),
    Revision(Revision),
    /// To take the change of this number back, with all that leans on it.
    Cascade(u64),
    Question(Question<'a>),
    /// To note the repository under this name.
    Note(&'a str),
    /// To arm the veto or the watch of this name.
    Arm(&'a str),
}

/// Why a line isn't parsed.
#[derive(Clone, Copy, PartialEq, Eq)]
pub enum LineError {
    /// It isn't one of the language.
    Bad(Mistake),
    /// Memory ran out.
    Memory,
}

impl From<AllocError> for LineError {
    ghost use Rattle.keep_lines.specs.declared.command.LineError.TheVariants.{Memory};

    ghost from_gives = { λ _ error. error ≡ Memory };

    fn from(_error: AllocError) -> LineError {
        LineError::Memory
    }
}

/// The command of a line, if it has one: an empty line and a comment have none.
pub fn parse(alloc: Global, line: &[u8]) -> Result<Option<Command<'_>>, LineError>
    ensures text { OnOk result (IsText line.now) }
    ensures value { IfOk result (λ found. IfSome found (λ command. Asks line.now command)) }
    ensures passed_over { result ≡ Ok None → IsPassedOver line.now }
    ensures bad { (why : Mistake) → result ≡ Err (the_error.Bad why) → IsMistake line.now why }
{
    let Some(text) = text_of(line) else {
        return Err(LineError::Bad(Mistake::NotText));
    };
    if is_passed_over(text) {
        return Ok(None);
    }
    match parse_command(alloc, text)? {
        Some(command) => Ok(Some(command)),
        None => Err(LineError::Bad(mistake_of(text))),
    }
}

fn parse_command(alloc: Global, text: &str) -> Result<Option<Command<'_>>, AllocError>
    ensures { IfOk result (Parses IsCommand command_text text.now) }
{
    if let Some(revision) = parse_revision(text) {
        return Ok(Some(Command::Revision(revision)));
    }
    if let Some(number) = parse_cascade(text) {
        return Ok(Some(Command::Cascade(number)));
    }
    if let Some(question) = parse_question(text) {
        return Ok(Some(Command::Question(question)));
    }
    if let Some(name) = parse_note(text) {
        return Ok(Some(Command::Note(name)));
    }
    if let Some(name) = parse_arm(text) {
        return Ok(Some(Command::Arm(name)));
    }
    if let Some(file) = parse_raw_file(alloc, text)? {
        return Ok(Some(Command::RawFile(file)));
    }
    match parse_job(alloc, text)? {
        Some(job) => Ok(Some(Command::Job(job))),
        None => Ok(None),
    }
}

/// The number of the change that the line asks to take back with all that leans on it.
fn parse_cascade(text: &str) -> Option<u64>
    ensures { Parses IsNumber cascade_text text.now result }
{
    let (verb, number) = text.split_once(' ')?;
    let number = parse_number(number)?;
    match verb {
        "cascade" => Some(number),
        _ => None,
    }
}

/// The name under which the line asks for a note.
fn parse_note(text: &str) -> Option<&str>
    ensures { Parses (λ name. IsName name.now) (λ name. note_text name.now) text.now result }
{
    match text.split_once(' ')? {
        ("note", name) if is_name(name) => Some(name),
        _ => None,
    }
}

/// The name of the veto or the watch that the line asks to arm.
fn parse_arm(text: &str) -> Option<&str>
    ensures { Parses (λ name. IsName name.now) (λ name. arm_text name.now) text.now result }
{
    match text.split_once(' ')? {
        ("arm", name) if is_name(name) => Some(name),
        _ => None,
    }
}
