ghost use Rattle.std.specs.Prelude.{◌≡◌, IfOk, Some, false};
ghost use Rattle.keep_forms.specs.Form.{AddsArguments, AddsForms, IsMade, form_app, rule_in};
ghost use Rattle.keep_forms.specs.Keep.{bare, keep};
ghost use Rattle.clap.specs.Lexer.{usize_max};
ghost use Rattle.clap.specs.Words.{rule_of};
ghost use Rattle.clap.specs.declared.builder.action.ArgAction.TheVariants.{Append, SetTrue};
ghost use Rattle.clap.specs.declared.builder.value_parser.ValueParser.TheVariants.{NonEmptyString, Unsigned};

use crate::changing_forms::changing;
use crate::common_forms::common;
use crate::form::{Argument, Form, Kind};
use crate::reading_forms::reading;
use clap::builder::ValueParser;
use clap::{Arg, ArgAction, Command};
use std::alloc::{AllocError, Global};

/// The whole command `keep`.
pub fn keep_command<'a>(alloc: Global) -> Result<Command<'a>, AllocError>
    ensures { IfOk result (IsMade keep) }
{
    let common = common();
    let command = with_arguments(alloc, bare(alloc), &common)?;
    let command = with_forms(alloc, command, &changing(), &common)?;
    with_forms(alloc, command, &reading(), &common)
}

/// The command without arguments and without what may be named behind it.
fn bare<'a>(alloc: Global) -> Command<'a>
    ensures { IsMade bare result }
{
    let about = "Keeps backups, in which each change can be taken back";
    let command = Command::new(alloc, "keep").version("1.0").about(about);
    command
        .subcommand_required(true)
        .arg_required_else_help(true)
}

/// The command with these, each with what is common.
fn with_forms<'a>(
    alloc: Global,
    command: Command<'a>,
    forms: &[Form],
    common: &[Argument],
) -> Result<Command<'a>, AllocError>
    ensures { IfOk result (λ more. AddsForms common.now forms.now command.entry more) }
{
    let mut more = command;
    for form in forms {
        more = more.subcommand(command_of(alloc, form, common)?)?;
    }
    Ok(more)
}

fn command_of<'a>(
    alloc: Global,
    form: &Form,
    common: &[Argument],
) -> Result<Command<'a>, AllocError>
    ensures { IfOk result (IsMade (form_app common.now form.now)) }
{
    let command = Command::new(alloc, form.name).about(form.about);
    let command = with_arguments(alloc, command, form.arguments)?;
    with_arguments(alloc, command, common)
}

fn with_arguments<'a>(
    alloc: Global,
    command: Command<'a>,
    arguments: &[Argument],
) -> Result<Command<'a>, AllocError>
    ensures { IfOk result (λ more. AddsArguments arguments.now command.entry more) }
{
    let mut more = command;
    for argument in arguments {
        more = more.arg(arg_of(alloc, argument))?;
    }
    Ok(more)
}

fn arg_of<'a>(alloc: Global, argument: &Argument) -> Arg<'a>
    ensures rule { rule_of result ≡ rule_in argument.now }
    ensures local { result.global ≡ false }
{
    let name = argument.name;
    let arg = Arg::new(alloc, name).help(argument.help);
    match argument.kind {
        Kind::Flag => flag(arg, name),
        Kind::Text(value) => arg.long(name).value_name(value),
        Kind::Name(value) => named(arg, name, value),
        Kind::NeededName(value) => named(arg, name, value).required(true),
        Kind::Lettered(letter, value) => named(arg, name, value).short(letter),
        Kind::Names(value) => named(arg, name, value).action(ArgAction::Append),
        Kind::NeededNames(value) => {
            let arg = named(arg, name, value).action(ArgAction::Append);
            arg.required(true)
        }
        Kind::Number(least, most) => {
            let parser = ValueParser::Unsigned(least, most);
            arg.long(name).value_name("N").value_parser(parser)
        }
        Kind::Word => word(arg).required(true),
        Kind::WordOrNone => word(arg),
        Kind::Words => words(arg).required(true),
        Kind::Index => index(arg).required(true),
        Kind::IndexOrNone => index(arg),
    }
}

fn flag<'a>(arg: Arg<'a>, name: &'a str) -> Arg<'a>
    ensures rule { rule_of result ≡ record (rule_of arg.entry) {
      long = Some name.entry.now;
      action = Some SetTrue;
    } }
    ensures local { result.global ≡ arg.entry.global }
{
    arg.long(name).action(ArgAction::SetTrue)
}

/// An option that takes a text which isn't empty.
fn named<'a>(arg: Arg<'a>, name: &'a str, value: &'a str) -> Arg<'a>
    ensures rule { rule_of result ≡ record (rule_of arg.entry) {
      long = Some name.entry.now;
      value_names = 1;
      parser = Some NonEmptyString;
    } }
    ensures local { result.global ≡ arg.entry.global }
{
    let arg = arg.long(name).value_name(value);
    arg.value_parser(ValueParser::NonEmptyString)
}

fn word<'a>(arg: Arg<'a>) -> Arg<'a>
    ensures rule { rule_of result ≡ record (rule_of arg.entry) { parser = Some NonEmptyString } }
    ensures local { result.global ≡ arg.entry.global }
{
    arg.value_parser(ValueParser::NonEmptyString)
}

fn words<'a>(arg: Arg<'a>) -> Arg<'a>
    ensures rule { rule_of result ≡ record (rule_of arg.entry) {
      parser = Some NonEmptyString;
      action = Some Append;
      range = Some (record { start_inclusive = 1; end_inclusive = usize_max });
    } }
    ensures local { result.global ≡ arg.entry.global }
{
    word(arg).action(ArgAction::Append).num_args(1..)
}

fn index<'a>(arg: Arg<'a>) -> Arg<'a>
    ensures rule { rule_of result ≡ record (rule_of arg.entry) { parser = Some (Unsigned 0 18446744073709551615) } }
    ensures local { result.global ≡ arg.entry.global }
{
    arg.value_parser(ValueParser::Unsigned(0, u64::MAX))
}
