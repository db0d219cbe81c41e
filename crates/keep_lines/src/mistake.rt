ghost use Rattle.std.specs.Prelude.{◌++◌, codes};
ghost use Rattle.keep_lines.specs.Command.{IsNoCommand};
ghost use Rattle.keep_lines.specs.Mistake.{AsksKind, Explains};

use keep_names::parse_kind;
use std::fmt;

/// Why a line isn't one of the language. It prints as an operator is told.
#[derive(Clone, Copy, PartialEq, Eq)]
pub enum Mistake {
    /// It has more than 1,048,576 bytes.
    TooLong,
    /// It isn't UTF-8, or has a control character.
    NotText,
    /// No command has its first word and so many words behind it.
    NoCommand,
    /// Its second word is no kind of file.
    NotKind,
    /// Its last word isn't bytes in lower case hex.
    NotHex,
    /// Its last word isn't a number.
    NotNumber,
    /// Its last word can't be a name.
    NotName,
    /// Its last word is neither an id nor `@N`.
    NotTarget,
    /// What follows `backup` isn't a host, a time and files.
    NotBackup,
    /// What follows `tag` isn't a filter's name and signed words.
    NotTag,
    /// What follows `forget` isn't a filter's name and rules, each count once.
    NotForget,
    /// What follows `rewrite` isn't a filter's name, with or without `forget`, and patterns.
    NotRewrite,
    /// No filter has the name.
    NoFilter,
    /// `@N` names nothing: change N added no such file.
    NoFile,
    /// No note was taken under the name.
    NoNote,
    /// No veto or watch that could be armed has the name.
    NoHook,
}

impl fmt::Display for Mistake {
    ghost use Rattle.std.specs.Prelude.{Some};
    ghost use Rattle.keep_lines.specs.Mistake.{mistake_text};

    ghost output = { λ mistake. Some (mistake_text mistake) };

    fn fmt<W: fmt::Write>(&self, f: &mut fmt::Formatter<W>) -> fmt::Result {
        let text = match self {
            Mistake::TooLong => "more than 1,048,576 bytes",
            Mistake::NotText => "not a line of text",
            Mistake::NoCommand => "no such command",
            Mistake::NotKind => "KIND is pack, index or snapshot",
            Mistake::NotHex => "HEX isn't lower case hex",
            Mistake::NotNumber => "N isn't a number",
            Mistake::NotName => "NAME isn't a name",
            Mistake::NotTarget => "neither 64 digits nor @N",
            Mistake::NotBackup => "not HOST TIME PATH=HEX ..",
            Mistake::NotTag => "not FILTER, and words +T, -T or =T",
            Mistake::NotForget => { "not FILTER, and rules last=N .. yearly=N once each, or tag=T" }
            Mistake::NotRewrite => "not FILTER PATTERN .. or FILTER forget PATTERN ..",
            Mistake::NoFilter => "no such FILTER",
            Mistake::NoFile => "@N names nothing",
            Mistake::NoNote => "no note of this NAME",
            Mistake::NoHook => "no veto or watch of this NAME",
        };
        f.write_str(text)
    }
}

/// Why the text of a line is no command's.
pub(crate) fn mistake_of(text: &str) -> Mistake
    requires { IsNoCommand text.now }
    ensures { Explains text.now result }
{
    let Some((verb, rest)) = text.split_once(' ') else {
        return Mistake::NoCommand;
    };
    match verb {
        "undo" | "redo" | "empty" | "cascade" | "sweep" => Mistake::NotNumber,
        "note" | "same" | "arm" => Mistake::NotName,
        "restore" => Mistake::NotTarget,
        "backup" => Mistake::NotBackup,
        "tag" => Mistake::NotTag,
        "forget" => Mistake::NotForget,
        "rewrite" => Mistake::NotRewrite,
        "add" | "drop" => mistake_of_file(verb, rest),
        _ => Mistake::NoCommand,
    }
}

/// Why what follows `add` or `drop` is no kind with bytes or a file.
fn mistake_of_file(verb: &str, rest: &str) -> Mistake
    requires verb { AsksKind verb.now }
    requires none { IsNoCommand (verb.now ++ (codes " " ++ rest.now)) }
    ensures { Explains (verb.now ++ (codes " " ++ rest.now)) result }
{
    let Some((word, _)) = rest.split_once(' ') else {
        return Mistake::NoCommand;
    };
    let Some(_) = parse_kind(word) else {
        return Mistake::NotKind;
    };
    match verb {
        "add" => Mistake::NotHex,
        _ => Mistake::NotTarget,
    }
}
