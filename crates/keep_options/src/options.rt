ghost use Rattle.std.specs.Prelude.{◌≡◌, ◌≤◌, IfOk, IsSomeAnd, None, codes, map, ok_or, option_map};
ghost use Rattle.std.specs.List.{list_any};
ghost use Rattle.std.specs.Str.{bytes_eq};
ghost use Rattle.clap.specs.Words.{app_of, found_of, kind_of, rows_of, with_rule};
ghost use Rattle.keep_options.specs.Option as options;
ghost use Rattle.keep_options.specs.Reading.{IsFolderRead, Reads, Says, refusal_of};
ghost use Rattle.keep_options.specs.declared.options.BadOptions.TheVariants.{Memory, Refused};

use clap::error::ErrorKind;
use clap::{Arg, ArgMatches, Command};
use keep_snap::parse_moment;
use std::alloc::{AllocError, Global};
use thiserror::Error;

/// What the words behind the program's name say.
#[derive(Clone, Copy)]
pub struct Options<'a> {
    /// After how many bytes a backup cuts a file into blobs: 1 to 8,388,608.
    pub cut: u32,
    /// The moment for marks and sweeps: whole seconds since 1970-01-01T00:00:00Z.
    pub now: i64,
    /// The moment for marks and sweeps, as the words write it.
    pub time: &'a str,
    /// The host whose snapshots the filter `host` takes. It may be empty.
    pub host: &'a str,
    /// The tag whose snapshots the filter `tagged` takes.
    pub tagged: &'a str,
    /// How many snapshots a change may drop that the veto `few-drops` lets pass: 0 to 1,048,576.
    pub drops: u32,
    /// The folder whose files the script is answered over. Where none is named, there are no files at first, and what
    /// the script leaves is let go.
    pub folder: Option<&'a str>,
    /// How many operators back up a file each behind a script that was answered to its end without a fault: 0 to 8.
    pub crew: u32,
}

/// Why no options are read.
#[derive(Clone, Copy, Debug, PartialEq, Eq, Error)]
pub enum BadOptions {
    /// A word is no option, an option has no value or stands twice, or it doesn't take its value.
    /// The program has no `--help`, `-h` and `--version`.
    #[error("bad options")]
    Refused,
    #[error("no memory")]
    Memory,
}

impl From<AllocError> for BadOptions {
    ghost from_gives = { λ _ error. error ≡ Memory };

    fn from(_error: AllocError) -> BadOptions {
        BadOptions::Memory
    }
}

impl From<clap::Error> for BadOptions {
    ghost from_gives = { λ cause error. error ≡ refusal_of (kind_of cause) };

    fn from(cause: clap::Error) -> BadOptions {
        match cause.kind() {
            ErrorKind::OutOfMemory => BadOptions::Memory,
            _ => BadOptions::Refused,
        }
    }
}

/// Reads the options from the words behind the program's name.
///
/// An option is `--NAME VALUE` or `--NAME=VALUE`, and stands once at most. A value that begins with
/// `-` has to be joined by `=`. A number is decimal digits, and a plus may stand in front. A time is as RFC 3339
/// writes it. The folder's name isn't empty.
pub fn read_options<'a>(alloc: Global, words: &'a [&'a str]) -> Result<Options<'a>, BadOptions>
    ensures given { Reads (map (λ word. word.now) words.entry.now) result }
    ensures range { IfOk result (λ options. (1 ≤ options.cut) × (options.cut ≤ 8388608)) }
    ensures few { IfOk result (λ options. options.crew ≤ 8) }
{
    if has_dashes(words) {
        return Err(BadOptions::Refused);
    }
    let command = command(alloc)?;
    let matches = command.try_get_matches_from(words)?;
    options_in(&matches)
}

/// The word behind the longest beginning of the words that is options. There is one, since no words
/// at all are options.
pub fn find_bad_word<'a>(alloc: Global, words: &[&'a str]) -> Result<Option<&'a str>, AllocError>
    requires { options.options_of (map (λ word. word.now) words.now) ≡ None }
    ensures { IfOk result (λ bad. IsSomeAnd bad (λ word.
        options.IsBadWord (map (λ word. word.now) words.entry.now) word.now)) }
{
    for count in (0..words.len()).rev() {
        match read_options(alloc, &words[..count]) {
            Ok(_) => return Ok(Some(words[count])),
            Err(BadOptions::Refused) => {}
            Err(BadOptions::Memory) => return Err(AllocError),
        }
    }
    Ok(None)
}

/// Whether `--` is among the words.
fn has_dashes(words: &[&str]) -> bool
    ensures { result ≡ list_any (λ word. bytes_eq word.now (codes "--")) words.now }
{
    words.iter().any(|word| *word == "--")
}

/// The command whose options the program takes.
fn command<'a>(alloc: Global) -> Result<Command<'a>, AllocError>
    ensures { IfOk result (λ command. app_of command ≡ options.command) }
{
    let program = Command::new(alloc, "keepd").no_binary_name(true);
    let command = with_option(alloc, program, "cut")?;
    let command = with_option(alloc, command, "now")?;
    let command = with_option(alloc, command, "host")?;
    let command = with_option(alloc, command, "tagged")?;
    let command = with_option(alloc, command, "drops")?;
    let command = with_option(alloc, command, "folder")?;
    let command = with_option(alloc, command, "crew")?;
    Ok(command)
}

/// The command with one more option, which takes one value.
fn with_option<'a>(
    alloc: Global,
    command: Command<'a>,
    name: &'a str,
) -> Result<Command<'a>, AllocError>
    ensures { IfOk result (λ more.
        app_of more ≡ with_rule (app_of command.entry) (options.option name.entry.now)) }
{
    command.arg(Arg::new(alloc, name).long(name))
}

/// What the words of these matches say.
fn options_in<'a>(matches: &ArgMatches<'a>) -> Result<Options<'a>, BadOptions>
    ensures said { Says (options.options_in (rows_of (found_of matches.now))) result }
    ensures range { IfOk result (λ options. (1 ≤ options.cut) × (options.cut ≤ 8388608)) }
    ensures few { IfOk result (λ options. options.crew ≤ 8) }
{
    let cut = CUTS.read(matches.get_str("cut"))?;
    let now = read_moment(matches.get_str("now"))?;
    let drops = DROPS.read(matches.get_str("drops"))?;
    let folder = read_folder(matches.get_str("folder"))?;
    let crew = CREWS.read(matches.get_str("crew"))?;
    let time = matches.get_str("now").unwrap_or("1970-01-01T00:00:00Z");
    let host = matches.get_str("host").unwrap_or("web");
    let tagged = matches.get_str("tagged").unwrap_or("keep");
    Ok(Options {
        cut,
        now,
        time,
        host,
        tagged,
        drops,
        folder,
        crew,
    })
}

/// The folder that the word names, where there is a word.
fn read_folder(word: Option<&str>) -> Result<Option<&str>, BadOptions>
    ensures { IsFolderRead (options.folder_in (option_map (λ text. text.now) word.entry)) result }
{
    let Some(name) = word else {
        return Ok(None);
    };
    if name.is_empty() {
        return Err(BadOptions::Refused);
    }
    Ok(Some(name))
}

/// The moment that the word writes, or the one that is usual.
fn read_moment(word: Option<&str>) -> Result<i64, BadOptions>
    ensures { result ≡ ok_or (options.moment_or_first (option_map (λ text. text.now) word.entry)) Refused }
{
    let Some(text) = word else {
        return Ok(0);
    };
    parse_moment(text).ok_or(BadOptions::Refused)
}

/// The numbers that an option takes, and the one that stands where the words give none.
#[derive(Clone, Copy)]
struct Numbers {
    least: u32,
    most: u32,
    usual: u32,
}

const CUTS: Numbers = Numbers {
    least: 1,
    most: 8_388_608,
    usual: 1_048_576,
};

const DROPS: Numbers = Numbers {
    least: 0,
    most: 1_048_576,
    usual: 1,
};

const CREWS: Numbers = Numbers {
    least: 0,
    most: 8,
    usual: 0,
};

impl Numbers {
    /// The number that the words give, or the usual one.
    fn read(self, word: Option<&str>) -> Result<u32, BadOptions>
        ensures { result ≡ ok_or (options.number_or self.least self.most self.usual
            (option_map (λ text. text.now) word.entry)) Refused }
    {
        let Some(text) = word else {
            return Ok(self.usual);
        };
        let Ok(number) = text.parse() else {
            return Err(BadOptions::Refused);
        };
        if number < self.least || self.most < number {
            return Err(BadOptions::Refused);
        }
        Ok(number)
    }
}
