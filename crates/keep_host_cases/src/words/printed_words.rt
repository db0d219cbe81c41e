use crate::words::shown_words::{List, Maybe, given};
use keep_words::{Backup, Chosen, Command, Forget, Keep, Restore, Rewrite, Tag, Words};
use std::io::{self, Write};

/// Writes what the words ask, in a line: the folder, `json`, the seconds to wait, and the command.
pub(crate) fn print_words<W: Write>(words: &Words<'_>, writer: &mut W) -> io::Result<()> {
    let repo = Maybe(words.repo);
    let json = given(words.json, "json");
    write!(writer, "{repo} {json} {} ", words.wait)?;
    print_command(&words.command, writer)?;
    writer.write_all(b"\n")
}

fn print_command<W: Write>(command: &Command<'_>, writer: &mut W) -> io::Result<()> {
    match command {
        Command::Backup(backup) => print_backup(backup, writer),
        Command::Restore(restore) => print_restore(restore, writer),
        Command::Forget(forget) => print_forget(forget, writer),
        Command::Tag(tag) => print_tag(tag, writer),
        Command::Rewrite(rewrite) => print_rewrite(rewrite, writer),
        Command::Snapshots { chosen, latest } => {
            writer.write_all(b"snapshots ")?;
            print_chosen(chosen, writer)?;
            write!(writer, " {}", Maybe(*latest))
        }
        Command::Ls { snapshot, path } => write!(writer, "ls {snapshot} {}", Maybe(*path)),
        Command::Dump { snapshot, path } => write!(writer, "dump {snapshot} {path}"),
        Command::Diff { old, new } => write!(writer, "diff {old} {new}"),
        Command::Find { pattern } => write!(writer, "find {pattern}"),
        Command::Init { folder } => write!(writer, "init {folder}"),
        Command::Script { file } => write!(writer, "script {}", Maybe(*file)),
        Command::Rescue { folder, target } => write!(writer, "rescue {folder} {target}"),
        other => print_numbers(other, writer),
    }
}

/// Those that go by numbers and flags.
fn print_numbers<W: Write>(command: &Command<'_>, writer: &mut W) -> io::Result<()> {
    match command {
        Command::Check { read_data } => {
            write!(writer, "check {}", given(*read_data, "read-data"))
        }
        Command::Repair => writer.write_all(b"repair"),
        Command::Mark => writer.write_all(b"mark"),
        Command::Sweep { older_than } => write!(writer, "sweep {older_than}"),
        Command::Prune { older_than } => write!(writer, "prune {older_than}"),
        Command::History { last } => write!(writer, "history {}", Maybe(*last)),
        Command::Show { change } => write!(writer, "show {change}"),
        Command::Redo { change } => write!(writer, "redo {change}"),
        Command::Undo {
            change,
            with_all,
            yes,
        } => {
            let with_all = given(*with_all, "with-all");
            write!(writer, "undo {change} {with_all} {}", given(*yes, "yes"))
        }
        Command::Empty { through, yes } => {
            write!(writer, "empty {through} {}", given(*yes, "yes"))
        }
        Command::Graph { change, dot } => {
            write!(writer, "graph {} {}", Maybe(*change), given(*dot, "dot"))
        }
        _ => Ok(()),
    }
}

fn print_backup<W: Write>(backup: &Backup<'_>, writer: &mut W) -> io::Result<()> {
    write!(
        writer,
        "backup {} {}",
        List(&backup.paths),
        Maybe(backup.host)
    )?;
    write!(writer, " {} {}", Maybe(backup.time), List(&backup.tags))?;
    let dry_run = given(backup.dry_run, "dry-run");
    write!(writer, " {} {dry_run}", List(&backup.exclude))
}

fn print_chosen<W: Write>(chosen: &Chosen<'_>, writer: &mut W) -> io::Result<()> {
    let (host, tag) = (Maybe(chosen.host), Maybe(chosen.tag));
    write!(writer, "{host} {tag} {}", Maybe(chosen.path))
}

fn print_restore<W: Write>(restore: &Restore<'_>, writer: &mut W) -> io::Result<()> {
    write!(writer, "restore {} {}", restore.snapshot, restore.target)?;
    write!(writer, " {}", List(&restore.include))
}

fn print_forget<W: Write>(forget: &Forget<'_>, writer: &mut W) -> io::Result<()> {
    writer.write_all(b"forget ")?;
    print_chosen(&forget.chosen, writer)?;
    writer.write_all(b" ")?;
    print_keep(&forget.keep, writer)?;
    write!(writer, " {}", given(forget.dry_run, "dry-run"))
}

fn print_keep<W: Write>(keep: &Keep<'_>, writer: &mut W) -> io::Result<()> {
    write!(writer, "{} {} ", Maybe(keep.last), Maybe(keep.daily))?;
    write!(writer, "{} {} ", Maybe(keep.weekly), Maybe(keep.monthly))?;
    write!(writer, "{} {}", Maybe(keep.yearly), List(&keep.tags))
}

fn print_tag<W: Write>(tag: &Tag<'_>, writer: &mut W) -> io::Result<()> {
    write!(writer, "tag {} {}", Maybe(tag.snapshot), List(&tag.add))?;
    write!(writer, " {}", List(&tag.remove))?;
    write!(writer, " {}", List(&tag.set))
}

fn print_rewrite<W: Write>(rewrite: &Rewrite<'_>, writer: &mut W) -> io::Result<()> {
    let forget = given(rewrite.forget, "forget");
    let dry_run = given(rewrite.dry_run, "dry-run");
    write!(
        writer,
        "rewrite {} {forget} {dry_run}",
        List(&rewrite.exclude)
    )
}
