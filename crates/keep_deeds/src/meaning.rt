ghost use Rattle.std.specs.Prelude.{◌≡◌, IfOk};
ghost use Rattle.keep_docs.specs.Doc.{Answers};
ghost use Rattle.keep_deeds.specs.Deed.{deed_in, deed_view, forgetting, option_view, rewriting, tagging};
ghost use Rattle.keep_deeds.specs.declared.deed.NoDeed.TheVariants.{Memory};

use crate::deed::{Deed, NoDeed};
use crate::deed_texts::texts_of;
use crate::tasks::{aimed, chosen, edit_of, policy_of};
use keep_acts::Choice;
use keep_jobs::Task;
use keep_ledger::Request;
use keep_names::Id;
use keep_words::{Command, Forget, Rewrite, Tag};
use std::alloc::{AllocError, Global};

/// What the command asks of the book, where the snapshot that it names is this one; nothing where it only looks at the
/// book, or is done beside it.
pub fn deed_of(
    alloc: Global,
    command: &Command<'_>,
    named: Option<Id>,
) -> Result<Option<Deed>, NoDeed>
    ensures { Answers Memory option_view (deed_in named command.now) result }
{
    match command {
        Command::Forget(words) => Ok(Some(forget(alloc, words)?)),
        Command::Tag(words) => Ok(Some(tag(alloc, words, named)?)),
        Command::Rewrite(words) => Ok(Some(rewrite(alloc, words)?)),
        Command::Repair => Ok(Some(Deed::Repair)),
        Command::Mark => Ok(Some(Deed::Mark)),
        Command::Sweep { older_than } => Ok(Some(Deed::Sweep(*older_than))),
        Command::Prune { older_than } => Ok(Some(Deed::Prune(*older_than))),
        Command::Undo {
            change,
            with_all: true,
            ..
        } => Ok(Some(Deed::Cascade(*change))),
        Command::Undo { change, .. } => Ok(Some(Deed::Ask(Request::Undo(*change)))),
        Command::Redo { change } => Ok(Some(Deed::Ask(Request::Redo(*change)))),
        Command::Empty { through, .. } => Ok(Some(Deed::Ask(Request::Empty(*through)))),
        _ => Ok(None),
    }
}

fn forget(alloc: Global, words: &Forget<'_>) -> Result<Deed, AllocError>
    ensures { IfOk result (λ deed. deed_view deed ≡ forgetting words.now) }
{
    let choice = chosen(alloc, words.chosen)?;
    let policy = policy_of(alloc, &words.keep)?;
    Ok(Deed::Do {
        choice,
        task: Task::Forget(policy),
        is_dry: words.dry_run,
    })
}

fn tag(alloc: Global, words: &Tag<'_>, named: Option<Id>) -> Result<Deed, NoDeed>
    ensures { Answers Memory deed_view (tagging named words.now) result }
{
    let choice = aimed(words, named)?;
    let edit = edit_of(alloc, words)?;
    Ok(Deed::Do {
        choice,
        task: Task::Tag(edit),
        is_dry: false,
    })
}

fn rewrite(alloc: Global, words: &Rewrite<'_>) -> Result<Deed, AllocError>
    ensures { IfOk result (λ deed. deed_view deed ≡ rewriting words.now) }
{
    let patterns = texts_of(alloc, &words.exclude)?;
    Ok(Deed::Do {
        choice: Choice::All,
        task: Task::Rewrite {
            forget: words.forget,
            patterns,
        },
        is_dry: words.dry_run,
    })
}
