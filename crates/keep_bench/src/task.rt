ghost use Rattle.std.specs.Prelude.{◌≡◌, ◌↔◌, Some, codes};

/// What is done with the input.
#[derive(Clone, Copy, PartialEq, Eq)]
pub(crate) enum Task {
    Document,
    Pack,
    Backup,
    Forget,
    Entry,
    EntryAgain,
    Commits,
    Undo,
}

/// The task that a word of the command line names.
pub(crate) fn task_named(word: &str) -> Option<Task>
    ensures document { (result ≡ Some Task.Document) ↔ (word.now ≡ codes "document") }
    ensures pack { (result ≡ Some Task.Pack) ↔ (word.now ≡ codes "pack") }
    ensures backup { (result ≡ Some Task.Backup) ↔ (word.now ≡ codes "backup") }
    ensures forget { (result ≡ Some Task.Forget) ↔ (word.now ≡ codes "forget") }
    ensures entry { (result ≡ Some Task.Entry) ↔ (word.now ≡ codes "entry") }
    ensures again { (result ≡ Some Task.EntryAgain) ↔ (word.now ≡ codes "entry-again") }
    ensures commits { (result ≡ Some Task.Commits) ↔ (word.now ≡ codes "commits") }
    ensures undo { (result ≡ Some Task.Undo) ↔ (word.now ≡ codes "undo") }
{
    match word {
        "document" => Some(Task::Document),
        "pack" => Some(Task::Pack),
        "backup" => Some(Task::Backup),
        "forget" => Some(Task::Forget),
        "entry" => Some(Task::Entry),
        "entry-again" => Some(Task::EntryAgain),
        "commits" => Some(Task::Commits),
        "undo" => Some(Task::Undo),
        _ => None,
    }
}
