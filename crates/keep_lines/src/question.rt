ghost use Rattle.std.specs.Prelude.{◌≡◌, ◌≢◌, IfNone, IfSome, codes};
ghost use Rattle.keep_names.specs.Parses.{Parses};
ghost use Rattle.keep_lines.specs.Question.{IsQuestion, question_text};

use crate::word::{MeantFile, is_name, parse_target};

/// What a line asks to be told. Nothing changes for it.
#[derive(Clone, Copy, PartialEq, Eq)]
pub enum Question<'a> {
    List,
    Count,
    History,
    /// Whether the repository is as it was when the note of this name was taken.
    Same(&'a str),
    Restore(MeantFile),
    Audit,
    Totals,
}

/// The question that the line asks.
pub(crate) fn parse_question(text: &str) -> Option<Question<'_>>
    ensures { Parses IsQuestion question_text text.now result }
{
    match text.split_once(' ') {
        None => bare_question(text),
        Some(("same", name)) if is_name(name) => Some(Question::Same(name)),
        Some(("restore", target)) => Some(Question::Restore(parse_target(target)?)),
        Some(_) => None,
    }
}

/// The question of a line of one word.
fn bare_question(word: &str) -> Option<Question<'_>>
    ensures value { IfSome result (λ question. IsQuestion question × (question_text question ≡ word.now)) }
    ensures none { IfNone result
        ((word.now ≢ codes "list") × (word.now ≢ codes "count") × (word.now ≢ codes "history")
        × (word.now ≢ codes "audit") × (word.now ≢ codes "totals")) }
{
    match word {
        "list" => Some(Question::List),
        "count" => Some(Question::Count),
        "history" => Some(Question::History),
        "audit" => Some(Question::Audit),
        "totals" => Some(Question::Totals),
        _ => None,
    }
}
