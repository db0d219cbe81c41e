ghost use Rattle.std.specs.Prelude.{◌≡◌, ◌++◌, ⊤, IfOk, codes, is_some, option_map};
ghost use Rattle.std.specs.Fmt.{decimal};
ghost use Rattle.std.specs.Str.Iter.{LacksByte};
ghost use Rattle.keep_lines.specs.Policies.{counted_by};
ghost use Rattle.keep_labels.specs.declared.count.Count.{Count};
ghost use Rattle.keep_lines.specs.ForgetLine.{IsCounted, IsForget, count_once, forget_text, rule_text, stands_once};
ghost use Rattle.keep_names.specs.Parses.{Parses};

use crate::word_list::{Word, parse_for_filter};
use keep_labels::Count;
use keep_names::parse_number;
use std::alloc::{AllocError, Global};

/// Snapshots to drop, of those that a filter takes: the ones that no rule keeps.
#[derive(Drop)]
pub struct ForgetLine {
    /// The filter's name.
    pub filter: String,
    pub rules: Vec<Rule>,
}

/// A part of a policy of forget.
#[derive(Drop)]
pub enum Rule {
    Last(Count),
    Daily(Count),
    Weekly(Count),
    Monthly(Count),
    Yearly(Count),
    /// Snapshots with this tag are kept.
    Tag(String),
}

/// What a rule counts, if it counts.
#[derive(Clone, Copy)]
pub(crate) enum Span {
    Last,
    Day,
    Week,
    Month,
    Year,
}

impl Rule {
    /// How many of these the rule keeps, if it counts these.
    pub(crate) fn count_for(&self, span: Span) -> Option<Count>
        ensures { option_map (λ count. count.number) result ≡ counted_by span self.now }
    {
        match (span, self) {
            (Span::Last, Rule::Last(count)) => Some(*count),
            (Span::Day, Rule::Daily(count)) => Some(*count),
            (Span::Week, Rule::Weekly(count)) => Some(*count),
            (Span::Month, Rule::Monthly(count)) => Some(*count),
            (Span::Year, Rule::Yearly(count)) => Some(*count),
            _ => None,
        }
    }
}

/// The forget that these words ask for: `FILTER RULE ..`, where no count stands twice.
pub(crate) fn parse_forget(alloc: Global, text: &str) -> Result<Option<ForgetLine>, AllocError>
    ensures { IfOk result (Parses IsForget forget_text text.now) }
{
    let Some((filter, rules)) = parse_for_filter(alloc, text)? else {
        return Ok(None);
    };
    if !count_once(&rules) {
        return Ok(None);
    }
    Ok(Some(ForgetLine { filter, rules }))
}

/// `tag=T`, where T may be empty, or a count: `last=N` and so on, N being 1 to 1,048,576.
impl Word for Rule {
    ghost use Rattle.keep_lines.specs.ForgetLine.{IsRule};

    ghost IsSaid = { IsRule };

    ghost text = { rule_text };

    ghost spaceless = { λ rule said. said };

    fn parse(alloc: Global, word: &str) -> Result<Option<Rule>, AllocError> {
        let Some((name, value)) = word.split_once('=') else {
            return Ok(None);
        };
        if name == "tag" {
            let tag = String::from_str(alloc, value)?;
            return Ok(Some(Rule::Tag(tag)));
        }
        Ok(parse_counted(name, value))
    }
}

/// The rule that counts what this name says.
fn parse_counted(name: &str, value: &str) -> Option<Rule>
    requires { LacksByte 61 name.now }
    ensures { Parses IsCounted rule_text (name.now ++ (codes "=" ++ value.now)) result }
{
    let count = parse_count(value)?;
    match name {
        "last" => Some(Rule::Last(count)),
        "daily" => Some(Rule::Daily(count)),
        "weekly" => Some(Rule::Weekly(count)),
        "monthly" => Some(Rule::Monthly(count)),
        "yearly" => Some(Rule::Yearly(count)),
        _ => None,
    }
}

/// The count of these digits.
fn parse_count(word: &str) -> Option<Count>
    ensures { Parses (λ (count : Count). ⊤) (λ count. decimal count.number) word.now result }
{
    let number = parse_number(word)?;
    let number = u32::try_from(number).ok()?;
    Count::new(number)
}

/// Whether each count stands at most once.
fn count_once(rules: &[Rule]) -> bool
    ensures { result ≡ count_once rules.now }
{
    stands_once(rules, Span::Last)
        && stands_once(rules, Span::Day)
        && stands_once(rules, Span::Week)
        && stands_once(rules, Span::Month)
        && stands_once(rules, Span::Year)
}

fn stands_once(rules: &[Rule], span: Span) -> bool
    ensures { result ≡ stands_once span rules.now }
{
    rules.iter().filter(|rule| counts(rule, span)).count() <= 1
}

fn counts(rule: &Rule, span: Span) -> bool
    ensures { result ≡ is_some (counted_by span rule.now) }
{
    rule.count_for(span).is_some()
}
