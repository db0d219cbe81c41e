use crate::case_words::{cut, cut_part, text_of, texts_in, words_in};
use crate::no_answer::No;
use keep_names::{Id, parse_id};
use keep_snap::{Snap, SnapFacts, read_snap, write_snap};
use std::alloc::{AllocError, Global};

pub(crate) fn snapshot(alloc: Global, bytes: &[u8]) -> Result<String, No> {
    let snap = read_snap(alloc, bytes)?;
    written(alloc, &snap)
}

fn written(alloc: Global, snap: &Snap) -> Result<String, No> {
    let written = write_snap(alloc, snap)?;
    text_of(alloc, &written)
}

/// The snapshot that stands in place of another one, under other tags.
pub(crate) fn retag(alloc: Global, text: &str) -> Result<String, No> {
    let (head, text) = cut_part(text);
    let (old, tags) = cut(head);
    let old = parse_id(old)?;
    let tags = texts_in(alloc, &words_in(alloc, tags)?)?;
    let snap = read_snap(alloc, text.as_bytes())?;
    let made = keep_snap::retag(alloc, &snap, old, tags)?;
    written(alloc, &made)
}

/// The snapshot that is made of another one, with another tree.
pub(crate) fn retree(alloc: Global, text: &str) -> Result<String, No> {
    let (head, text) = cut_part(text);
    let words = words_in(alloc, head)?;
    let (old, tree, is_tagged) = match words.as_slice() {
        [old, tree] => (*old, *tree, false),
        [old, tree, "tagged"] => (*old, *tree, true),
        _ => return Err(No::Case),
    };
    let (old, tree) = (parse_id(old)?, parse_id(tree)?);
    with_tree(alloc, text, old, tree, is_tagged)
}

fn with_tree(alloc: Global, text: &str, old: Id, tree: Id, is_tagged: bool) -> Result<String, No> {
    let snap = read_snap(alloc, text.as_bytes())?;
    let made = keep_snap::retree(alloc, &snap, old, tree, is_tagged)?;
    written(alloc, &made)
}

/// What filters ask of a snapshot of a name.
pub(crate) fn facts(alloc: Global, text: &str) -> Result<String, No> {
    let (name, text) = cut_part(text);
    let name = parse_id(name)?;
    let snap = read_snap(alloc, text.as_bytes())?;
    let facts = keep_snap::facts(alloc, &snap, name)?;
    facts_text(alloc, &facts)
}

fn facts_text(alloc: Global, facts: &SnapFacts) -> Result<String, No> {
    let paths = listed(alloc, &facts.paths)?;
    let tags = listed(alloc, &facts.tags)?;
    let who = format!(in alloc; "host [{}] user [{}]", facts.host, facts.user)?;
    let days = format!(in alloc;
        "{} day {} week {} month {}-{} year {}",
        facts.instant, facts.day, facts.week, facts.month.year, facts.month.month, facts.year
    )?;
    Ok(format!(in alloc;
        "{} {days} {who} paths{paths} tags{tags} tree {}",
        facts.name, facts.tree
    )?)
}

/// Each text between brackets.
fn listed(alloc: Global, texts: &[String]) -> Result<String, AllocError> {
    let mut told = String::new(alloc);
    for text in texts {
        told.push_str(" [")?;
        told.push_str(text.as_str())?;
        told.push(']')?;
    }
    Ok(told)
}
