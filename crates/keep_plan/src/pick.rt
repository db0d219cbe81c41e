ghost use Rattle.std.specs.Prelude.{◌≡◌, IfOk, map, option_map, string_bytes};
ghost use Rattle.std.specs.List.{list_any};
ghost use Rattle.std.specs.Str.{bytes_eq};
ghost use Rattle.keep_plan.specs.Picks.{has, is_of_host};
ghost use Rattle.keep_plan.specs.Picks as spec;
ghost use Rattle.keep_plan.specs.Needs.{needs_view};
ghost use Rattle.keep_snap.specs.Facts.{facts_view};

use keep_names::Id;
use keep_snap::SnapFacts;
use std::alloc::AllocError;

/// Which snapshots a filter takes.
#[derive(Drop)]
pub enum Pick {
    /// Each.
    Any,
    /// Those of this host. A snapshot without a host has the empty text there.
    Host(String),
    /// Those with this tag among theirs.
    Tagged(String),
    /// Those with this path among theirs.
    Path(String),
    /// That of this name.
    Named(Id),
    /// Those that meet all that is needed.
    Meeting(Needs),
}

/// What a snapshot has to have, as far as each is given.
#[derive(Drop)]
pub struct Needs {
    /// It may be empty, as the host of a snapshot may.
    pub host: Option<String>,
    pub tag: Option<String>,
    pub path: Option<String>,
}

impl Needs {
    /// What they ask, once more.
    pub fn copied(&self) -> Result<Needs, AllocError>
        ensures { IfOk result (λ made. needs_view made ≡ needs_view self.now) }
    {
        let host = copied_text(&self.host)?;
        let tag = copied_text(&self.tag)?;
        let path = copied_text(&self.path)?;
        Ok(Needs { host, tag, path })
    }
}

fn copied_text(text: &Option<String>) -> Result<Option<String>, AllocError>
    ensures { IfOk result (λ made. option_map string_bytes made ≡ option_map string_bytes text.now) }
{
    match text {
        Some(text) => Ok(Some(text.clone()?)),
        None => Ok(None),
    }
}

/// Whether the text is among the tags. A question that is stored under `Tagged` calls it.
pub fn has_tag(facts: &SnapFacts, tag: &str) -> bool
    ensures { result ≡ list_any (λ given. bytes_eq given tag.now) (map string_bytes facts.now.tags.items) }
{
    has_text(&facts.tags, tag)
}

/// Whether the text is among the paths. A question that is stored under `Path` calls it.
pub fn has_path(facts: &SnapFacts, path: &str) -> bool
    ensures { result ≡ list_any (λ given. bytes_eq given path.now) (map string_bytes facts.now.paths.items) }
{
    has_text(&facts.paths, path)
}

/// Whether the snapshot meets all that is needed. A question that is stored under `Meeting` calls it.
pub fn meets(facts: &SnapFacts, needs: &Needs) -> bool
    ensures { result ≡ spec.meets (needs_view needs.now) (facts_view facts.now) }
{
    let is_there = is_there(&facts.host, &needs.host);
    let is_tagged = has_needed(&facts.tags, &needs.tag);
    let has_path = has_needed(&facts.paths, &needs.path);
    is_there & is_tagged & has_path
}

fn is_there(host: &String, needed: &Option<String>) -> bool
    ensures { result ≡ is_of_host (option_map string_bytes needed.now) (string_bytes host.now) }
{
    match needed {
        Some(needed) => host.as_str() == needed.as_str(),
        None => true,
    }
}

fn has_needed(texts: &[String], needed: &Option<String>) -> bool
    ensures { result ≡ has (option_map string_bytes needed.now) (map string_bytes texts.now) }
{
    match needed {
        Some(text) => has_text(texts, text.as_str()),
        None => true,
    }
}

fn has_text(texts: &[String], text: &str) -> bool
    ensures { result ≡ list_any (λ given. bytes_eq given text.now) (map string_bytes texts.now) }
{
    for given in texts {
        if given.as_str() == text {
            return true;
        }
    }
    false
}
