ghost use Rattle.std.specs.Prelude.{◌≡◌, ◌||◌, IfOk, map, ok_or};
ghost use Rattle.std.specs.List.{list_any};
ghost use Rattle.keep_docs.specs.Doc.{Answers};
ghost use Rattle.keep_patterns.specs.Matching.{is_nil};
ghost use Rattle.keep_patterns.specs.Parsing as spec;
ghost use Rattle.keep_patterns.specs.declared.parsing.PatternError.TheVariants.{BadPattern, Memory};

use crate::letters::letters_of;
use crate::pattern::{Component, Pattern};
use std::alloc::{AllocError, Global};

/// Why a text wasn't read as a pattern.
#[derive(Clone, Copy, Debug, PartialEq, Eq)]
pub enum PatternError {
    /// A component is missing or empty, it begins with `!`, or a `[` or a `\` stands in it.
    BadPattern,
    Memory,
}

impl From<AllocError> for PatternError {
    ghost use Rattle.std.specs.Prelude.{◌≡◌};
    ghost use Rattle.keep_patterns.specs.declared.parsing.PatternError.TheVariants.{Memory};

    ghost from_gives = { λ _ error. error ≡ Memory };

    fn from(_error: AllocError) -> PatternError {
        PatternError::Memory
    }
}

/// Reads a pattern: components with `/` between them, and one before them where it is anchored. One behind
/// them says nothing. `**` takes any number of components; in others `*` takes any characters, and `?` one.
pub fn parse_pattern(alloc: Global, text: &str) -> Result<Pattern, PatternError>
    ensures { Answers Memory spec.pattern_view (ok_or (spec.pattern_of text.now) BadPattern) result }
{
    let found = parts_of(alloc, text)?;
    let parts = found.as_slice();
    if is_bad(text, parts) {
        return Err(PatternError::BadPattern);
    }
    let components = components_of(alloc, parts)?;
    let anchored = begins_with(text, b'/');
    Ok(Pattern {
        anchored,
        components,
    })
}

/// What stands between the slashes.
fn parts_of<'a>(alloc: Global, text: &'a str) -> Result<Vec<&'a str>, AllocError>
    ensures { IfOk result (λ parts. map (λ part. part.now) parts.items ≡ spec.parts_of text.now) }
{
    let parts: Vec<&str> = before_slash(after_slash(text)).split('/').collect(alloc)?;
    Ok(parts)
}

/// Without the `/` that it begins with.
fn after_slash<'a>(text: &'a str) -> &'a str
    ensures { result.now ≡ spec.after_slash text.now }
{
    match text.strip_prefix('/') {
        Some(rest) => rest,
        None => text,
    }
}

/// Without the `/` that it ends with.
fn before_slash<'a>(text: &'a str) -> &'a str
    ensures { result.now ≡ spec.before_slash text.now }
{
    match text.strip_suffix('/') {
        Some(rest) => rest,
        None => text,
    }
}

/// Whether the text spells no pattern.
fn is_bad(text: &str, parts: &[&str]) -> bool
    ensures { result ≡ (spec.begins_with 33 text.now || list_any spec.is_reserved text.now
        || list_any (λ part. is_nil part.now) parts.now) }
{
    let negated = begins_with(text, b'!');
    let reserved = has_reserved(text.as_bytes());
    let hollow = has_empty(parts);
    negated || reserved || hollow
}

fn begins_with(text: &str, byte: u8) -> bool
    ensures { result ≡ spec.begins_with byte text.now }
{
    match text.as_bytes().split_first() {
        Some((first, _)) => *first == byte,
        None => false,
    }
}

fn has_reserved(text: &[u8]) -> bool
    ensures { result ≡ list_any spec.is_reserved text.now }
{
    text.iter().any(|byte| is_reserved(*byte))
}

fn is_reserved(byte: u8) -> bool
    ensures { result ≡ spec.is_reserved byte }
{
    byte == b'[' || byte == b'\\'
}

fn has_empty(parts: &[&str]) -> bool
    ensures { result ≡ list_any (λ part. is_nil part.now) parts.now }
{
    parts.iter().any(|part| part.is_empty())
}

/// The components that the parts spell.
fn components_of(alloc: Global, parts: &[&str]) -> Result<Vec<Component>, AllocError>
    ensures { IfOk result (λ made. made.items ≡ map (λ part. spec.component_of part.now) parts.now) }
{
    let mut made = Vec::with_capacity(alloc, parts.len())?;
    for part in parts {
        let component = component_of(alloc, part)?;
        made.push(component)?;
    }
    Ok(made)
}

/// The component that a part spells.
fn component_of(alloc: Global, part: &str) -> Result<Component, AllocError>
    ensures { IfOk result (λ made. made ≡ spec.component_of part.now) }
{
    if part == "**" {
        return Ok(Component::AnyDepth);
    }
    let letters = letters_of(alloc, part)?;
    Ok(Component::Name(letters))
}
