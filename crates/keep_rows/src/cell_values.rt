ghost use Rattle.std.specs.Prelude.{◌≡◌, ◌++◌, IfOk, map, option_map, string_bytes};
ghost use Rattle.std.specs.List.{flat_map};
ghost use Rattle.serde_json.specs.View.{view};
ghost use Rattle.keep_rows.specs.Values as spec;
ghost use Rattle.keep_rows.specs.Values.{maybe_number, maybe_text, utc_of};

use crate::when::When;
use keep_names::Id;
use keep_tables::size;
use serde_json::Value;
use std::alloc::{AllocError, Global};

/// These texts, once more.
pub fn texts_of(alloc: Global, texts: &[&str]) -> Result<Vec<String>, AllocError>
    ensures { IfOk result (λ made. map string_bytes made.items ≡ map (λ text. text.now) texts.now) }
{
    let mut made = Vec::with_capacity(alloc, texts.len())?;
    for text in texts {
        made.push(String::from_str(alloc, text)?)?;
    }
    Ok(made)
}

/// The texts with commas between them.
pub fn joined(alloc: Global, texts: &[String]) -> Result<String, AllocError>
    ensures { IfOk result (λ made. string_bytes made ≡ spec.joined (map string_bytes texts.now)) }
{
    match texts {
        [] => Ok(String::new(alloc)),
        [first, rest @ ..] => joined_behind(alloc, first.as_str(), rest),
    }
}

fn joined_behind(alloc: Global, first: &str, rest: &[String]) -> Result<String, AllocError>
    ensures { IfOk result (λ made. string_bytes made ≡ first.now ++ flat_map spec.behind_comma (map string_bytes rest.now)) }
{
    let mut made = String::from_str(alloc, first)?;
    for text in rest {
        made.push_str(", ")?;
        made.push_str(text.as_str())?;
    }
    Ok(made)
}

/// The first eight digits of the id, by which people name it.
pub fn short_id(alloc: Global, id: Id) -> Result<String, AllocError>
    ensures { IfOk result (λ text. string_bytes text ≡ spec.short_id id) }
{
    hex::encode(alloc, &id.0[..4])
}

/// The number, or an empty cell.
pub fn number_cell(alloc: Global, number: Option<u64>) -> Result<String, AllocError>
    ensures { IfOk result (λ text. string_bytes text ≡ spec.number_cell number) }
{
    match number {
        Some(number) => format!(in alloc; "{number}"),
        None => Ok(String::new(alloc)),
    }
}

/// The size as people read it, or an empty cell.
pub fn size_cell(alloc: Global, bytes: Option<u64>) -> Result<String, AllocError>
    ensures { IfOk result (λ text. string_bytes text ≡ spec.size_cell bytes) }
{
    match bytes {
        Some(bytes) => size(alloc, bytes),
        None => Ok(String::new(alloc)),
    }
}

/// The moment on its clock, or an empty cell.
pub fn when_cell(alloc: Global, at: Option<When>) -> Result<String, AllocError>
    ensures { IfOk result (λ text. string_bytes text ≡ spec.when_cell at) }
{
    match at {
        Some(at) => at.local(alloc),
        None => Ok(String::new(alloc)),
    }
}

/// The number as a value, or null.
pub fn number_or_null(number: Option<u64>) -> Value
    ensures { view result ≡ maybe_number number }
{
    match number {
        Some(number) => Value::from(number),
        None => Value::Null,
    }
}

/// The text as a value, or null.
pub fn text_or_null(alloc: Global, text: Option<&str>) -> Result<Value, AllocError>
    ensures { IfOk result (λ value. view value ≡ maybe_text (option_map (λ text. text.now) text.entry)) }
{
    match text {
        Some(text) => Value::try_from_str(alloc, text),
        None => Ok(Value::Null),
    }
}

/// The moment in UTC as a value, or null.
pub fn when_value(alloc: Global, at: Option<When>) -> Result<Value, AllocError>
    ensures { IfOk result (λ value. view value ≡ maybe_text (option_map utc_of at)) }
{
    match at {
        Some(at) => Ok(Value::String(at.utc(alloc)?)),
        None => Ok(Value::Null),
    }
}
