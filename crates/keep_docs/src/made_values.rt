ghost use Rattle.std.specs.Prelude.{◌≡◌, IfOk, OnOk, map, string_bytes};
ghost use Rattle.std.specs.List.{AllByRecursion, list_any};
ghost use Rattle.std.specs.Str.{bytes_eq};
ghost use Rattle.serde_json.specs.Data.{put as with_member};
ghost use Rattle.serde_json.specs.View.{members_view, view};
ghost use Rattle.keep_names.specs.Id.{IsDigest};
ghost use Rattle.keep_docs.specs.Fields.{id_data, other_members};
ghost use Rattle.keep_docs.specs.Fields as spec;
ghost use Rattle.keep_docs.specs.Lists.{ids_data, texts_data};

use keep_names::{Id, print_id};
use serde_json::{Map, Value};
use std::alloc::{AllocError, Global};

/// The other members of an object: copies of all but those at the named keys. What is no object has none.
pub fn others(
    alloc: Global,
    value: &Value,
    named: &[&str],
) -> Result<Map<String, Value>, AllocError>
    ensures { IfOk result (λ found. members_view found.entries
        ≡ other_members (map (λ key. key.now) named.now) (view value.now)) }
{
    match value {
        Value::Object(members) => not_named(alloc, members, named),
        _ => Ok(Map::new(alloc)),
    }
}

/// Copies of the members whose keys aren't named.
fn not_named(
    alloc: Global,
    members: &Map<String, Value>,
    named: &[&str],
) -> Result<Map<String, Value>, AllocError>
    ensures { IfOk result (λ found. members_view found.entries
        ≡ spec.others (map (λ key. key.now) named.now) (members_view members.now.entries)) }
{
    let mut found = Map::new(alloc);
    for (key, member) in members.iter() {
        if is_named(named, key) {
            continue;
        }
        let name = key.clone()?;
        drop(found.insert(name, member.clone()?)?);
    }
    Ok(found)
}

/// Whether the key is among those named.
fn is_named(named: &[&str], key: &str) -> bool
    ensures { result ≡ list_any (λ name. bytes_eq name key.now) (map (λ name. name.now) named.now) }
{
    named.contains(&key)
}

/// A copy of the members.
pub fn members_copy(members: &Map<String, Value>) -> Result<Map<String, Value>, AllocError>
    ensures { IfOk result (λ copy. members_view copy.entries ≡ members_view members.now.entries) }
{
    members.clone()
}

/// Writes a member of an object, in place of one at the same key.
pub fn put(
    alloc: Global,
    members: &mut Map<String, Value>,
    key: &str,
    value: Value,
) -> Result<(), AllocError>
    ensures { OnOk result (members_view members.new.entries
        ≡ with_member key.now (view value) (members_view members.old.entries)) }
{
    members.insert(String::from_str(alloc, key)?, value)?;
    Ok(())
}

/// An id as a value: its 64 lower case hex digits.
pub fn id_value(alloc: Global, id: Id) -> Result<Value, AllocError>
    ensures value { IfOk result (λ value. view value ≡ id_data id) }
    ensures digest { IfOk result (λ _. IsDigest id) }
{
    Ok(Value::String(print_id(alloc, id)?))
}

/// A list of ids as a value.
pub fn ids_value(alloc: Global, ids: &[Id]) -> Result<Value, AllocError>
    ensures value { IfOk result (λ value. view value ≡ ids_data ids.now) }
    ensures digests { IfOk result (λ _. AllByRecursion IsDigest ids.now) }
{
    let mut items = Vec::with_capacity(alloc, ids.len())?;
    for id in ids {
        items.push(id_value(alloc, *id)?)?;
    }
    Ok(Value::Array(items))
}

/// A list of texts as a value.
pub fn texts_value(alloc: Global, texts: &[String]) -> Result<Value, AllocError>
    ensures { IfOk result (λ value. view value ≡ texts_data (map string_bytes texts.now)) }
{
    let mut items = Vec::with_capacity(alloc, texts.len())?;
    for text in texts {
        items.push(Value::String(text.clone()?))?;
    }
    Ok(Value::Array(items))
}
