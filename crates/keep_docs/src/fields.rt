ghost use Rattle.std.specs.Prelude.{◌≡◌, ◌^◌, map, option_map};
ghost use Rattle.serde_json.specs.Find.{as_str};
ghost use Rattle.serde_json.specs.View.{view};
ghost use Rattle.keep_docs.specs.Fields.{as_below, as_id, as_list, as_whole, field, list_field, optional};

use keep_names::{Id, parse_id};
use serde_json::Value;

/// The text at a key.
pub fn str_at<'a>(value: &'a Value, key: &str) -> Option<&'a str>
    ensures { option_map (λ text. text.now) result ≡ field key.now as_str (view value.now) }
{
    value.get(key)?.as_str()
}

/// The id at a key: a text of 64 lower case hex digits.
pub fn id_at(value: &Value, key: &str) -> Option<Id>
    ensures { result ≡ field key.now as_id (view value.now) }
{
    id_in(value.get(key)?)
}

/// The number at a key: a whole one, below 2^64.
pub fn u64_at(value: &Value, key: &str) -> Option<u64>
    ensures { result ≡ field key.now as_whole (view value.now) }
{
    value.get(key)?.as_u64()
}

/// The number at a key: a whole one, below 2^32.
pub fn u32_at(value: &Value, key: &str) -> Option<u32>
    ensures { result ≡ field key.now (as_below (2 ^ 32)) (view value.now) }
{
    u32::try_from(u64_at(value, key)?).ok()
}

/// The list at a key.
pub fn list_at<'a>(value: &'a Value, key: &str) -> Option<&'a [Value]>
    ensures { option_map (λ items. map view items.now) result ≡ field key.now as_list (view value.now) }
{
    Some(value.get(key)?.as_array()?.as_slice())
}

/// The list at a key, which is empty where it is null or missing.
pub fn list_or_null_at<'a>(value: &'a Value, key: &str) -> Option<&'a [Value]>
    ensures { option_map (λ items. map view items.now) result ≡ list_field key.now (view value.now) }
{
    match value.get(key) {
        None | Some(Value::Null) => Some(&[]),
        Some(Value::Array(items)) => Some(items.as_slice()),
        Some(_) => None,
    }
}

/// The id at a key that may be missing. Another value there, null too, is refused.
pub fn optional_id_at(value: &Value, key: &str) -> Option<Option<Id>>
    ensures { result ≡ optional key.now as_id (view value.now) }
{
    match value.get(key) {
        None => Some(None),
        Some(found) => Some(Some(id_in(found)?)),
    }
}

/// The text at a key that may be missing. Another value there, null too, is refused.
pub fn optional_str_at<'a>(value: &'a Value, key: &str) -> Option<Option<&'a str>>
    ensures { option_map (option_map (λ text. text.now)) result ≡ optional key.now as_str (view value.now) }
{
    match value.get(key) {
        None => Some(None),
        Some(found) => Some(Some(found.as_str()?)),
    }
}

/// The id whose text a value is.
pub fn id_in(value: &Value) -> Option<Id>
    ensures { result ≡ as_id (view value.now) }
{
    parse_id(value.as_str()?).ok()
}
