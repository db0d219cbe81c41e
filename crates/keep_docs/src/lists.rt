ghost use Rattle.std.specs.Prelude.{◌≡◌, IfOk, map, option_map, string_bytes};
ghost use Rattle.serde_json.specs.View.{view};
ghost use Rattle.keep_docs.specs.Lists.{ids_in, texts_in};

use crate::fields::id_in;
use keep_names::Id;
use serde_json::Value;
use std::alloc::{AllocError, Global};

/// The texts that a list holds, if it holds nothing else.
pub fn texts(alloc: Global, items: &[Value]) -> Result<Option<Vec<String>>, AllocError>
    ensures { IfOk result (λ found. option_map (λ list. map string_bytes list.items) found
        ≡ texts_in (map view items.now)) }
{
    let mut found = Vec::new(alloc);
    for item in items {
        let Some(text) = item.as_str() else {
            return Ok(None);
        };
        found.push(String::from_str(alloc, text)?)?;
    }
    Ok(Some(found))
}

/// The ids that a list holds, if it holds nothing else.
pub fn ids(alloc: Global, items: &[Value]) -> Result<Option<Vec<Id>>, AllocError>
    ensures { IfOk result (λ found. option_map (λ list. list.items) found ≡ ids_in (map view items.now)) }
{
    let mut found = Vec::new(alloc);
    for item in items {
        let Some(id) = id_in(item) else {
            return Ok(None);
        };
        found.push(id)?;
    }
    Ok(Some(found))
}
