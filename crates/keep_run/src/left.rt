ghost use Rattle.std.specs.Prelude.{◌≡◌, [], OnOk};

use crate::failure::Failure;
use crate::run::Run;
use keep_tables::shown;
use serde_json::{Value, json};

/// What isn't as it was asked for, and why.
#[derive(Drop)]
pub struct Left {
    pub path: String,
    pub why: String,
}

/// Names each on standard error. There is none where it is done whole.
pub fn name_left(run: &Run<'_>, left: &[Left]) -> Result<(), Failure>
    ensures { OnOk result (left.now ≡ []) }
{
    for one in left {
        let path = shown(run.alloc, one.path.as_str())?;
        let _said = eprintln!(run.rt; "keep: {path}: {}", one.why);
    }
    if left.is_empty() {
        Ok(())
    } else {
        Err(Failure::Partly)
    }
}

/// What is left out, and why, as a list of JSON objects.
pub fn left_value(run: &Run<'_>, left: &[Left]) -> Result<Value, Failure> {
    let mut values = Vec::new(run.alloc);
    for one in left {
        let path = one.path.as_str();
        let why = one.why.as_str();
        values.push(json!(in run.alloc; { "path": path, "why": why })?)?;
    }
    Ok(Value::Array(values))
}
