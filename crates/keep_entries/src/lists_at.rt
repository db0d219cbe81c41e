ghost use Rattle.std.specs.Prelude.{ok_or};
ghost use Rattle.serde_json.specs.View.{view};
ghost use Rattle.keep_docs.specs.Doc.{Answers};
ghost use Rattle.keep_docs.specs.Fields.{as_id};
ghost use Rattle.keep_entries.specs.Shape.{as_name, list_of};
ghost use Rattle.keep_entries.specs.Shape as spec;
ghost use Rattle.keep_entries.specs.declared.misread.Misread.TheVariants.{Memory, OtherShape};

use crate::form::Form;
use crate::misread::Misread;
use crate::read_parts::{file_in, mark_in, name_in};
use keep_change::{Listed, PackMark, StoredFile};
use keep_docs::{ids, list_at};
use keep_names::{FileName, Id};
use serde_json::Value;
use std::alloc::Global;

/// The names at a key.
pub(crate) fn names_at(alloc: Global, value: &Value, key: &str) -> Result<Listed<FileName>, Misread>
    ensures { Answers Memory (λ names. names) (ok_or (list_of as_name key.now (view value.now)) OtherShape) result }
{
    let values = list_at(value, key).ok_or(Misread::OtherShape)?;
    let mut names = Vec::new(alloc);
    for value in values {
        let name = name_in(value).ok_or(Misread::OtherShape)?;
        names.push(name)?;
    }
    Ok(Listed::from_vec(names))
}

/// The files at a key.
pub(crate) fn files_at(
    alloc: Global,
    value: &Value,
    key: &str,
) -> Result<Listed<StoredFile>, Misread>
    ensures { Answers Memory (λ files. files)
        (ok_or (list_of spec.file_in key.now (view value.now)) OtherShape) result }
{
    let values = list_at(value, key).ok_or(Misread::OtherShape)?;
    let mut files = Vec::new(alloc);
    for value in values {
        files.push(file_in(alloc, value)?)?;
    }
    Ok(Listed::from_vec(files))
}

/// The marks at a key, in an entry of the form.
pub(crate) fn marks_at(
    alloc: Global,
    form: Form,
    value: &Value,
    key: &str,
) -> Result<Listed<PackMark>, Misread>
    ensures { Answers Memory (λ marks. marks)
        (ok_or (list_of (spec.mark_in form) key.now (view value.now)) OtherShape) result }
{
    let values = list_at(value, key).ok_or(Misread::OtherShape)?;
    let mut marks = Vec::new(alloc);
    for value in values {
        let mark = mark_in(form, value).ok_or(Misread::OtherShape)?;
        marks.push(mark)?;
    }
    Ok(Listed::from_vec(marks))
}

/// The ids at a key.
pub(crate) fn ids_at(alloc: Global, value: &Value, key: &str) -> Result<Listed<Id>, Misread>
    ensures { Answers Memory (λ packs. packs) (ok_or (list_of as_id key.now (view value.now)) OtherShape) result }
{
    let values = list_at(value, key).ok_or(Misread::OtherShape)?;
    let found = ids(alloc, values)?;
    let packs = found.ok_or(Misread::OtherShape)?;
    Ok(Listed::from_vec(packs))
}
