ghost use Rattle.std.specs.Prelude.{◌≡◌, IfOk, option_map};
ghost use Rattle.std.specs.Char.{is_ascii_digit};
ghost use Rattle.std.specs.List.{list_all};
ghost use Rattle.keep_docs.specs.Doc.{Answers};
ghost use Rattle.keep_names.specs.declared.file_name.Kind.TheVariants.{Snapshot};
ghost use Rattle.keep_repo.specs.Kinds.{ids_among};
ghost use Rattle.keep_named.specs.Meaning as spec;
ghost use Rattle.keep_named.specs.Meaning.{added_due, begun_by, begun_due, latest_due, named_due};
ghost use Rattle.keep_named.specs.declared.named_error.NamedError.TheVariants.{Memory};

use crate::listed_snapshot::ListedSnapshot;
use crate::named_error::NamedError;
use keep_journal::History;
use keep_names::{FileName, Id, Kind, print_id};
use keep_repo::Repo;
use std::alloc::{AllocError, Global};

/// The snapshot that a text means: `latest` the last of the rows, which are those that a caller chose among,
/// `@N` the snapshot that change N added, and any other text the one whose id begins with it.
pub fn named(
    alloc: Global,
    repo: &Repo,
    history: &History,
    rows: &[ListedSnapshot],
    text: &str,
) -> Result<Id, NamedError>
    ensures { Answers Memory (λ id. id) (named_due repo.now history.now.journal rows.now text.now) result }
{
    if text == "latest" {
        return latest(rows);
    }
    match behind_at(text) {
        Some(digits) => added(alloc, history, number_in(digits)),
        None => begun(alloc, repo, text),
    }
}

/// The last of the rows.
fn latest(rows: &[ListedSnapshot]) -> Result<Id, NamedError>
    ensures { result ≡ latest_due rows.now }
{
    match rows.last() {
        Some(row) => Ok(row.id),
        None => Err(NamedError::NoneLatest),
    }
}

/// What stands behind `@`.
fn behind_at(text: &str) -> Option<&str>
    ensures { option_map (λ rest. rest.now) result ≡ spec.behind_at text.entry.now }
{
    text.strip_prefix('@')
}

/// The number that digits write.
fn number_in(digits: &str) -> Option<u64>
    ensures { result ≡ spec.number_in digits.now }
{
    if !are_digits(digits.as_bytes()) {
        return None;
    }
    digits.parse().ok()
}

fn are_digits(bytes: &[u8]) -> bool
    ensures { result ≡ list_all is_ascii_digit bytes.now }
{
    bytes.iter().all(|byte| byte.is_ascii_digit())
}

/// The snapshot that the change of this number added.
fn added(alloc: Global, history: &History, number: Option<u64>) -> Result<Id, NamedError>
    ensures { Answers Memory (λ id. id) (added_due history.now.journal number) result }
{
    let Some(n) = number else {
        return Err(NamedError::NoneAdded);
    };
    let names = history.names_added(n).unwrap_or(&[]);
    let ids = snapshots_among(alloc, names)?;
    only(NamedError::NoneAdded, NamedError::SeveralAdded, &ids)
}

/// The ids of those names that are of snapshots.
fn snapshots_among(alloc: Global, names: &[FileName]) -> Result<Vec<Id>, AllocError>
    ensures { IfOk result (λ ids. ids.items ≡ ids_among Snapshot names.now) }
{
    let names = names.iter().filter(|name| name.kind == Kind::Snapshot);
    names.map(|name| name.id).collect(alloc)
}

/// The snapshot whose id begins with the text.
fn begun(alloc: Global, repo: &Repo, text: &str) -> Result<Id, NamedError>
    ensures { Answers Memory (λ id. id) (begun_due repo.now text.now) result }
{
    if text.is_empty() {
        return Err(NamedError::NoneBegins);
    }
    let ids = repo.ids(Kind::Snapshot)?;
    let ids = beginning(alloc, &ids, text)?;
    only(NamedError::NoneBegins, NamedError::SeveralBegin, &ids)
}

/// Those of the ids whose hex digits begin with the text.
fn beginning(alloc: Global, ids: &[Id], text: &str) -> Result<Vec<Id>, AllocError>
    ensures { IfOk result (λ found. found.items ≡ begun_by text.now ids.now) }
{
    let mut found = Vec::new(alloc);
    for id in ids {
        let begins = begins(alloc, *id, text)?;
        if begins {
            found.push(*id)?;
        }
    }
    Ok(found)
}

/// Whether the id's hex digits begin with the text.
fn begins(alloc: Global, id: Id, text: &str) -> Result<bool, AllocError>
    ensures { IfOk result (λ begins. begins ≡ spec.begins text.now id) }
{
    let digits = print_id(alloc, id)?;
    Ok(digits.as_bytes().starts_with(text.as_bytes()))
}

/// The one of these, if there is just one.
fn only(none: NamedError, several: NamedError, ids: &[Id]) -> Result<Id, NamedError>
    ensures { result ≡ spec.only none several ids.now }
{
    match ids {
        [] => Err(none),
        [id] => Ok(*id),
        _ => Err(several),
    }
}
