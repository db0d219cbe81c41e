ghost use Rattle.std.specs.Prelude.{◌≡◌, IfOk, map, string_bytes};
ghost use Rattle.std.specs.List.{list_any};
ghost use Rattle.std.specs.Str.{bytes_eq};
ghost use Rattle.keep_named.specs.Rows.{row_view};
ghost use Rattle.keep_words.specs.Read.{text_of};
ghost use Rattle.keep_looks.specs.Chosen as spec;

use keep_named::ListedSnapshot;
use keep_words::Chosen;
use std::alloc::{AllocError, Global};

/// Those of the rows that each given word takes, in their order; and the last so many of these, where a number is given.
/// A snapshot without a host has the empty one.
pub fn chosen_of<'a>(
    alloc: Global,
    rows: &[ListedSnapshot<'a>],
    chosen: &Chosen<'_>,
    latest: Option<u32>,
) -> Result<Vec<ListedSnapshot<'a>>, AllocError>
    ensures { IfOk result (λ found. found.items ≡ spec.chosen_of chosen.now latest rows.now) }
{
    let mut found = Vec::new(alloc);
    for row in rows {
        let is_meant = is_chosen(chosen, row);
        if is_meant {
            found.push(*row)?;
        }
    }
    last_of(alloc, &found, latest)
}

/// The last so many, or all.
fn last_of<'a>(
    alloc: Global,
    rows: &[ListedSnapshot<'a>],
    latest: Option<u32>,
) -> Result<Vec<ListedSnapshot<'a>>, AllocError>
    ensures { IfOk result (λ found. found.items ≡ spec.last_of latest rows.now) }
{
    match latest {
        Some(count) => {
            let first = rows.len().saturating_sub(count as usize);
            Vec::from_slice(alloc, &rows[first..])
        }
        None => Vec::from_slice(alloc, rows),
    }
}

fn is_chosen(chosen: &Chosen<'_>, row: &ListedSnapshot<'_>) -> bool
    ensures { result ≡ spec.is_chosen chosen.now (row_view row.now) }
{
    is_of_host(chosen.host, row)
        && has(chosen.tag, &row.snap.tags)
        && has(chosen.path, &row.snap.paths)
}

fn is_of_host(host: Option<&str>, row: &ListedSnapshot<'_>) -> bool
    ensures { result ≡ spec.is_of_host (text_of host.entry) (row_view row.now) }
{
    match host {
        Some(host) => row.snap.hostname.as_deref().unwrap_or("") == host,
        None => true,
    }
}

/// Whether the text is among these, where one is given.
fn has(text: Option<&str>, texts: &[String]) -> bool
    ensures { result ≡ spec.has (text_of text.entry) (map string_bytes texts.now) }
{
    match text {
        Some(text) => has_text(text, texts),
        None => true,
    }
}

fn has_text(text: &str, texts: &[String]) -> bool
    ensures { result ≡ list_any (λ given. bytes_eq given text.now) (map string_bytes texts.now) }
{
    for given in texts {
        if given.as_str() == text {
            return true;
        }
    }
    false
}
