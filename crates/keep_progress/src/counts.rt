ghost use Rattle.std.specs.Prelude.{◌≡◌, IfOk, string_bytes};
ghost use Rattle.keep_progress.specs.Line as spec;

use keep_tables::size;
use std::alloc::{AllocError, Global};

/// What work has come to.
#[derive(Clone, Copy)]
pub struct Counts {
    pub items: u64,
    pub bytes: u64,
    /// How many bytes it is to come to, where that is known.
    pub total: Option<u64>,
}

impl Counts {
    /// With one more item.
    pub fn with_item(self) -> Counts
        ensures { result ≡ spec.with_item self }
    {
        Counts {
            items: self.items.saturating_add(1),
            bytes: self.bytes,
            total: self.total,
        }
    }

    /// With so many more bytes.
    pub fn with_bytes(self, more: usize) -> Counts
        ensures { result ≡ spec.with_bytes self more }
    {
        Counts {
            items: self.items,
            bytes: self.bytes.saturating_add(more as u64),
            total: self.total,
        }
    }
}

/// What is said of work that came to so many items of this unit, and so many bytes, in so many milliseconds.
pub fn line(
    alloc: Global,
    verb: &str,
    unit: &str,
    counts: Counts,
    millis: u64,
) -> Result<String, AllocError>
    ensures { IfOk result (λ text. string_bytes text ≡ spec.line verb.now unit.now counts millis) }
{
    let items = counts.items;
    let bytes = size(alloc, counts.bytes)?;
    let rate = size(alloc, rate(counts.bytes, millis))?;
    match counts.total {
        None => format!(in alloc; "{verb}: {items} {unit}, {bytes}, {rate}/s"),
        Some(total) => {
            let total = size(alloc, total)?;
            format!(in alloc; "{verb}: {items} {unit}, {bytes} of {total}, {rate}/s")
        }
    }
}

/// How many bytes that is in a second.
fn rate(bytes: u64, millis: u64) -> u64
    ensures { result ≡ spec.rate bytes millis }
{
    bytes.saturating_mul(1000) / millis.max(1)
}
