ghost use Rattle.std.specs.Prelude.{◌≡◌, IfOk, string_bytes};

use keep_tables::{local_time, utc_time};
use std::alloc::{AllocError, Global};

/// A moment, and the clock on which people read it.
#[derive(Clone, Copy, Debug, PartialEq, Eq)]
pub struct When {
    /// Whole seconds since 1970-01-01T00:00:00Z, less than 0 before it.
    pub moment: i64,
    /// How many seconds the clock is ahead of UTC then.
    pub offset: i32,
}

impl When {
    ghost use Rattle.keep_rows.specs.Values.{local_of, utc_of};

    /// On that clock: `2026-11-28 14:05:09`.
    pub fn local(self, alloc: Global) -> Result<String, AllocError>
        ensures { IfOk result (λ text. string_bytes text ≡ local_of self) }
    {
        local_time(alloc, self.moment, self.offset)
    }

    /// In UTC, as RFC 3339 writes it: `2026-11-28T13:05:09Z`.
    pub fn utc(self, alloc: Global) -> Result<String, AllocError>
        ensures { IfOk result (λ text. string_bytes text ≡ utc_of self) }
    {
        utc_time(alloc, self.moment)
    }
}
