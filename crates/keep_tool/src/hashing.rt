use keep_catalog::Hashing;
use keep_names::Id;
use keep_progress::Meter;
use std::alloc::{AllocError, Global};

/// Hashes as another does, and says how far it is.
#[derive(Drop)]
pub(crate) struct CountedHashing<'a, H> {
    hashing: H,
    meter: Meter<'a>,
    /// How many bytes were hashed.
    hashed: u64,
}

impl<'a, H: Hashing> CountedHashing<'a, H> {
    /// For work that goes by this verb, in pieces that go by this unit.
    pub(crate) fn new(
        rt: &'a HostRuntime,
        hashing: H,
        verb: &'static str,
        unit: &'static str,
    ) -> CountedHashing<'a, H> {
        CountedHashing {
            hashing,
            meter: Meter::new(rt, verb, unit),
            hashed: 0,
        }
    }
}

impl<H: Hashing> Hashing for CountedHashing<'_, H> {
    fn begin(&mut self, bytes: u64) {
        self.meter.expect(self.hashed.saturating_add(bytes));
    }

    fn ids(&mut self, alloc: Global, pieces: &[&[u8]]) -> Result<Vec<Id>, AllocError> {
        let ids = self.hashing.ids(alloc, pieces)?;
        for piece in pieces {
            self.meter.count_item();
            self.meter.count_bytes(piece.len());
            self.hashed = self.hashed.saturating_add(piece.len() as u64);
        }
        Ok(ids)
    }
}
