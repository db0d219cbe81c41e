use keep_catalog::Catalog;
use keep_names::{BlobId, Id};
use keep_targets::Pieces;

/// The pieces that a repository has at their chosen places. Each is hashed as it is asked for, and none is copied.
#[derive(Drop)]
pub(crate) struct Stored<'a> {
    pub(crate) catalog: &'a Catalog<'a>,
}

impl Pieces for Stored<'_> {
    ghost use Rattle.std.specs.Prelude.{◌≡◌, option_map};
    ghost use Rattle.keep_restores.specs.Restoring.{pieces_in};

    ghost pieces = { λ stored. pieces_in stored.catalog.now };

    fn piece(&self, id: Id) -> Option<&[u8]> {
        let placed = self.catalog.place(BlobId::content(id))?;
        self.catalog.bytes_at(placed.spot)
    }
}
