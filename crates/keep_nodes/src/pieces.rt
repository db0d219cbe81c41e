ghost use Rattle.std.specs.Prelude.{◌≡◌, IfOk};
ghost use Rattle.keep_docs.specs.Doc.{Answers};
ghost use Rattle.keep_names.specs.Sha256.{sha256};
ghost use Rattle.keep_catalog.specs.declared.reach_error.ReachError.TheVariants.{Memory};
ghost use Rattle.keep_nodes.specs.Pieces.{piece_due};

use keep_catalog::{Catalog, ReachError};
use keep_names::{BlobId, Id};
use std::alloc::Global;

/// The bytes of a piece of a file, at its chosen place. Else why it can't be had. They are hashed, unless the
/// repository hashed them before.
pub fn piece<'a>(alloc: Global, catalog: &'a Catalog, id: Id) -> Result<&'a [u8], ReachError>
    ensures piece { Answers Memory (λ bytes. bytes.now) (piece_due catalog.entry.now id) result }
    ensures hashed { IfOk result (λ bytes. sha256 bytes.now ≡ id.0) }
{
    let blob = BlobId::content(id);
    let named = catalog.named(alloc, blob)?;
    match catalog.bytes_at(named.spot) {
        Some(bytes) => Ok(bytes),
        None => unreachable!(),
    }
}
