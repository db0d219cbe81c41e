ghost use Rattle.std.specs.Prelude.{◌≡◌, ◌++◌, ◌*◌, ◌<◌, ◌^◌, length, map, IfOk, OnOk, All};
ghost use Rattle.keep_pack.specs.Pack.{HasOwnId, IsHonestPackOf, entry_bytes, stored};

use keep_names::{BlobId, BlobType};
use std::alloc::{AllocError, Global};
use std::convert::AsSlice;

/// The pack of these blobs, in this order, each under its name: the SHA-256 of its bytes, and its type. A blob
/// that is given twice is in it twice. Nothing is hashed.
pub fn build_pack<B: AsSlice<u8>>(
    alloc: Global,
    blobs: &[(BlobId, B)],
) -> Result<Vec<u8>, AllocError>
    requires ids { All (HasOwnId B.items) blobs.now }
    requires lengths { All (λ blob. length (B.items blob.1) < 2 ^ 32) blobs.now }
    requires header { 37 * length blobs.now < 2 ^ 32 }
    ensures { IfOk result (λ pack. IsHonestPackOf pack.items (map (stored B.items) blobs.now)) }
{
    let mut pack = Vec::new(alloc);
    for (_, bytes) in blobs {
        pack.extend_from_slice(bytes.as_slice())?;
    }
    for (blob, bytes) in blobs {
        put_entry(&mut pack, *blob, bytes.as_slice())?;
    }
    let header_length = 37 * blobs.len() as u32;
    pack.extend_from_slice(&header_length.to_le_bytes())?;
    Ok(pack)
}

/// Writes the header's entry of a blob behind the pack so far.
fn put_entry(pack: &mut Vec<u8>, blob: BlobId, bytes: &[u8]) -> Result<(), AllocError>
    requires { length bytes.now < 2 ^ 32 }
    ensures { OnOk result (pack.new.items
        ≡ pack.old.items ++ entry_bytes (record { blob = blob; length = length bytes.now })) }
{
    pack.push(match blob.blob_type {
        BlobType::Content => 0,
        BlobType::Tree => 1,
    })?;
    pack.extend_from_slice(&(bytes.len() as u32).to_le_bytes())?;
    pack.extend_from_slice(&blob.id.0)
}
