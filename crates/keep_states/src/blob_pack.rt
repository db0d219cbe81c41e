use keep_names::{FileName, Id, id_of};
use std::alloc::{AllocError, Global};

/// A blob in a pack of its own, and the index of its own that lists it.
#[derive(Drop)]
pub(crate) struct Packed {
    pub blob: Id,
    pub pack: (FileName, Vec<u8>),
    pub index: (FileName, Vec<u8>),
}

/// The blob with these bytes, and with this number and word for its type.
pub(crate) fn pack_blob(
    alloc: Global,
    text: &str,
    number: u8,
    word: &str,
) -> Result<Packed, AllocError> {
    let (blob, length) = (id_of(text.as_bytes()), text.len());
    let pack = pack_of(alloc, text, number)?;
    let name = id_of(&pack);
    let entry = format!(in alloc;
        "{{\"id\":\"{blob}\",\"length\":{length},\"offset\":0,\"type\":\"{word}\"}}"
    )?;
    let index = format!(in alloc; "{{\"packs\":[{{\"blobs\":[{entry}],\"id\":\"{name}\"}}]}}")?;
    let index_name = FileName::index(id_of(index.as_bytes()));
    Ok(Packed {
        blob,
        pack: (FileName::pack(name), pack),
        index: (index_name, index.into_bytes()),
    })
}

/// The pack that has this blob alone.
fn pack_of(alloc: Global, blob: &str, number: u8) -> Result<Vec<u8>, AllocError> {
    let mut pack = Vec::from_slice(alloc, blob.as_bytes())?;
    pack.push(number)?;
    pack.extend_from_slice(&u32::try_from(blob.len()).unwrap_or(0).to_le_bytes())?;
    pack.extend_from_slice(&id_of(blob.as_bytes()).0)?;
    pack.extend_from_slice(&[37, 0, 0, 0])?;
    Ok(pack)
}
