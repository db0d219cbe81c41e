ghost use Rattle.std.specs.Prelude.{◌≡◌, ◌↔◌, IfOk, IsTrue};
ghost use Rattle.keep_names.specs.Sha256.{sha256};
ghost use Rattle.keep_change.specs.NamedBytes.{file_of};

use keep_names::{FileName, Id, Kind, id_of};
use keep_repo::Bytes;
use std::alloc::{AllocError, Global};
use std::marker::Model;

/// A file that a change adds or drops. One that was made from its bytes alone isn't hashed again.
#[derive(Drop)]
pub struct StoredFile {
    name: FileName,
    bytes: Bytes,
    /// Whether the name is known to be that of the bytes.
    is_own: bool,
}

impl Model for StoredFile {
    ghost use Rattle.std.specs.Prelude.{◌≡◌, IsTrue};
    ghost use Rattle.keep_names.specs.Sha256.{sha256};
    ghost use Rattle.keep_change.specs.NamedBytes.{NamedBytes};

    ghost Value = { NamedBytes };

    ghost view = { λ f. record { name = f.name; bytes = f.bytes } };

    ghost invariant = { λ f. IsTrue f.is_own → f.name.id.0 ≡ sha256 f.bytes };
}

impl StoredFile {
    /// The file of these bytes, under the name that their SHA-256 gives it.
    pub fn of(alloc: Global, kind: Kind, bytes: Vec<u8>) -> Result<StoredFile, AllocError>
        ensures { IfOk result (λ file. file ≡ file_of kind bytes.items) }
    {
        let id = id_of(&bytes);
        StoredFile::hashed(alloc, kind, id, bytes)
    }

    /// The file of these bytes, whose SHA-256 is known.
    pub fn hashed(
        alloc: Global,
        kind: Kind,
        id: Id,
        bytes: Vec<u8>,
    ) -> Result<StoredFile, AllocError>
        requires { id.0 ≡ sha256 bytes.items }
        ensures { IfOk result (λ file. file ≡ file_of kind bytes.items) }
    {
        let bytes = Bytes::new(alloc, bytes)?;
        Ok(StoredFile::named(FileName { kind, id }, bytes))
    }

    /// The file of these bytes, which are shared, under the name that their SHA-256 gives it.
    pub fn named(name: FileName, bytes: Bytes) -> StoredFile
        requires { name.id.0 ≡ sha256 bytes }
        ensures { result ≡ record { name = name; bytes = bytes } }
    {
        StoredFile {
            name,
            bytes,
            is_own: true,
        }
    }

    /// The file of these bytes under any name, be it theirs or not.
    pub fn under(name: FileName, bytes: Bytes) -> StoredFile
        ensures { result ≡ record { name = name; bytes = bytes } }
    {
        StoredFile {
            name,
            bytes,
            is_own: false,
        }
    }

    pub fn name(&self) -> FileName
        ensures { result ≡ self.now.name }
    {
        self.name
    }

    pub fn bytes(&self) -> &Bytes
        ensures { result.now ≡ self.now.bytes }
    {
        &self.bytes
    }

    /// Whether it is named by the SHA-256 of its bytes.
    pub(crate) fn is_named_by_bytes(&self) -> bool
        ensures { IsTrue result ↔ (self.now.name.id.0 ≡ sha256 self.now.bytes) }
    {
        if self.is_own {
            return true;
        }
        id_of(self.bytes.as_slice()) == self.name.id
    }
}
