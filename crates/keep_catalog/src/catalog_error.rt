use crate::unread::Unread;
use std::alloc::AllocError;

/// Why a repository has no catalog.
#[derive(Clone, Copy, Debug, PartialEq, Eq)]
pub enum CatalogError {
    /// This file can't be read.
    Unread(Unread),
    /// Memory ran out.
    Memory,
}

impl From<AllocError> for CatalogError {
    ghost use Rattle.std.specs.Prelude.{◌≡◌};
    ghost use Rattle.keep_catalog.specs.declared.catalog_error.CatalogError.TheVariants.{Memory};

    ghost from_gives = { λ _ error. error ≡ Memory };

    fn from(_error: AllocError) -> CatalogError {
        CatalogError::Memory
    }
}
