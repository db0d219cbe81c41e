use crate::begun_file::Begun;
use crate::blobs::Blobs;
use crate::open_folders::OpenFolders;
use keep_build::Cut;
use std::alloc::Global;

/// An archive that isn't shut.
#[derive(Drop)]
pub(crate) struct Going {
    pub(crate) alloc: Global,
    pub(crate) place: OpenFolders,
    pub(crate) begun: Begun,
    pub(crate) blobs: Blobs,
}

impl Going {
    ghost use Rattle.std.specs.Prelude.{◌≡◌, []};
    ghost use Rattle.keep_archive.specs.Archive.{going_view};

    /// Nothing is given yet.
    pub(crate) fn new(alloc: Global, cut: Cut) -> Going
        ensures { going_view result ≡ record {
          place = record { around = []; nodes = [] };
          begun = record { cut = cut.bytes; content = []; rest = [] };
          blobs = record { named = []; held = [] };
        } }
    {
        Going {
            alloc,
            place: OpenFolders::new(alloc),
            begun: Begun::new(alloc, cut),
            blobs: Blobs::new(alloc),
        }
    }
}
