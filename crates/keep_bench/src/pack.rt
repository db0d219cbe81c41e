ghost use Rattle.keep_docs.specs.Doc.{Answers};
ghost use Rattle.keep_pack.specs.declared.pack_error.PackError.TheVariants.{Memory};
ghost use Rattle.keep_bench.specs.Pack.{summary_of};

use keep_names::{Id, id_of};
use keep_pack::{PackError, read_header};
use std::alloc::Global;

/// What is told of a pack: by which name a repository keeps it, and how many blobs it lists.
#[derive(Clone, Copy, PartialEq, Eq)]
pub(crate) struct Summary {
    pub id: Id,
    pub entries: usize,
}

/// Hashes a pack and reads its header.
pub(crate) fn summarize(alloc: Global, pack: &[u8]) -> Result<Summary, PackError>
    ensures { Answers Memory (λ summary. summary) (summary_of pack.now) result }
{
    let entries = read_header(alloc, pack)?;
    Ok(Summary {
        id: id_of(pack),
        entries: entries.len(),
    })
}
