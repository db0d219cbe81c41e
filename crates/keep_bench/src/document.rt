ghost use Rattle.std.specs.Prelude.{◌≡◌, ◌≢◌, Err, IfErr, IfOk, IsOk, OnOk, length};
ghost use Rattle.keep_docs.specs.Doc.{doc_of};
ghost use Rattle.keep_docs.specs.declared.doc.DocError.TheVariants.{Memory};

use keep_docs::{DocError, read_doc};
use std::alloc::Global;

/// Reads a document and says how many bytes it has.
pub(crate) fn measure(alloc: Global, bytes: &[u8]) -> Result<usize, DocError>
    ensures read { OnOk result (IsOk (doc_of bytes.now)) }
    ensures count { IfOk result (λ count. count ≡ length bytes.now) }
    ensures refused { IfErr result (λ refusal. refusal ≢ Memory → doc_of bytes.now ≡ Err refusal) }
{
    drop(read_doc(alloc, bytes)?);
    Ok(bytes.len())
}
