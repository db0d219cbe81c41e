ghost use Rattle.std.specs.Prelude.{IfOk, string_bytes};
ghost use Rattle.keep_keyed_folder.specs.Tmp.{IsTmp};

use keep_disk::FolderError;
use std::alloc::Global;
use std::time::Clock;

/// What a run that begins now calls a file that is under way. Each run has another name for it, so that one that has lost
/// its lock writes into no other's.
pub fn name_of_run<R: Clock + Alloc<A = Global>>(rt: &R) -> Result<String, FolderError>
    ensures { IfOk result (λ name. IsTmp (string_bytes name)) }
{
    let since = rt.since_1970()?;
    let moment = u64::try_from(since.as_nanos()).unwrap_or(u64::MAX);
    Ok(format!(in rt.alloc(); "tmp-{moment}")?)
}
