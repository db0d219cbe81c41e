ghost use Rattle.std.specs.Prelude.{◌≡◌, Err, IfOk, IsErr, IsOk, OnOk};
ghost use Rattle.keep_docs.specs.Config.{config_of};
ghost use Rattle.keep_disk.specs.declared.folder_error.FolderError.TheVariants.{BadConfig};

use crate::disk_reading::read_file;
use crate::folder_error::FolderError;
use keep_docs::{ConfigError, DocError, read_config};
use keep_repo::Bytes;
use std::alloc::Global;
use std::fs::{File, Files};
use std::io::ErrorKind;

/// The config of a repository's folder. Any other folder is refused.
pub(crate) fn read_config_of<R: Files<File = File> + Alloc<A = Global>>(
    rt: &R,
    root: &str,
    piece: &mut [u8],
) -> Result<Bytes, FolderError>
    ensures { IfOk result (λ bytes. IsOk (config_of bytes)) }
{
    let path = format!(in rt.alloc(); "{root}/config")?;
    match read_file(rt, path.as_str(), Vec::new(rt.alloc()), piece) {
        Ok(bytes) => {
            judge_config(rt.alloc(), bytes.as_slice())?;
            Ok(Bytes::new(rt.alloc(), bytes)?)
        }
        Err(error) if is_absent(error.kind()) => Err(FolderError::BadConfig),
        Err(error) => Err(FolderError::from(error)),
    }
}

/// Whether nothing that is a file is there.
fn is_absent(kind: ErrorKind) -> bool {
    matches!(kind, ErrorKind::NotFound | ErrorKind::InvalidInput)
}

/// Refuses bytes that are no config.
fn judge_config(alloc: Global, bytes: &[u8]) -> Result<(), FolderError>
    ensures good { OnOk result (IsOk (config_of bytes.now)) }
    ensures bad { result ≡ Err BadConfig → IsErr (config_of bytes.now) }
{
    match read_config(alloc, bytes) {
        Ok(_) => Ok(()),
        Err(ConfigError::Doc(DocError::Memory)) => Err(FolderError::Memory),
        Err(_) => Err(FolderError::BadConfig),
    }
}
