ghost use Rattle.std.specs.Prelude.{IfOk, string_bytes};
ghost use Rattle.keep_folder.specs.Config.{IsConfigOf};

use keep_docs::{ConfigError, read_config};
use keep_names::Id;
use std::alloc::Global;

/// The polynomial of restic's design document, by which restic cuts files. It is carried, and asked for by restic alone.
const POLYNOMIAL: &str = "25b468838dcb75";

/// The config of the repository of this id. It was read back.
pub fn config_bytes(alloc: Global, id: Id) -> Result<String, ConfigError>
    ensures { IfOk result (λ text. IsConfigOf (string_bytes text) id) }
{
    let text = format!(in alloc;
        "{{\"chunker_polynomial\":\"{POLYNOMIAL}\",\"id\":\"{id}\",\"version\":1}}\n"
    )?;
    match read_config(alloc, text.as_bytes()) {
        Ok(config) if config.id == id => Ok(text),
        Ok(_) => Err(ConfigError::BadConfig),
        Err(error) => Err(error),
    }
}
