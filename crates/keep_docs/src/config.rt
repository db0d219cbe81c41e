ghost use Rattle.std.specs.Prelude.{ok_or};
ghost use Rattle.serde_json.specs.View.{view};
ghost use Rattle.keep_docs.specs.Config.{config_of, config_view};
ghost use Rattle.keep_docs.specs.Config as spec;
ghost use Rattle.keep_docs.specs.Doc.{Answers};
ghost use Rattle.keep_docs.specs.declared.config.ConfigError.TheVariants.{BadConfig, Doc};
ghost use Rattle.keep_docs.specs.declared.doc.DocError.TheVariants.{Memory};

use crate::doc::{DocError, read_doc};
use crate::fields::{id_at, str_at, u64_at};
use keep_names::Id;
use serde_json::Value;
use std::alloc::{AllocError, Global};

/// What a repository's config says. The polynomial is restic's, by which it cuts files into blobs; it is
/// carried as it is written.
#[derive(PartialEq, Eq, Drop)]
pub struct Config {
    pub id: Id,
    pub chunker_polynomial: String,
}

/// Why bytes weren't read as a config.
#[derive(Clone, Copy, Debug, PartialEq, Eq)]
pub enum ConfigError {
    /// It isn't a document.
    Doc(DocError),
    /// `version` isn't 1, `id` isn't an id, or `chunker_polynomial` isn't a text.
    BadConfig,
}

impl From<DocError> for ConfigError {
    ghost use Rattle.std.specs.Prelude.{◌≡◌};
    ghost use Rattle.keep_docs.specs.declared.config.ConfigError.TheVariants.{Doc};

    ghost from_gives = { λ refusal error. error ≡ Doc refusal };

    fn from(refusal: DocError) -> ConfigError {
        ConfigError::Doc(refusal)
    }
}

impl From<AllocError> for ConfigError {
    ghost use Rattle.std.specs.Prelude.{◌≡◌};
    ghost use Rattle.keep_docs.specs.declared.config.ConfigError.TheVariants.{Doc};
    ghost use Rattle.keep_docs.specs.declared.doc.DocError.TheVariants.{Memory};

    ghost from_gives = { λ _ error. error ≡ Doc Memory };

    fn from(_error: AllocError) -> ConfigError {
        ConfigError::Doc(DocError::Memory)
    }
}

/// Reads a config. Other keys are read past.
pub fn read_config(alloc: Global, bytes: &[u8]) -> Result<Config, ConfigError>
    ensures { Answers (Doc Memory) config_view (config_of bytes.now) result }
{
    let value = read_doc(alloc, bytes)?;
    config_in(alloc, &value)
}

/// The config that a document holds.
fn config_in(alloc: Global, value: &Value) -> Result<Config, ConfigError>
    ensures { Answers (Doc Memory) config_view (ok_or (spec.config_in (view value.now)) BadConfig) result }
{
    let version = u64_at(value, "version").ok_or(ConfigError::BadConfig)?;
    let id = id_at(value, "id").ok_or(ConfigError::BadConfig)?;
    let polynomial = str_at(value, "chunker_polynomial").ok_or(ConfigError::BadConfig)?;
    if version != 1 {
        return Err(ConfigError::BadConfig);
    }
    let chunker_polynomial = String::from_str(alloc, polynomial)?;
    Ok(Config {
        id,
        chunker_polynomial,
    })
}
