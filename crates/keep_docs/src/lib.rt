//! Documents of a repository: JSON texts read exactly and written in one spelling, and what their shapes are
//! read with.
#![tactic(auto)]

mod config;
mod doc;
mod fields;
mod lists;
mod made_values;
mod text_of;

pub use config::{Config, ConfigError, read_config};
pub use doc::{DocError, read_doc, readable_values_read_back, write_doc};
pub use fields::{
    id_at, id_in, list_at, list_or_null_at, optional_id_at, optional_str_at, str_at, u32_at, u64_at,
};
pub use lists::{ids, texts};
pub use made_values::{id_value, ids_value, members_copy, others, put, texts_value};
pub use text_of::is_text_of;
