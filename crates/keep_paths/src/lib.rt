//! Where each key of a shelf lies below a folder, as a path, both ways.
#![tactic(auto)]

mod folder;
mod name;
mod path;
mod path_laws;

pub use folder::holds_keys;
pub use path::{key_of_path, path_of_key};
pub use path_laws::{key_is_sized, path_names_key};
