//! Names of a repository's files and blobs: SHA-256 ids, their text, and the path of each file.
#![tactic(auto)]

mod blob;
mod file_name;
mod hex_digit;
mod id;
mod name_laws;
mod number;

pub use blob::{Blob, BlobId, BlobType};
pub use file_name::{FileName, Kind, parse_kind, path_of};
pub use hex_digit::decode_hex;
pub use id::{BadId, Id, id_of, parse_id, print_id, text_names_id};
pub use name_laws::{digests_are_ids, names_are_ordered, orders_tell_apart};
pub use number::parse_number;
