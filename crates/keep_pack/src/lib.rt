//! Packs: blobs one after the other, and behind them a header that lists them.
#![tactic(auto)]

mod header;
mod pack;
mod pack_error;
mod pack_laws;
mod stored_blob;

pub use header::read_header;
pub use pack::build_pack;
pub use pack_error::PackError;
pub use pack_laws::{built_packs_are_honest, headers_are_read};
pub use stored_blob::blob_at;
