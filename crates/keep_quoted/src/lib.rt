//! Names of nodes as restic's trees have them: any bytes, quoted as Go does it, and read back.
#![tactic(auto)]

mod hex;
mod letters;
mod piece;
mod quoting;
mod quoting_laws;
mod unquoting;

pub use quoting::quote;
pub use quoting_laws::{plain_names_are_quoted_so, quoted_names_are_names, quoted_names_read_back};
pub use unquoting::unquote;
