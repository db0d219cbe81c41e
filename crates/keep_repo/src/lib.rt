//! A repository in memory: bytes by file name, and marks on packs.
#![tactic(auto)]

mod bytes;
mod facet;
mod facet_order;
mod files;
mod repo;

pub use bytes::Bytes;
pub use facet::{Facet, Mark};
pub use facet_order::facets_are_ordered;
pub use repo::Repo;
