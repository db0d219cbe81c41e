//! What the files of a repository say together: where its blobs are, and what each of them names.
#![tactic(auto)]

mod batches;
mod bytes_there;
mod catalog;
mod catalog_error;
mod file_reading;
mod headers;
mod indexes;
mod listed;
mod listings;
mod live_repo;
mod named_blobs;
mod place_laws;
mod reach_error;
mod spot;
mod stored;
mod tables;
mod unhashed;
mod unread;
mod usable_listings;
mod wrong;

pub use catalog::Catalog;
pub use catalog_error::CatalogError;
pub use keep_hashing::{Hashing, OneByOne};
pub use live_repo::LiveRepo;
pub use named_blobs::Named;
pub use place_laws::{
    a_wrong_hash_is_not_missing, live_repos_cross_threads, spots_are_in_order,
    spots_are_listed_and_stored, the_chosen_place_is_least, trees_name_what_their_nodes_name,
};
pub use reach_error::ReachError;
pub use spot::{PackedBlob, Spot};
pub use unread::{FileError, Unread};
