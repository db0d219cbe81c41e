//! How a restore writes a new directory, over any target.
#![tactic(auto)]

mod course;
mod file_filling;
mod hurt;
mod left_out;
mod places;
mod putting;
mod putting_back;
mod restored;
mod set_attributes;
mod wanted;

pub use left_out::{LeftOut, Why};
pub use putting_back::put_back;
pub use restored::{PutError, Restored};
pub use wanted::{Wanted, What};
