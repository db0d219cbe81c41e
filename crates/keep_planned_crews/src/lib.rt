//! Laws alone, without code: neither a desk nor a crew loses a blob, where what is committed is planned.
#![tactic(auto)]

mod crew_laws;

pub use crew_laws::{planned_crews_lose_nothing, planned_desks_lose_nothing};
