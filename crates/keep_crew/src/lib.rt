//! A crew: what each of its operators is asked for, the plan that an operator makes on what its pass shows, and what it is
//! told.
#![tactic(auto)]

mod answers;
mod gate;
mod plans;
mod work;

pub use answers::{DeskError, NotTold};
pub use gate::{Gate, OpenGate};
pub use plans::{Plans, plan_on};
pub use work::Work;
