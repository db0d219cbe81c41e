//! A book with the list of the events that it accepts, and the pages that are published of it: what a desk keeps under
//! its lock; and a pass: what an operator knows of that list, and the page that it reads without a lock.
#![tactic(auto)]

mod keeper;
mod naming;
mod page;
mod page_shown;
mod pass;
mod register;
mod rule;
mod shown;
mod step;

pub use keeper::Keeper;
pub use naming::Naming;
pub use page::Page;
pub use page_shown::shown_on;
pub use pass::Pass;
pub use register::Register;
pub use rule::{Published, Shows};
pub use shown::{NoPage, Shown};
pub use step::Step;
