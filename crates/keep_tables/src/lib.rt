//! Tables, sizes and times as people read them: texts made of values, without a terminal.
#![tactic(auto)]

mod digits;
mod shown_text;
mod sizes;
mod table;
mod time;

pub use shown_text::shown;
pub use sizes::size;
pub use table::{Side, Table};
pub use time::{local_time, utc_time};
