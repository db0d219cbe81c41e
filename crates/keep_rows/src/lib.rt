//! Rows of what is listed: each as cells of a table and as a JSON object, and lists of them as a table and as a document.
#![tactic(auto)]

mod cell_values;
mod difference;
mod finding_row;
mod modes;
mod node_row;
mod row;
mod snapshot;
mod when;

pub use cell_values::{
    joined, number_cell, number_or_null, short_id, size_cell, text_or_null, texts_of, when_cell,
    when_value,
};
pub use difference::{Difference, DifferenceRow};
pub use finding_row::FindingRow;
pub use modes::mode_text;
pub use node_row::NodeRow;
pub use row::{Row, document_of, table_of};
pub use snapshot::SnapshotRow;
pub use when::When;
