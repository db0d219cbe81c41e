use crate::cell_values::texts_of;
use crate::row::Row;
use keep_tables::Side;
use serde_json::{Value, json};
use std::alloc::{AllocError, Global};

/// How the later snapshot differs from the earlier one.
#[derive(Clone, Copy, Debug, PartialEq, Eq)]
pub enum Difference {
    Added,
    Removed,
    /// It is another kind of node, or says or holds something else.
    Modified,
}

impl Difference {
    ghost use Rattle.std.specs.Prelude.{◌≡◌};
    ghost use Rattle.keep_rows.specs.Listings as spec;

    fn sign(self) -> &'static str
        ensures { result.now ≡ spec.sign self }
    {
        match self {
            Difference::Added => "+",
            Difference::Removed => "-",
            Difference::Modified => "M",
        }
    }

    fn word(self) -> &'static str
        ensures { result.now ≡ spec.difference_word self }
    {
        match self {
            Difference::Added => "added",
            Difference::Removed => "removed",
            Difference::Modified => "modified",
        }
    }
}

/// A path at which two snapshots differ.
#[derive(Drop)]
pub struct DifferenceRow {
    pub difference: Difference,
    pub path: String,
}

impl Row for DifferenceRow {
    ghost use Rattle.keep_rows.specs.Listings.{difference_cells, difference_data, difference_head, difference_sides};

    ghost row_sides = { difference_sides };

    ghost row_head = { difference_head };

    ghost row_cells = { difference_cells };

    ghost row_data = { difference_data };

    fn sides(alloc: Global) -> Result<Vec<Side>, AllocError> {
        Vec::from_slice(alloc, &[Side::Left, Side::Left])
    }

    fn head(alloc: Global) -> Result<Vec<String>, AllocError> {
        texts_of(alloc, &["", "Path"])
    }

    fn cells(&self, alloc: Global) -> Result<Vec<String>, AllocError> {
        let sign = String::from_str(alloc, self.difference.sign())?;
        let path = self.path.clone()?;
        Ok(vec![in alloc; sign, path]?)
    }

    fn value(&self, alloc: Global) -> Result<Value, AllocError> {
        let difference = Value::try_from_str(alloc, self.difference.word())?;
        let path = Value::try_from_str(alloc, self.path.as_str())?;
        json!(in alloc; {"difference": difference, "path": path})
    }
}
