ghost use Rattle.std.specs.Prelude.{◌≡◌};

use crate::cell_values::{number_cell, number_or_null, texts_of};
use crate::row::Row;
use keep_docs::id_value;
use keep_names::{Id, print_id};
use keep_tables::Side;
use serde_json::{Value, json};
use std::alloc::{AllocError, Global};

/// Something that is wrong with a repository.
#[derive(Drop)]
pub struct FindingRow {
    /// What it is, and of what: `wrong-name pack`.
    pub word: String,
    pub id: Id,
    /// The number of the refusal that it carries.
    pub number: Option<u8>,
}

impl Row for FindingRow {
    ghost use Rattle.keep_rows.specs.Listings.{finding_cells, finding_data, finding_head, finding_sides};

    ghost row_sides = { finding_sides };

    ghost row_head = { finding_head };

    ghost row_cells = { finding_cells };

    ghost row_data = { finding_data };

    fn sides(alloc: Global) -> Result<Vec<Side>, AllocError> {
        Vec::from_slice(alloc, &[Side::Left, Side::Left, Side::Right])
    }

    fn head(alloc: Global) -> Result<Vec<String>, AllocError> {
        texts_of(alloc, &["Finding", "ID", "Refusal"])
    }

    fn cells(&self, alloc: Global) -> Result<Vec<String>, AllocError> {
        let word = self.word.clone()?;
        let id = print_id(alloc, self.id)?;
        let number = number_cell(alloc, wide(self.number))?;
        Ok(vec![in alloc; word, id, number]?)
    }

    fn value(&self, alloc: Global) -> Result<Value, AllocError> {
        let finding = Value::try_from_str(alloc, self.word.as_str())?;
        let id = id_value(alloc, self.id)?;
        let refusal = number_or_null(wide(self.number));
        json!(in alloc; {"finding": finding, "id": id, "refusal": refusal})
    }
}

fn wide(number: Option<u8>) -> Option<u64>
    ensures { result ≡ number }
{
    match number {
        Some(number) => Some(number as u64),
        None => None,
    }
}
