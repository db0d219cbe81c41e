use keep_docs::id_value;
use keep_names::Id;
use keep_rows::{Row, short_id, texts_of};
use keep_tables::Side;
use serde_json::{Value, json};
use std::alloc::{AllocError, Global};

/// A path that a pattern matches in a snapshot.
#[derive(Drop)]
pub struct FoundRow {
    pub snapshot: Id,
    pub path: String,
}

impl Row for FoundRow {
    ghost use Rattle.keep_looks.specs.Found.{found_cells, found_data, found_head, found_sides};

    ghost row_sides = { found_sides };

    ghost row_head = { found_head };

    ghost row_cells = { found_cells };

    ghost row_data = { found_data };

    fn sides(alloc: Global) -> Result<Vec<Side>, AllocError> {
        Vec::from_slice(alloc, &[Side::Left, Side::Left])
    }

    fn head(alloc: Global) -> Result<Vec<String>, AllocError> {
        texts_of(alloc, &["ID", "Path"])
    }

    fn cells(&self, alloc: Global) -> Result<Vec<String>, AllocError> {
        let snapshot = short_id(alloc, self.snapshot)?;
        let path = self.path.clone()?;
        Ok(vec![in alloc; snapshot, path]?)
    }

    fn value(&self, alloc: Global) -> Result<Value, AllocError> {
        let path = Value::try_from_str(alloc, self.path.as_str())?;
        let snapshot = id_value(alloc, self.snapshot)?;
        json!(in alloc; {"path": path, "snapshot": snapshot})
    }
}
