ghost use Rattle.std.specs.Prelude.{◌≡◌, ◌++◌, IfOk, option_map, string_bytes};
ghost use Rattle.keep_rows.specs.Listings.{arrow};

use crate::cell_values::{
    number_or_null, size_cell, text_or_null, texts_of, when_cell, when_value,
};
use crate::modes::mode_text;
use crate::row::Row;
use crate::when::When;
use keep_tables::Side;
use serde_json::{Value, json};
use std::alloc::{AllocError, Global};

/// What a snapshot has at a path.
#[derive(Drop)]
pub struct NodeRow {
    /// The bits of Go's os.FileMode.
    pub mode: u32,
    /// Whose it is, by name or by number.
    pub owner: String,
    /// How many bytes a file has.
    pub size: Option<u64>,
    /// When it was last written to.
    pub at: Option<When>,
    pub path: String,
    /// Where a link leads.
    pub target: Option<String>,
}

impl Row for NodeRow {
    ghost use Rattle.keep_rows.specs.Listings.{node_cells, node_data, node_head, node_sides};

    ghost row_sides = { node_sides };

    ghost row_head = { node_head };

    ghost row_cells = { node_cells };

    ghost row_data = { node_data };

    fn sides(alloc: Global) -> Result<Vec<Side>, AllocError> {
        Vec::from_slice(
            alloc,
            &[Side::Left, Side::Left, Side::Right, Side::Left, Side::Left],
        )
    }

    fn head(alloc: Global) -> Result<Vec<String>, AllocError> {
        texts_of(alloc, &["Mode", "Owner", "Size", "Time", "Path"])
    }

    fn cells(&self, alloc: Global) -> Result<Vec<String>, AllocError> {
        let mode = mode_text(alloc, self.mode)?;
        let owner = self.owner.clone()?;
        let size = size_cell(alloc, self.size)?;
        let time = when_cell(alloc, self.at)?;
        let path = led(self.path.clone()?, &self.target)?;
        Ok(vec![in alloc; mode, owner, size, time, path]?)
    }

    fn value(&self, alloc: Global) -> Result<Value, AllocError> {
        let mtime = when_value(alloc, self.at)?;
        let owner = Value::try_from_str(alloc, self.owner.as_str())?;
        let path = Value::try_from_str(alloc, self.path.as_str())?;
        let permissions = Value::String(mode_text(alloc, self.mode)?);
        let size = number_or_null(self.size);
        let target = text_or_null(alloc, self.target.as_deref())?;
        json!(in alloc; {
            "mode": self.mode,
            "mtime": mtime,
            "owner": owner,
            "path": path,
            "permissions": permissions,
            "size": size,
            "target": target
        })
    }
}

/// The path, with the link's target behind it.
fn led(path: String, target: &Option<String>) -> Result<String, AllocError>
    ensures { IfOk result (λ made. string_bytes made
        ≡ string_bytes path ++ arrow (option_map string_bytes target.now)) }
{
    let mut made = path;
    if let Some(target) = target {
        made.push_str(" -> ")?;
        made.push_str(target.as_str())?;
    }
    Ok(made)
}
