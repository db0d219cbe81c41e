use crate::cell_values::{joined, number_cell, number_or_null, short_id, size_cell, texts_of};
use crate::row::Row;
use crate::when::When;
use keep_docs::{id_value, texts_value};
use keep_names::Id;
use keep_tables::Side;
use serde_json::{Value, json};
use std::alloc::{AllocError, Global};

/// A snapshot.
#[derive(Drop)]
pub struct SnapshotRow {
    pub name: Id,
    /// When it was taken, as it writes it.
    pub time: String,
    pub at: When,
    pub host: String,
    pub paths: Vec<String>,
    pub tags: Vec<String>,
    /// How many files it has.
    pub files: u64,
    /// How many bytes these have.
    pub size: u64,
    /// The change that added it, where one is known.
    pub change: Option<u64>,
}

impl Row for SnapshotRow {
    ghost use Rattle.keep_rows.specs.Listings.{snapshot_cells, snapshot_data, snapshot_head, snapshot_sides};

    ghost row_sides = { snapshot_sides };

    ghost row_head = { snapshot_head };

    ghost row_cells = { snapshot_cells };

    ghost row_data = { snapshot_data };

    fn sides(alloc: Global) -> Result<Vec<Side>, AllocError> {
        Vec::from_slice(
            alloc,
            &[
                Side::Left,
                Side::Left,
                Side::Left,
                Side::Left,
                Side::Left,
                Side::Right,
                Side::Right,
                Side::Right,
            ],
        )
    }

    fn head(alloc: Global) -> Result<Vec<String>, AllocError> {
        texts_of(
            alloc,
            &[
                "ID", "Time", "Host", "Paths", "Tags", "Files", "Size", "Change",
            ],
        )
    }

    fn cells(&self, alloc: Global) -> Result<Vec<String>, AllocError> {
        let name = short_id(alloc, self.name)?;
        let time = self.at.local(alloc)?;
        let host = self.host.clone()?;
        let paths = joined(alloc, &self.paths)?;
        let tags = joined(alloc, &self.tags)?;
        let files = number_cell(alloc, Some(self.files))?;
        let size = size_cell(alloc, Some(self.size))?;
        let change = number_cell(alloc, self.change)?;
        Ok(vec![in alloc; name, time, host, paths, tags, files, size, change]?)
    }

    fn value(&self, alloc: Global) -> Result<Value, AllocError> {
        let id = id_value(alloc, self.name)?;
        let time = Value::try_from_str(alloc, self.time.as_str())?;
        let host = Value::try_from_str(alloc, self.host.as_str())?;
        let paths = texts_value(alloc, &self.paths)?;
        let tags = texts_value(alloc, &self.tags)?;
        let change = number_or_null(self.change);
        json!(in alloc; {
            "change": change,
            "files": self.files,
            "host": host,
            "id": id,
            "paths": paths,
            "size": self.size,
            "tags": tags,
            "time": time
        })
    }
}
