use keep_docs::id_value;
use keep_names::{FileName, print_id};
use keep_rows::{Row, When, number_or_null, size_cell, texts_of, when_cell, when_value};
use keep_tables::Side;
use serde_json::{Value, json};
use std::alloc::{AllocError, Global};

/// What a change does to a file or a mark.
#[derive(Clone, Copy, Debug, PartialEq, Eq)]
pub enum Sign {
    /// The file comes.
    Added,
    /// The file goes.
    Dropped,
    /// The pack is marked.
    Set,
    /// The pack's mark goes.
    Cleared,
}

impl Sign {
    ghost use Rattle.std.specs.Prelude.{◌≡◌};
    ghost use Rattle.keep_events.specs.Parts as spec;

    fn text(self) -> &'static str
        ensures { result.now ≡ spec.sign_text self }
    {
        match self {
            Sign::Added => "+",
            Sign::Dropped => "-",
            Sign::Set => "*",
            Sign::Cleared => "~",
        }
    }

    fn word(self) -> &'static str
        ensures { result.now ≡ spec.sign_word self }
    {
        match self {
            Sign::Added => "added",
            Sign::Dropped => "dropped",
            Sign::Set => "set",
            Sign::Cleared => "cleared",
        }
    }
}

/// A part of a change: a file or a mark that it writes.
#[derive(Clone, Copy)]
pub struct PartRow {
    pub sign: Sign,
    /// The file, or the marked pack.
    pub name: FileName,
    /// How many bytes a file has.
    pub size: Option<u64>,
    /// When a pack was marked, on a clock in UTC until another one is told.
    pub at: Option<When>,
}

impl Row for PartRow {
    ghost use Rattle.keep_events.specs.Parts.{part_cells, part_data, part_head, part_sides};

    ghost row_sides = { part_sides };

    ghost row_head = { part_head };

    ghost row_cells = { part_cells };

    ghost row_data = { part_data };

    fn sides(alloc: Global) -> Result<Vec<Side>, AllocError> {
        Vec::from_slice(
            alloc,
            &[Side::Left, Side::Left, Side::Left, Side::Right, Side::Left],
        )
    }

    fn head(alloc: Global) -> Result<Vec<String>, AllocError> {
        texts_of(alloc, &["", "Kind", "ID", "Size", "Marked at"])
    }

    fn cells(&self, alloc: Global) -> Result<Vec<String>, AllocError> {
        let sign = String::from_str(alloc, self.sign.text())?;
        let kind = self.name.kind.to_string(alloc)?;
        let id = print_id(alloc, self.name.id)?;
        let size = size_cell(alloc, self.size)?;
        let at = when_cell(alloc, self.at)?;
        Ok(vec![in alloc; sign, kind, id, size, at]?)
    }

    fn value(&self, alloc: Global) -> Result<Value, AllocError> {
        let id = id_value(alloc, self.name.id)?;
        let kind = Value::String(self.name.kind.to_string(alloc)?);
        let marked_at = when_value(alloc, self.at)?;
        let size = number_or_null(self.size);
        let what = Value::try_from_str(alloc, self.sign.word())?;
        json!(in alloc; {
            "id": id,
            "kind": kind,
            "marked_at": marked_at,
            "size": size,
            "what": what
        })
    }
}
