ghost use Rattle.std.specs.Prelude.{◌≡◌, false, IfOk, map, string_bytes};
ghost use Rattle.std.specs.List.{AllByRecursion};
ghost use Rattle.serde_json.specs.View.{view};
ghost use Rattle.serde_json.specs.Written.{has_float};
ghost use Rattle.keep_docs.specs.Lists.{list_data};
ghost use Rattle.keep_rows.specs.Rows.{document_text, rows_table};
ghost use Rattle.keep_tables.specs.Lines.{table_text};

use keep_docs::write_doc;
use keep_tables::{Side, Table};
use serde_json::Value;
use std::alloc::{AllocError, Global};

/// What a list has rows of.
pub trait Row {
    ghost use Rattle.std.specs.Prelude.{◌≡◌, ℕ, false, List, IfOk, map, string_bytes};
    ghost use Rattle.keep_tables.specs.declared.table.Side.{Side};
    ghost use Rattle.serde_json.specs.Data.{Data};
    ghost use Rattle.serde_json.specs.View.{view};
    ghost use Rattle.serde_json.specs.Written.{has_float};

    ghost row_sides: { List Side };

    ghost row_head: { List (List ℕ) };

    ghost row_cells: { Self → List (List ℕ) };

    ghost row_data: { Self → Data };

    /// On which side each column's cells stand.
    fn sides(alloc: Global) -> Result<Vec<Side>, AllocError>
        ensures { IfOk result (λ sides. sides.items ≡ row_sides) };

    /// What each column is called.
    fn head(alloc: Global) -> Result<Vec<String>, AllocError>
        ensures { IfOk result (λ head. map string_bytes head.items ≡ row_head) };

    /// Its cells in a table.
    fn cells(&self, alloc: Global) -> Result<Vec<String>, AllocError>
        ensures { IfOk result (λ cells. map string_bytes cells.items ≡ row_cells self.now) };

    /// It as a JSON object.
    fn value(&self, alloc: Global) -> Result<Value, AllocError>
        ensures value { IfOk result (λ value. view value ≡ row_data self.now) }
        ensures whole { IfOk result (λ _. has_float (row_data self.now) ≡ false) };
}

/// The rows as lines of a table under their head.
pub fn table_of<R: Row>(alloc: Global, rows: &[R]) -> Result<String, AllocError>
    ensures { IfOk result (λ text. string_bytes text
        ≡ table_text (rows_table R.row_sides R.row_head (map R.row_cells rows.now))) }
{
    let mut table = Table::new(alloc, R::sides(alloc)?);
    let head = R::head(alloc)?;
    table.push(&head)?;
    for row in rows {
        let cells = row.cells(alloc)?;
        table.push(&cells)?;
    }
    table.text(alloc)
}

/// The rows as one JSON document, a list of objects in their order, with a line end behind it.
pub fn document_of<R: Row>(alloc: Global, rows: &[R]) -> Result<Vec<u8>, AllocError>
    ensures { IfOk result (λ bytes. bytes.items ≡ document_text (map R.row_data rows.now)) }
{
    let value = list_value(alloc, rows)?;
    let mut text = write_doc(alloc, &value)?;
    text.push(b'\n')?;
    Ok(text)
}

fn list_value<R: Row>(alloc: Global, rows: &[R]) -> Result<Value, AllocError>
    ensures value { IfOk result (λ value. view value ≡ list_data (map R.row_data rows.now)) }
    ensures whole { IfOk result (λ _. AllByRecursion (λ row. has_float (R.row_data row) ≡ false) rows.now) }
{
    let mut values = Vec::with_capacity(alloc, rows.len())?;
    for row in rows {
        values.push(row.value(alloc)?)?;
    }
    Ok(Value::Array(values))
}
