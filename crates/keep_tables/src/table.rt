ghost use Rattle.std.specs.Prelude.{◌≡◌, ◌++◌, ◌∷◌, [], IfOk, OnOk, OnErr, map, slice_index, slice_index_or, string_bytes, ◌-◌, ◌≤◌};
ghost use Rattle.std.specs.List.{flat_map};
ghost use Rattle.keep_tables.specs.Lines as spec;
ghost use Rattle.keep_tables.specs.Lines.{cells_of, cells_text, line_text, spaces};
ghost use Rattle.keep_tables.specs.Shown.{shown_text};

use crate::shown_text::shown;
use std::alloc::{AllocError, Global};
use std::marker::Model;
use unicode_width::UnicodeWidthStr;

/// On which side of its column a cell stands.
#[derive(Clone, Copy, Debug, PartialEq, Eq)]
pub enum Side {
    Left,
    Right,
}

/// Lines of cells under one another. The first line is the head.
#[derive(Drop)]
pub struct Table {
    alloc: Global,
    sides: Vec<Side>,
    lines: Vec<Vec<String>>,
}

impl Model for Table {
    ghost use Rattle.std.specs.Prelude.{map};
    ghost use Rattle.keep_tables.specs.Lines.{TableData, cells_of};

    ghost Value = { TableData };

    ghost view = { λ t. record {
      sides = t.sides.items;
      lines = map cells_of t.lines.items;
    } };
}

impl Table {
    ghost use Rattle.keep_tables.specs.Lines.{table_text};
    ghost use Rattle.keep_tables.specs.Shown.{shown_text};

    /// No lines, under columns whose cells stand on these sides.
    pub fn new(alloc: Global, sides: Vec<Side>) -> Table
        ensures { result ≡ record { sides = sides.items; lines = [] } }
    {
        Table {
            alloc,
            sides,
            lines: Vec::new(alloc),
        }
    }

    /// Puts a line of cells below the others, each as it is shown. Cells behind the columns stand there with two spaces
    /// before them. Where memory runs out the table is as it was.
    pub fn push(&mut self, cells: &[String]) -> Result<(), AllocError>
        ensures ok { OnOk result (self.new ≡ record self.old {
          lines = self.old.lines ++ map shown_text (map string_bytes cells.now) ∷ [];
        }) }
        ensures err { OnErr result (self.new ≡ self.old) }
    {
        let line = shown_cells(self.alloc, cells)?;
        self.lines.push(line)?;
        Ok(())
    }

    /// The lines. Each column is as wide as its widest cell, with two spaces between columns and none at a line's end but
    /// those of a cell. No cell is cut.
    pub fn text(&self, alloc: Global) -> Result<String, AllocError>
        ensures { IfOk result (λ text. string_bytes text ≡ table_text self.now) }
    {
        let widths = widths_of(alloc, &self.lines, &self.sides)?;
        lines_text(alloc, &self.sides, &widths, &self.lines)
    }
}

fn shown_cells(alloc: Global, cells: &[String]) -> Result<Vec<String>, AllocError>
    ensures { IfOk result (λ made. map string_bytes made.items ≡ map shown_text (map string_bytes cells.now)) }
{
    let mut made = Vec::with_capacity(alloc, cells.len())?;
    for cell in cells {
        made.push(shown(alloc, cell.as_str())?)?;
    }
    Ok(made)
}

fn widths_of(alloc: Global, lines: &[Vec<String>], sides: &[Side]) -> Result<Vec<usize>, AllocError>
    ensures { IfOk result (λ widths. widths.items
        ≡ spec.widths_of (record { sides = sides.now; lines = map cells_of lines.now })) }
{
    (0..sides.len())
        .map(|k| column_width(lines, k))
        .collect(alloc)
}

/// The width of the widest cell in column k.
fn column_width(lines: &[Vec<String>], k: usize) -> usize
    ensures { result ≡ spec.column_width (map cells_of lines.now) k }
{
    let mut widest = 0;
    for cells in lines {
        widest = widest.max(cell_width(cells, k));
    }
    widest
}

fn cell_width(cells: &[String], k: usize) -> usize
    ensures { result ≡ spec.cell_width k (map string_bytes cells.now) }
{
    if k < cells.len() {
        cells[k].as_str().width()
    } else {
        0
    }
}

fn lines_text(
    alloc: Global,
    sides: &[Side],
    widths: &[usize],
    lines: &[Vec<String>],
) -> Result<String, AllocError>
    ensures { IfOk result (λ text. string_bytes text
        ≡ flat_map (line_text sides.now widths.now) (map cells_of lines.now)) }
{
    let mut text = String::new(alloc);
    for cells in lines {
        push_cells(alloc, &mut text, sides, widths, cells)?;
        text.push('\n')?;
    }
    Ok(text)
}

fn push_cells(
    alloc: Global,
    text: &mut String,
    sides: &[Side],
    widths: &[usize],
    cells: &[String],
) -> Result<(), AllocError>
    ensures { OnOk result (string_bytes text.new
        ≡ string_bytes text.old ++ cells_text sides.now widths.now 0 [] (map string_bytes cells.now)) }
{
    let mut gap = String::new(alloc);
    for (k, cell) in cells.iter().enumerate() {
        let free = free_of(widths, k, cell.as_str());
        let before = before_of(sides, k, free);
        push_spaces(&mut gap, before)?;
        push_cell(text, &mut gap, cell.as_str())?;
        push_spaces(&mut gap, free - before)?;
        gap.push_str("  ")?;
    }
    Ok(())
}

/// Writes the gap and then the cell, unless it is empty.
fn push_cell(text: &mut String, gap: &mut String, cell: &str) -> Result<(), AllocError>
    ensures text { OnOk result (string_bytes text.new ≡ string_bytes text.old ++ spec.cell_text (string_bytes gap.old) cell.now) }
    ensures gap { OnOk result (string_bytes gap.new ≡ spec.gap_left (string_bytes gap.old) cell.now) }
{
    if cell.is_empty() {
        return Ok(());
    }
    text.push_str(gap.as_str())?;
    text.push_str(cell)?;
    gap.clear();
    Ok(())
}

/// How many spaces are left in column k beside the cell.
fn free_of(widths: &[usize], k: usize, cell: &str) -> usize
    ensures { result ≡ slice_index widths.now k - spec.width cell.now }
{
    match widths.get(k) {
        Some(width) => width.saturating_sub(cell.width()),
        None => 0,
    }
}

/// How many of the free spaces stand before a cell of column k.
fn before_of(sides: &[Side], k: usize, free: usize) -> usize
    ensures value { result ≡ spec.spaces_before (slice_index_or sides.now k Side.Left) free }
    ensures within { result ≤ free }
{
    match sides.get(k) {
        Some(Side::Right) => free,
        _ => 0,
    }
}

fn push_spaces(text: &mut String, count: usize) -> Result<(), AllocError>
    ensures { OnOk result (string_bytes text.new ≡ string_bytes text.old ++ spaces count) }
{
    for _ in 0..count {
        text.push(' ')?;
    }
    Ok(())
}
