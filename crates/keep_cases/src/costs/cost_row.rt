/// What a line may take at most.
#[derive(Clone, Copy)]
pub(crate) struct Bounds {
    /// Calls of the shelf.
    pub calls: u64,
    /// KiB of memory that it goes through.
    pub kib: u64,
}

/// A row of the table.
pub(crate) enum Row<'a> {
    Nothing,
    /// A new repository of so many backups, of one file of so many bytes each.
    Size(u32, usize),
    Line(Bounds, &'a str),
}

/// What the row says, if it is one.
pub(crate) fn row_of(text: &str) -> Option<Row<'_>> {
    if text.is_empty() || text.starts_with('#') {
        return Some(Row::Nothing);
    }
    let (first, rest) = text.split_once(' ')?;
    let (second, rest) = rest.split_once(' ')?;
    if first == "=" {
        return Some(Row::Size(second.parse().ok()?, rest.parse().ok()?));
    }
    let bounds = Bounds {
        calls: first.parse().ok()?,
        kib: second.parse().ok()?,
    };
    Some(Row::Line(bounds, rest))
}
