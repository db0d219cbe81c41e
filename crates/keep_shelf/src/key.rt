use keep_names::FileName;

/// Where something stands on a shelf.
///
/// Live files come before the trash, and the trash before the entries: files by name, the trash by the number of the
/// change and then by name, entries by their number.
#[derive(Clone, Copy, Debug, PartialEq, Eq, PartialOrd, Ord, Hash)]
pub enum Key {
    /// A file of the repository.
    Live(FileName),
    /// A file that is out of the repository since the change of this number was made or taken back.
    Trash(u64, FileName),
    /// An event's entry in the journal.
    Entry(u64),
}
