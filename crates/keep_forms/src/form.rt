/// How a command is written, and what help says of it.
#[derive(Clone, Copy)]
pub(crate) struct Form {
    pub name: &'static str,
    pub about: &'static str,
    pub arguments: &'static [Argument],
}

/// An argument of a command.
#[derive(Clone, Copy)]
pub(crate) struct Argument {
    pub name: &'static str,
    pub kind: Kind,
    pub help: &'static str,
}

/// How an argument is written, with what help calls its value.
#[derive(Clone, Copy)]
pub(crate) enum Kind {
    /// `--NAME`
    Flag,
    /// `--NAME TEXT`, of any text.
    Text(&'static str),
    /// `--NAME TEXT`, of a text that isn't empty.
    Name(&'static str),
    /// `--NAME TEXT`, of a text that isn't empty, which has to be there.
    NeededName(&'static str),
    /// `-N TEXT` or `--NAME TEXT`, of a text that isn't empty.
    Lettered(char, &'static str),
    /// `--NAME TEXT`, of a text that isn't empty, several times for several.
    Names(&'static str),
    /// `--NAME TEXT`, of a text that isn't empty, once or several times.
    NeededNames(&'static str),
    /// `--NAME NUMBER`, from the least to the most.
    Number(u64, u64),
    /// A word that has to stand at its place.
    Word,
    /// A word that may stand at its place.
    WordOrNone,
    /// All words from a place on, of which there has to be one.
    Words,
    /// A number that has to stand at its place.
    Index,
    /// A number that may stand at its place.
    IndexOrNone,
}
