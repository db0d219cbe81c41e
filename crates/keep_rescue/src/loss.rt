use std::fmt;

/// Why something isn't in the new folder.
#[derive(Clone, Copy, Debug, PartialEq, Eq)]
pub enum Loss {
    /// A file at whose place no file of these bytes lies.
    OtherBytes,
    /// Something that is neither a file nor a folder, as a link.
    NoFile,
}

/// What isn't in the new folder, though it was read.
#[derive(Drop)]
pub struct Lost {
    /// Below the old folder.
    pub path: String,
    pub why: Loss,
}

impl fmt::Display for Loss {
    ghost use Rattle.std.specs.Prelude.{Some};
    ghost use Rattle.keep_rescue.specs.Words.{loss_text};

    ghost output = { λ loss. Some (loss_text loss) };

    fn fmt<W: fmt::Write>(&self, f: &mut fmt::Formatter<W>) -> fmt::Result {
        f.write_str(match self {
            Loss::OtherBytes => "its name isn't the SHA-256 of its bytes",
            Loss::NoFile => "it is neither a file nor a folder",
        })
    }
}
