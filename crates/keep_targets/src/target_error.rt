use std::fmt;

/// Why a target didn't do what it was asked for.
#[derive(Clone, Copy, Debug, PartialEq, Eq)]
pub enum TargetError {
    /// Something is there already.
    Taken,
    /// A permission is wanting.
    Denied,
    /// There is no space left.
    Full,
    /// The system can't take such a name, text or time.
    Unsayable,
    /// The file system has no such act.
    Unknown,
    /// Memory is wanting.
    Memory,
    /// All else.
    Failed,
}

/// Of the bytes that were to be appended only a first part was.
#[derive(Clone, Copy, Debug, PartialEq, Eq)]
pub struct Short {
    /// How many of them.
    pub written: u64,
    pub refusal: TargetError,
}

impl fmt::Display for TargetError {
    ghost use Rattle.std.specs.Prelude.{Some};
    ghost use Rattle.keep_targets.specs.Words.{refusal_text};

    ghost output = { λ refusal. Some (refusal_text refusal) };

    fn fmt<W: fmt::Write>(&self, f: &mut fmt::Formatter<W>) -> fmt::Result {
        f.write_str(match self {
            TargetError::Taken => "something is there already",
            TargetError::Denied => "permission denied",
            TargetError::Full => "no space left",
            TargetError::Unsayable => "the system can't take it",
            TargetError::Unknown => "the file system can't do it",
            TargetError::Memory => "out of memory",
            TargetError::Failed => "the file system failed",
        })
    }
}
