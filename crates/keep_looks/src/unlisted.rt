use keep_names::Id;
use keep_read::RestoreError;
use std::fmt;

/// A snapshot whose trees can't be listed, and the first refusal of them. It prints as one line without its end.
#[derive(Clone, Copy, Debug, PartialEq, Eq)]
pub struct Unlisted {
    pub snapshot: Id,
    pub why: RestoreError,
}

impl fmt::Display for Unlisted {
    ghost use Rattle.std.specs.Prelude.{Some};
    ghost use Rattle.keep_looks.specs.Advice.{unlisted_text};

    ghost output = { λ unlisted. Some (unlisted_text unlisted) };

    fn fmt<W: fmt::Write>(&self, f: &mut fmt::Formatter<W>) -> fmt::Result {
        write!(
            f,
            "snapshot {} can't be listed, {}: keep check lists what is wrong",
            self.snapshot, self.why
        )
    }
}
