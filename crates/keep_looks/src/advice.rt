use keep_named::NamedError;
use std::fmt;

/// Why a text names no snapshot, and what to do then. It prints as one line without its end.
#[derive(Clone, Copy)]
pub struct NamedAdvice<'a> {
    pub text: &'a str,
    pub error: NamedError,
}

impl fmt::Display for NamedAdvice<'_> {
    ghost use Rattle.std.specs.Prelude.{Some};
    ghost use Rattle.keep_looks.specs.Advice.{named_text};

    ghost output = { λ advice. Some (named_text advice.text.now advice.error) };

    fn fmt<W: fmt::Write>(&self, f: &mut fmt::Formatter<W>) -> fmt::Result {
        let text = self.text;
        match self.error {
            NamedError::NoneLatest => {
                f.write_str("there is no snapshot that can be read: keep backup makes one")
            }
            NamedError::NoneAdded => write!(
                f,
                "{text} names no snapshot, since no such change added one: keep history lists the changes"
            ),
            NamedError::SeveralAdded => write!(
                f,
                "{text} names several snapshots: name one by its id, which keep snapshots lists"
            ),
            NamedError::NoneBegins => write!(
                f,
                "no snapshot's id begins with {text}: keep snapshots lists them"
            ),
            NamedError::SeveralBegin => write!(
                f,
                "the ids of several snapshots begin with {text}: give more of the digits"
            ),
            NamedError::Memory => f.write_str("no memory: run it with more"),
        }
    }
}
