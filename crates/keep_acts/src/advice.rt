use keep_ledger::Refusal;
use std::fmt;

/// Why the book refused a request, and what to do then. It prints as one line without its end.
#[derive(Clone, Copy)]
pub struct Advice<'a> {
    /// The change that the request was about; 0 of a new one.
    pub about: u64,
    pub refusal: &'a Refusal,
}

impl fmt::Display for Advice<'_> {
    ghost use Rattle.std.specs.Prelude.{Some};
    ghost use Rattle.keep_acts.specs.Advice.{advice_text};

    ghost output = { λ advice. Some (advice_text advice.about advice.refusal.now) };

    fn fmt<W: fmt::Write>(&self, f: &mut fmt::Formatter<W>) -> fmt::Result {
        let about = self.about;
        match self.refusal {
            Refusal::Malformed => f.write_str(
                "the planned change isn't well formed: this is an error of keep",
            ),
            Refusal::Unknown => write!(f, "there is no change {about}: keep history lists them"),
            Refusal::Final => {
                write!(
                    f,
                    "change {about} is final: keep history tells which ones aren't"
                )
            }
            Refusal::NotInForce => {
                write!(
                    f,
                    "change {about} is undone: keep redo {about} makes it again"
                )
            }
            Refusal::InForce => {
                write!(
                    f,
                    "change {about} is in force: keep undo {about} takes it back"
                )
            }
            Refusal::Full => f.write_str(
                "a limit is passed, of events, of changes or of files in one change: do less at once, or go on in a new repository",
            ),
            Refusal::Stale(length) => {
                write!(f, "event {length} came meanwhile: run the command again")
            }
            Refusal::Vetoed(name) => {
                write!(
                    f,
                    "the veto {} refuses it: run it without that veto",
                    name.as_str()
                )
            }
            Refusal::Unmet(facet) => {
                write!(
                    f,
                    "{facet} isn't as the change asks: keep check lists what is wrong"
                )
            }
            Refusal::LeanedOn(number) => {
                write!(
                    f,
                    "change {number} leans on {about}: undo {number} first, or keep undo {about} --with-all"
                )
            }
            Refusal::Blocked(number) if *number == about => {
                write!(
                    f,
                    "what change {about} asks for isn't there now: keep show {about} tells what that is"
                )
            }
            Refusal::Blocked(number) => {
                write!(
                    f,
                    "change {number} stands in the way of {about}: undo {number} first"
                )
            }
            Refusal::Memory => f.write_str("no memory: run it with more"),
            Refusal::Fault => f.write_str(
                "the repository's folder failed, and nothing was changed: make room, and see that all in it can be written",
            ),
            Refusal::Unsettled(number) => write!(
                f,
                "change {number} is done, and then the repository's folder failed: make room, and the next command goes on from there"
            ),
        }
    }
}
