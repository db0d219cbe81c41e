use keep_plan::PlanError;
use std::fmt;

/// Why a planner planned nothing, and what to do then. It prints as one line without its end.
#[derive(Clone, Copy)]
pub struct PlanAdvice<'a>(pub &'a PlanError);

impl fmt::Display for PlanAdvice<'_> {
    ghost use Rattle.std.specs.Prelude.{Some};
    ghost use Rattle.keep_acts.specs.PlanAdvice.{plan_advice_text};

    ghost output = { λ advice. Some (plan_advice_text advice.0.now) };

    fn fmt<W: fmt::Write>(&self, f: &mut fmt::Formatter<W>) -> fmt::Result {
        match self.0 {
            PlanError::BadPath => f.write_str(
                "a path can't be backed up: name a file or a folder that is there",
            ),
            PlanError::SamePathTwice => f.write_str(
                "a path is named twice, or is a file here and a folder there: name it once",
            ),
            PlanError::BadTime => {
                f.write_str("no snapshot can have the time: write it as in 2026-11-29T04:00:00Z")
            }
            PlanError::BadEdit => f.write_str(
                "these tags can't be asked for at once: set some, or add and remove some, none of them empty",
            ),
            PlanError::BadPattern => {
                f.write_str("a pattern can't be read: the guide has the patterns that there are")
            }
            PlanError::Unread(file) => {
                write!(
                    f,
                    "a file can't be read, {file}: keep check lists all of them"
                )
            }
            PlanError::Reach(_) => {
                write!(
                    f,
                    "a snapshot isn't whole, {}: keep check lists all of them",
                    self.0
                )
            }
            PlanError::TooDeep => f.write_str(
                "a path has more than 256 folders, one below the other: back up from further below",
            ),
            PlanError::Full => {
                f.write_str("a tree or a piece of a file has 4 GiB or more: back up less at once")
            }
            PlanError::SnapshotThere => f.write_str("this very snapshot is there already"),
            PlanError::NothingToDo => f.write_str("nothing would change"),
            PlanError::Memory => f.write_str("no memory: run it with more"),
        }
    }
}
