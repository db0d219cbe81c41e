ghost use Rattle.std.specs.Prelude.{◌≡◌};

use keep_change::Change;
use keep_journal::Told;
use std::fmt;

/// The answer to a request that was accepted: the number of its change, and of its event.
#[derive(Clone, Copy)]
pub struct Accepted(pub Told);

impl fmt::Display for Accepted {
    ghost use Rattle.std.specs.Prelude.{Some};
    ghost use Rattle.keep_replies.specs.Reply.{told_text};

    ghost output = { λ accepted. Some (told_text accepted.0) };

    fn fmt<W: fmt::Write>(&self, f: &mut fmt::Formatter<W>) -> fmt::Result {
        let Told { number, at } = self.0;
        write!(f, "ok {number} at {at}")
    }
}

/// How many facets of each sort a change writes.
#[derive(Clone, Copy)]
pub struct Sizes {
    adds: usize,
    drops: usize,
    sets: usize,
    clears: usize,
}

impl Sizes {
    ghost use Rattle.keep_replies.specs.Reply.{sizes_of};

    pub fn of(change: &Change) -> Sizes
        ensures { result ≡ sizes_of change.now }
    {
        Sizes {
            adds: change.adds.as_slice().len(),
            drops: change.drops.as_slice().len(),
            sets: change.sets.as_slice().len(),
            clears: change.clears.as_slice().len(),
        }
    }
}

impl fmt::Display for Sizes {
    ghost use Rattle.std.specs.Prelude.{Some};
    ghost use Rattle.keep_replies.specs.Reply.{sizes_text};

    ghost output = { λ sizes. Some (sizes_text sizes) };

    fn fmt<W: fmt::Write>(&self, f: &mut fmt::Formatter<W>) -> fmt::Result {
        let Sizes {
            adds,
            drops,
            sets,
            clears,
        } = self;
        write!(f, "+{adds} -{drops} *{sets} ~{clears}")
    }
}

/// The answer to a change that was committed, and how much it writes.
#[derive(Clone, Copy)]
pub struct Committed {
    pub told: Told,
    pub sizes: Sizes,
}

impl fmt::Display for Committed {
    ghost use Rattle.std.specs.Prelude.{Some};
    ghost use Rattle.keep_replies.specs.Reply.{committed_text};

    ghost output = { λ committed. Some (committed_text committed) };

    fn fmt<W: fmt::Write>(&self, f: &mut fmt::Formatter<W>) -> fmt::Result {
        write!(f, "{} {}", Accepted(self.told), self.sizes)
    }
}

/// The answer to changes that were taken back: their numbers, in this order.
#[derive(Clone, Copy)]
pub struct TakenNumbers<'a>(pub &'a [u64]);

impl fmt::Display for TakenNumbers<'_> {
    ghost use Rattle.std.specs.Prelude.{Some};
    ghost use Rattle.keep_replies.specs.Reply.{taken_text};

    ghost output = { λ taken. Some (taken_text taken.0.now) };

    fn fmt<W: fmt::Write>(&self, f: &mut fmt::Formatter<W>) -> fmt::Result {
        f.write_str("taken")?;
        for number in self.0 {
            write!(f, " {number}")?;
        }
        Ok(())
    }
}

/// The answer to what was refused, for this reason.
#[derive(Clone, Copy)]
pub struct Refused<E>(pub E);

impl<E: fmt::Display> fmt::Display for Refused<E> {
    ghost use Rattle.std.specs.Option.{option_map};
    ghost use Rattle.keep_replies.specs.Reply.{no_text};

    ghost output = { λ refused. option_map no_text (E.output refused.0) };

    fn fmt<W: fmt::Write>(&self, f: &mut fmt::Formatter<W>) -> fmt::Result {
        write!(f, "no {}", self.0)
    }
}

/// What is said of the line of this number where it isn't one of the language.
#[derive(Clone, Copy)]
pub struct BadLine(pub u64);

impl fmt::Display for BadLine {
    ghost use Rattle.std.specs.Prelude.{Some};
    ghost use Rattle.keep_replies.specs.Reply.{bad_line_text};

    ghost output = { λ bad. Some (bad_line_text bad.0) };

    fn fmt<W: fmt::Write>(&self, f: &mut fmt::Formatter<W>) -> fmt::Result {
        write!(f, "bad line {}", self.0)
    }
}
