//! What is written in a chronicle, by which rule, and what each step tells.
use keep_journal::{Event, History};
use logbook::{Gain, Pen, Plain, Play, Rule, Seen};
use std::collections::LinkedList;

/// What one step writes: events, and the key of the cell whose pen may write next. No value of it is made.
#[derive(Drop)]
pub struct Note {
    pub events: LinkedList<Event>,
    pub turn: u64,
}

/// The rule of a chronicle: only the pen that the last note names can write the next.
pub struct Law;

impl Rule<Note, u64> for Law {
    ghost use Rattle.std.specs.Prelude.{[]};
    ghost use base.Fml.{ftrue};
    ghost use Rattle.keep_chronicle.specs.Rules.{IsKept};

    ghost holds = { λ cells log. IsKept cells log };

    ghost first = { [] };

    ghost hinted = { λ n log. Unit {0} };

    ghost shows = { λ log. [] };

    ghost keeps = { λ names log. ftrue };

    ghost moves = { λ ask before after answer. Unit {0} };
}

/// That a list of events has come so far. It takes no memory, can be copied, lent and sent.
pub type Sight = Seen<Note, u64, Law>;

/// Callers trade nothing.
pub(crate) struct Nothing;

impl Gain<Note, u64> for Nothing {
    ghost use base.Fml.{ftrue};

    ghost after = { λ names about answer. ftrue };
}

/// The step that begins a chronicle: it writes a note without events, and makes the first pen.
pub(crate) struct Begin;

impl Play<Note, u64> for Begin {
    ghost use Rattle.keep_chronicle.specs.Rules.{Begins};

    ghost then = { Begins };
}

impl Plain<(), Note, u64> for Begin {
    ghost use Rattle.std.specs.Prelude.{[], None};

    ghost ask = { λ _. record { events = []; turn = 0 } };

    ghost state = { λ _. None };
}

/// The step that makes a pen.
pub(crate) struct Cut;

impl Play<Note, u64> for Cut {
    ghost use Rattle.keep_chronicle.specs.Rules.{Cuts};

    ghost then = { Cuts };
}

impl Plain<(), Note, u64> for Cut {
    ghost use Rattle.std.specs.Prelude.{[], None};

    ghost ask = { λ _. record { events = []; turn = 0 } };

    ghost state = { λ _. None };
}

/// The last event of a history, and the pen that may write after it.
#[derive(Drop)]
pub(crate) struct Line<'a> {
    pub history: &'a History,
    pub next: &'a Pen,
}

/// The step that writes a line.
pub(crate) struct Write;

impl Play<Note, u64> for Write {
    ghost use Rattle.keep_chronicle.specs.Rules.{Writes};

    ghost then = { Writes };
}

impl<'a> Plain<Line<'a>, Note, u64> for Write {
    ghost use Rattle.std.specs.Prelude.{None};
    ghost use Rattle.keep_chronicle.specs.Chronicle.{last_events};

    ghost ask = { λ line. record {
      events = last_events line.history.now.journal;
      turn = line.next.now.nib.key;
    } };

    ghost state = { λ _. None };
}

/// The step that finds that nothing was written since.
pub(crate) struct Look;

impl Play<Note, u64> for Look {
    ghost use Rattle.keep_chronicle.specs.Rules.{Looks};

    ghost then = { Looks };
}

impl Plain<Sight, Note, u64> for Look {
    ghost use Rattle.std.specs.Prelude.{None};
    ghost use Rattle.keep_chronicle.specs.Chronicle.{events_of};

    ghost ask = { λ sight. record { events = events_of sight.log; turn = 0 } };

    ghost state = { λ _. None };
}
