ghost use Rattle.std.specs.Prelude.{◌≡◌, [], ◌∷◌, ◌++◌, IfSome};
ghost use mathlib.Core.List.{IsPrefix};
ghost use Rattle.logbook.specs.Pages.{may_make, may_write};
ghost use Rattle.keep_chronicle.specs.Chronicle.{events_of, head_of, last_events};

use crate::note::{Begin, Cut, Law, Line, Look, Note, Nothing, Sight, Write};
use keep_journal::History;
use logbook::{Offer, Pen, Seen, Start, Word};
use std::marker::{Brand, Model, PhantomData};

/// Which list of events it is. Each call of a program picks it.
pub trait Chronicled {
    ghost use Rattle.logbook.specs.Pages.{Book};

    ghost book: { Book };
}

impl Chronicled for Brand {
    ghost book = { record { number = 0; log_name = 0; cells_name = 0 } };
}

/// A chronicle without events, which has no name yet.
#[derive(Drop)]
pub struct Opened {
    head: Word<Note, u64, Law>,
    pub sight: Sight,
    pen: Pen,
    ghost head_is: { head ≡ head_of sight.book },
    ghost pen_is: { (pen.book ≡ sight.book) × (pen.nib.right ≡ may_write) },
    ghost begins: { sight.log ≡ record { events = []; turn = pen.nib.key } ∷ [] },
}

impl Opened {
    /// None where another step wrote first. Nobody else can have the book yet, so that never is.
    pub fn new() -> Option<Opened> {
        let (mut sight, mut first, _second) = Seen::open(Start::alone(), 0, 0);
        let head = Word::tracked(0, &mut first);
        let mut offer: Offer<Note, u64, Law, Nothing> = sight.plain::<Nothing, (), Begin>(&());
        let mut pen = sight.no_pen();
        let found = head.compare_exchange::<Begin, Nothing>(0, 1, &mut sight, &mut offer, &mut pen);
        if found != 0 {
            return None;
        }
        spend(&mut pen);
        Some(Opened { head, sight, pen })
    }

    /// The chronicle under a name.
    pub fn named<B: Chronicled>(self) -> Chronicle<B>
        requires { self.sight.book ≡ B.book }
        ensures { result ≡ [] }
    {
        let Opened { head, sight, pen } = self;
        Chronicle {
            head,
            sight,
            pen,
            of: PhantomData,
        }
    }
}

/// A list of events, with the right to write the next one. There is one for each list, so who has it knows the whole.
///
/// The events are told for clauses alone: they take no memory.
#[derive(Drop)]
pub struct Chronicle<B: Chronicled> {
    head: Word<Note, u64, Law>,
    sight: Sight,
    pen: Pen,
    of: PhantomData<B>,
}

impl<B: Chronicled> Model for Chronicle<B> {
    ghost use Rattle.std.specs.Prelude.{◌≡◌, List};
    ghost use Rattle.logbook.specs.Pages.{may_write};
    ghost use Rattle.keep_journal.specs.declared.event.Event.{Event};

    ghost Value = { List Event };

    ghost use Rattle.keep_chronicle.specs.Chronicle.{events_of, head_of};
    ghost use Rattle.keep_chronicle.specs.Rules.{EndsAt};

    ghost view = { λ c. events_of c.sight.log };

    ghost invariant = { λ c. (c.head ≡ head_of B.book)
        × (c.sight.book ≡ B.book)
        × (c.pen.book ≡ B.book)
        × (c.pen.nib.right ≡ may_write)
        × EndsAt c.sight.log c.pen.nib.key };
}

impl<B: Chronicled> Chronicle<B> {
    /// That the list has come so far.
    pub fn sight(&self) -> Sight
        ensures book { result.book ≡ B.book }
        ensures all { events_of result.log ≡ self.now }
    {
        self.sight.again()
    }

    /// Writes the last event of the history.
    pub fn write(&mut self, history: &History)
        ensures { self.new ≡ self.old ++ last_events history.now.journal }
    {
        let next = cut(&self.head, &self.sight);
        let line = Line {
            history,
            next: &next,
        };
        let mut offer: Offer<Note, u64, Law, Nothing> = self
            .sight
            .plain::<Nothing, Line, Write>(&line);
        self.head
            .compare_exchange::<Write, Nothing>(1, 1, &mut self.sight, &mut offer, &mut self.pen);
        self.pen = next;
    }

    /// What any token has seen of the list is a beginning of it.
    pub fn covers(&mut self, seen: &Sight)
        requires { seen.now.book ≡ B.book }
        ensures same { self.new ≡ self.old }
        ensures begins { IsPrefix (events_of seen.now.log) self.new }
    {
        let mut both = self.sight.again();
        both.learn(seen);
        let mut offer: Offer<Note, u64, Law, Nothing> = both.plain::<Nothing, Sight, Look>(
            &self.sight,
        );
        self.head
            .compare_exchange::<Look, Nothing>(1, 1, &mut both, &mut offer, &mut self.pen);
    }
}

/// A new pen.
fn cut(head: &Word<Note, u64, Law>, sight: &Sight) -> Pen
    requires { head.now ≡ head_of sight.now.book }
    ensures book { result.book ≡ sight.now.book }
    ensures right { result.nib.right ≡ may_write }
{
    let mut seen = sight.again();
    let mut offer: Offer<Note, u64, Law, Nothing> = seen.plain::<Nothing, (), Cut>(&());
    let mut pen = seen.no_pen();
    head.compare_exchange::<Cut, Nothing>(1, 1, &mut seen, &mut offer, &mut pen);
    spend(&mut pen);
    pen
}

/// Makes the word that the pen is the right to make, and lets it go: what is left is the right to write it.
fn spend(pen: &mut Pen)
    requires { pen.old.nib.right ≡ may_make }
    ensures book { pen.new.book ≡ pen.old.book }
    ensures key { pen.new.nib.key ≡ pen.old.nib.key }
    ensures right { pen.new.nib.right ≡ may_write }
{
    let _word: Word<Note, u64, Law> = Word::tracked(0, pen);
}
