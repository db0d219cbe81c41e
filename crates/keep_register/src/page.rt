ghost use Rattle.std.specs.Prelude.{◌≡◌, ◌+◌, ℕ, IsTrue, length};
ghost use mathlib.Core.List.{IsPrefix};
ghost use Rattle.keep_repo.specs.Repository.{Repository};
ghost use Rattle.keep_journal.specs.History.{length_of};
ghost use Rattle.keep_journal.specs.Opening.{IsOpen};
ghost use Rattle.keep_view.specs.Shown.{shown_of};
ghost use Rattle.keep_chronicle.specs.Chronicle.{events_of};
ghost use Rattle.keep_pages.specs.Sheet.{IsLaid};
ghost use Rattle.keep_register.specs.Pages.{page_after};

use crate::step::Step;
use keep_chronicle::Sight;
use keep_pages::Sheet;
use keep_view::View;
use left_right::Absorb;
use std::alloc::AllocError;
use std::marker::Model;

/// What is published: a copy of the repository under its history, and the token of the list of the events since the
/// desk was opened.
#[derive(Drop)]
pub struct Page {
    sheet: Sheet,
    sight: Sight,
}

impl Model for Page {
    ghost use Rattle.std.specs.Coded.{codes};
    ghost use Rattle.keep_repo.specs.Repository.{coded_repository};
    ghost use Rattle.keep_register.specs.Pages.{PageState};

    ghost Value = { PageState };

    ghost coded = { Prim.hlevel (codes, coded_repository) };

    ghost view = { λ p. record { book = p.sight.book; log = p.sight.log; sheet = p.sheet } };
}

impl Page {
    pub fn new(sheet: Sheet, sight: Sight) -> Page
        ensures { result ≡ record { book = sight.book; log = sight.log; sheet = sheet } }
    {
        Page { sheet, sight }
    }

    /// The token of its list.
    pub fn sight(&self) -> Sight
        ensures book { result.book ≡ self.now.book }
        ensures log { result.log ≡ self.now.log }
    {
        self.sight.again()
    }

    /// The number of the last event, 0 where there is none.
    pub fn length(&self) -> u64
        ensures { result ≡ length_of self.now.sheet.events }
    {
        self.sheet.length()
    }

    /// The repository under its history, as planners and readers are shown it. It takes no memory.
    pub fn view(&self) -> View<'_>
        requires { IsLaid self.now.sheet }
        ensures { let s = self.entry.now.sheet in (opening : Repository) → IsOpen opening s.events s.live
            → result ≡ shown_of opening s.events s.live }
    {
        self.sheet.view()
    }

    /// Whether the page's list goes on where the token's ends, where that of so many events in all stands.
    pub fn goes_on(&self, sight: &Sight, total: u64) -> bool
        requires same { sight.now.book ≡ self.now.book }
        requires counted { (before : ℕ) × (length_of self.now.sheet.events ≡ before + length (events_of self.now.log))
            × (total ≡ before + length (events_of sight.now.log)) }
        ensures { IsTrue result → IsPrefix (events_of sight.now.log) (events_of self.now.log) }
    {
        let mut both = self.sight.again();
        both.learn(sight);
        total <= self.length()
    }
}

impl Absorb<Step> for Page {
    ghost use Rattle.keep_register.specs.Pages.{page_after};

    type State = Page;

    ghost state = { λ p. p };

    ghost applied = { page_after };

    /// The page can follow each event that the book accepts: it is refused for want of memory alone.
    fn absorb_first(&mut self, step: &Step, _other: &Page) -> Result<(), AllocError> {
        if !self.sheet.can_follow(&step.event) {
            return Err(AllocError);
        }
        self.sheet.follow(&step.event)?;
        self.sight = step.sight.again();
        Ok(())
    }
}
