ghost use Rattle.std.specs.Prelude.{◌≡◌};
ghost use Rattle.keep_pages.specs.Histories.{shown_at};
ghost use Rattle.keep_register.specs.Pages.{IsPage, events_on};

use crate::{Naming, Page};
use keep_view::View;

/// What a page of this desk's list shows: the repository just after the events that are on it.
pub fn shown_on<B: Naming>(page: &Page) -> View<'_>
    requires { IsPage B.book B.hooks.vetoes B.opening page.now }
    ensures { result ≡ shown_at B.opening (events_on page.entry.now) }
{
    page.view()
}
