use crate::{Naming, Page};
use crossbeam_utils::rule::{Outcome, Protocol};
use std::marker::PhantomData;

/// The rule of what is published: it is a page of the desk's list of events, whatever readers know.
pub struct Published<B: Naming> {
    of: PhantomData<B>,
}

impl<B: Naming> Protocol<Page, ()> for Published<B> {
    ghost use Rattle.keep_register.specs.Pages.{IsPage};

    ghost holds = { λ page _. IsPage B.book B.hooks.vetoes B.opening page };

    ghost first = { tt };
}

/// What each step tells: the page that is shown then is one of that list.
pub struct Shows<B: Naming> {
    of: PhantomData<B>,
}

impl<B: Naming> Outcome<Page, ()> for Shows<B> {
    ghost use Rattle.keep_register.specs.Pages.{IsPage};

    ghost then = { λ _ _ page _. IsPage B.book B.hooks.vetoes B.opening page };
}
