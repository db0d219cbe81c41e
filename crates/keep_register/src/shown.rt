ghost use Rattle.std.specs.Prelude.{◌≡◌, false, true, IfOk};
ghost use mathlib.Core.List.{IsPrefix};
ghost use Rattle.keep_pages.specs.Histories.{shown_at, IsLegal};

use crate::Naming;
use crate::pass::Pass;
use keep_view::View;

/// No page can be entered, as where the end is gone from which pages are published. A desk has that end as long as it is
/// there.
#[derive(Clone, Copy)]
pub struct NoPage;

/// A view that a pass takes. The pass stays with it as long as it lives.
pub struct Shown<'a, B: Naming> {
    pub(crate) pass: &'a mut Pass<B>,
}

impl<'a, B: Naming> Shown<'a, B> {
    /// What is published now. It takes no lock, and waits for nobody.
    pub fn of(pass: &'a mut Pass<B>) -> Result<Shown<'a, B>, NoPage>
        ensures same { IfOk result (λ shown. shown.pass.ghost_name ≡ pass.entry.ghost_name) }
        ensures reads { IfOk result (λ shown. shown.pass.now.shown ≡ true) }
        ensures begins { IfOk result (λ shown. IsPrefix pass.old.seen shown.pass.now.seen) }
        ensures legal { IfOk result (λ shown. IsLegal B.hooks.vetoes B.opening shown.pass.now.seen) }
        ensures counted { IfOk result (λ shown. shown.pass.now.counted ≡ pass.old.counted) }
    {
        if !pass.enter() {
            return Err(NoPage);
        }
        Ok(Shown { pass })
    }

    /// The repository at the moment that the pass has come to.
    pub fn get(&self) -> View<'_>
        requires { self.now.pass.now.shown ≡ true }
        ensures { result ≡ shown_at B.opening self.entry.now.pass.now.seen }
    {
        self.pass.view()
    }
}

impl<'a, B: Naming> Drop for Shown<'a, B> {
    fn drop(self)
        ensures { self.exit.0.now ≡ record self.entry.pass.now { shown = false } }
    {
        let Shown { pass } = self;
        pass.leave();
    }
}
