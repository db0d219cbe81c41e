ghost use Rattle.std.specs.Prelude.{◌≡◌, ◌^◌, ◌<◌, ◌↔◌, [], ◌∷◌, ◌++◌, drop, fold, length, IfOk, IsTrue, OnErr, OnOk};
ghost use Rattle.keep_journal.specs.declared.event.Event as the_event;
ghost use Rattle.keep_register.specs.Pages.{IsPage, events_on, page_after};
ghost use Rattle.keep_desk.specs.Held.{HasStep, Waits};

use core::mem::replace_with;
use keep_register::{Keeper, Naming, Page, Published, Register, Shows, Step};
use left_right::reader::Reader;
use left_right::writer::Writer;
use std::alloc::{AllocError, Global};
use std::marker::Model;
use std::sync::Wait;

/// The end from which pages are published, with the handle that waits for readers.
pub struct Press<B: Naming, R: Wait + Drop> {
    writer: Writer<Page, Step, (), Published<B>>,
    rt: R,
}

impl<B: Naming, R: Wait + Drop> Model for Press<B, R> {
    ghost use Rattle.std.specs.Prelude.{drop};
    ghost use Rattle.std.specs.Coded.{codes};
    ghost use Rattle.keep_repo.specs.Repository.{coded_repository};
    ghost use Rattle.keep_register.specs.Pages.{IsPage};
    ghost use Rattle.keep_desk.specs.Pressed.{Pressed};

    ghost Value = { Pressed };

    ghost coded = { Prim.hlevel (codes, coded_repository) };

    ghost view = { λ p. record {
      page = p.writer.desk.shown.value;
      pending = drop p.writer.behind p.writer.log.items;
    } };

    ghost invariant = { λ p. IsPage B.book B.hooks.vetoes B.opening p.writer.desk.shown.value };
}

impl<B: Naming, R: Wait + Drop> Press<B, R> {
    /// The two are copies of one page. There is room for so many readers.
    pub(crate) fn new(
        alloc: Global,
        rt: R,
        first: Page,
        second: Page,
        readers: usize,
    ) -> Result<Press<B, R>, AllocError>
        requires alike { first ≡ second }
        requires page { IsPage B.book B.hooks.vetoes B.opening first }
        requires readers { (0 < readers) × (readers < 2 ^ 32) }
        ensures { IfOk result (λ press. press ≡ record { page = first; pending = [] }) }
    {
        let writer = Writer::new(alloc, first, second, readers)?;
        Ok(Press { writer, rt })
    }

    /// What is published.
    pub(crate) fn page(&self) -> &Page
        ensures page { result.now ≡ self.now.page }
        ensures list { IsPage B.book B.hooks.vetoes B.opening self.now.page }
    {
        self.writer.published()
    }

    /// Whether a step waits to be published.
    pub(crate) fn is_waiting(&self) -> bool
        ensures { IsTrue result ↔ (0 < length self.now.pending) }
    {
        self.writer.has_pending_operations()
    }

    /// Takes a step that is to be published.
    pub(crate) fn append(&mut self, step: Step) -> Result<(), AllocError>
        ensures page { self.new.page ≡ self.old.page }
        ensures ok { OnOk result (self.new.pending ≡ self.old.pending ++ step ∷ []) }
        ensures err { OnErr result (self.new.pending ≡ self.old.pending) }
    {
        match self.writer.append(step) {
            Ok(()) => Ok(()),
            Err(_step) => Err(AllocError),
        }
    }

    /// Publishes the steps that wait. It waits for those who still read the page before the last one.
    pub(crate) fn publish(&mut self) -> Result<(), AllocError>
        requires { IsPage B.book B.hooks.vetoes B.opening (fold page_after self.old.page self.old.pending) }
        ensures page { OnOk result (self.new.page ≡ fold page_after self.old.page self.old.pending) }
        ensures ok { OnOk result (self.new.pending ≡ []) }
        ensures err { OnErr result (self.new ≡ self.old) }
    {
        replace_with(&mut self.writer, &self.rt, published::<B, R>)
    }

    /// One more reader.
    pub(crate) fn reader(&self) -> Result<Reader<Page, (), Published<B>>, AllocError> {
        self.writer.factory().reader()
    }
}

/// The writer once the steps that wait are published, or as it was. A function of its own says so in few words, where
/// what follows of a closure has each page with all its parts.
fn published<B: Naming, R: Wait>(
    writer: Writer<Page, Step, (), Published<B>>,
    rt: &R,
) -> (Writer<Page, Step, (), Published<B>>, Result<(), AllocError>)
    requires shown { IsPage B.book B.hooks.vetoes B.opening writer.desk.shown.value }
    requires next { IsPage B.book B.hooks.vetoes B.opening (fold page_after writer.desk.shown.value (drop writer.behind writer.log.items)) }
    ensures shows { IsPage B.book B.hooks.vetoes B.opening result.0.desk.shown.value }
    ensures ok { OnOk result.1 ((result.0.desk.shown.value ≡ fold page_after writer.desk.shown.value (drop writer.behind writer.log.items))
        × (drop result.0.behind result.0.log.items ≡ [])) }
    ensures err { OnErr result.1 ((result.0.desk.shown.value ≡ writer.desk.shown.value)
        × (drop result.0.behind result.0.log.items ≡ drop writer.behind writer.log.items)) }
{
    writer.publish_as::<Shows<B>, R>(rt)
}

impl<B: Naming, R: Wait + Drop> Drop for Press<B, R> {
    fn drop(self) {
        let Self { writer, rt } = self;
        drop(writer.take(&rt));
    }
}

/// Sees to it that the step of the last event waits to be published.
pub(crate) fn hand_in<B: Naming, R: Wait + Drop, K: Keeper>(
    register: &Register<B, K>,
    press: &mut Press<B, R>,
) -> Result<(), AllocError>
    ensures page { press.new.page ≡ press.old.page }
    ensures ready { (event : the_event.Event) → events_on press.old.page ++ event ∷ [] ≡ register.now.events
        → Waits B.book register.now.events event press.old.pending
        → OnOk result (HasStep B.book register.now.events event press.new.pending) }
    ensures same { OnErr result (press.new.pending ≡ press.old.pending) }
{
    if press.is_waiting() {
        return Ok(());
    }
    let step = register.last_step()?;
    press.append(step)?;
    Ok(())
}
