ghost use Rattle.std.specs.Prelude.{◌≡◌, ◌<◌, ◌≤◌, [], length, IfOk, OnOk};
ghost use Rattle.keep_journal.specs.Opening.{IsOpen};
ghost use Rattle.keep_chronicle.specs.Chronicle.{events_of};
ghost use Rattle.keep_pages.specs.Histories.{length_at, IsHistory};
ghost use Rattle.keep_pages.specs.Sheet.{sheet_of};
ghost use Rattle.keep_register.specs.Pages.{events_on};
ghost use Rattle.keep_register.specs.Known.{AreFresh};

use crate::press::Press;
use keep_chronicle::Sight;
use keep_pages::Sheet;
use keep_register::{Keeper, Naming, Page, Pass};
use std::alloc::{AllocError, Global};
use std::sync::Wait;
use std::sync::ledger::Share;

/// What passes can't be made for want of.
#[derive(Drop)]
pub(crate) enum Wanting {
    Memory,
    /// A place for a reader.
    Place,
}

/// The press over two copies of what the keeper says.
pub(crate) fn press_of<B: Naming, R: Wait + Drop, K: Keeper>(
    alloc: Global,
    rt: R,
    keeper: &K,
    sight: &Sight,
    readers: usize,
) -> Result<Press<B, R>, AllocError>
    requires book { sight.now.book ≡ B.book }
    requires none { events_of sight.now.log ≡ [] }
    requires opening { K.ledger keeper.now ≡ B.opening }
    requires readers { (0 < readers) × (readers ≤ 64) }
    ensures page { IfOk result (λ press. events_on press.page ≡ []) }
    ensures pending { IfOk result (λ press. press.pending ≡ []) }
{
    let first = page_of(alloc, keeper, sight)?;
    let second = page_of(alloc, keeper, sight)?;
    Press::new(alloc, rt, first, second, readers)
}

fn page_of<K: Keeper>(alloc: Global, keeper: &K, sight: &Sight) -> Result<Page, AllocError>
    ensures page { IfOk result (λ page. page
        ≡ record { book = sight.now.book; log = sight.now.log; sheet = sheet_of (K.ledger keeper.now) }) }
    ensures open { let b = K.ledger keeper.now in IsOpen b.opening b.events b.live }
{
    let sheet = Sheet::of(alloc, keeper.history(), keeper.live())?;
    Ok(Page::new(sheet, sight.again()))
}

/// So many passes, each with one part of the counts.
pub(crate) fn passes_of<B: Naming, R: Wait + Drop>(
    alloc: Global,
    press: &Press<B, R>,
    sight: &Sight,
    at: u64,
    rest: &mut Share<B>,
    count: usize,
) -> Result<Vec<Pass<B>>, Wanting>
    requires book { sight.now.book ≡ B.book }
    requires none { events_of sight.now.log ≡ [] }
    requires history { IsHistory B.hooks.vetoes B.opening [] }
    requires at { at ≡ length_at B.opening [] }
    requires share { (rest.old.parts ≡ count) × (rest.old.amount ≡ 0) }
    ensures long { IfOk result (λ passes. length passes.items ≡ count) }
    ensures fresh { IfOk result (λ passes. AreFresh passes.items) }
    ensures rest { OnOk result ((rest.new.parts ≡ 0) × (rest.new.amount ≡ 0)) }
{
    let mut passes = Vec::new(alloc);
    for _ in 0..count {
        let Ok(reader) = press.reader() else {
            return Err(Wanting::Place);
        };
        let share = rest.split_off(1, 0);
        if let Err(_) = passes.push(Pass::new(reader, sight.again(), at, share)) {
            return Err(Wanting::Memory);
        }
    }
    Ok(passes)
}
