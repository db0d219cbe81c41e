ghost use Rattle.std.specs.Prelude.{◌≡◌, ◌↔◌, ◌<◌, IsTrue, OnErr, OnOk};
ghost use Rattle.keep_journal.specs.History.{final_number};
ghost use Rattle.keep_journal.specs.Opening.{AreWellFormed};
ghost use Rattle.keep_ledger.specs.Entering.{CanTurnAgain, CanTurnFor, live_after, live_again};
ghost use Rattle.keep_pages.specs.Following.{IsFormedEvent};

use keep_catalog::LiveRepo;
use keep_change::Turn;
use keep_journal::{Event, EventKind, History};
use keep_repo::Repo;
use std::alloc::AllocError;

/// Whether the change that the event is about, which isn't final, can be turned in the repository.
pub(crate) fn can_turn(repo: &Repo, history: &History, event: &Event) -> bool
    requires unfinal { final_number history.now.journal < event.now.number }
    requires formed { AreWellFormed history.now.journal }
    requires own { IsFormedEvent event.now }
    ensures { IsTrue result ↔ CanTurnFor history.now.journal event.now repo.now }
{
    match &event.kind {
        EventKind::Commit(change) => change.as_change().is_ready(Turn::Make, repo),
        EventKind::Undo => can_turn_again(repo, history, event.number, Turn::TakeBack),
        EventKind::Redo => can_turn_again(repo, history, event.number, Turn::Make),
        EventKind::Empty(_) => true,
    }
}

fn can_turn_again(repo: &Repo, history: &History, n: u64, turn: Turn) -> bool
    requires unfinal { final_number history.now.journal < n }
    requires formed { AreWellFormed history.now.journal }
    ensures { IsTrue result ↔ CanTurnAgain history.now.journal n turn repo.now }
{
    match history.change(n) {
        Some(change) => change.is_ready(turn, repo),
        None => true,
    }
}

/// Turns the change that the event is about. Where memory runs out for it, the repository is as it was.
pub(crate) fn turn(live: &mut LiveRepo, history: &History, event: &Event) -> Result<(), AllocError>
    requires unfinal { final_number history.now.journal < event.now.number }
    requires can { CanTurnFor history.now.journal event.now live.old }
    ensures made { OnOk result (live.new ≡ live_after history.now.journal event.now live.old) }
    ensures same { OnErr result (live.new ≡ live.old) }
{
    match &event.kind {
        EventKind::Commit(change) => live.apply(change.as_change()),
        EventKind::Undo => turn_again(live, history, event.number, Turn::TakeBack),
        EventKind::Redo => turn_again(live, history, event.number, Turn::Make),
        EventKind::Empty(_) => Ok(()),
    }
}

/// Turns change n of the history, if there is one.
fn turn_again(live: &mut LiveRepo, history: &History, n: u64, turn: Turn) -> Result<(), AllocError>
    requires unfinal { final_number history.now.journal < n }
    requires can { CanTurnAgain history.now.journal n turn live.old }
    ensures made { OnOk result (live.new ≡ live_again history.now.journal n turn live.old) }
    ensures same { OnErr result (live.new ≡ live.old) }
{
    let Some(change) = history.change(n) else {
        return Ok(());
    };
    live.begin(turn, change)?;
    live.complete(turn, change);
    Ok(())
}
