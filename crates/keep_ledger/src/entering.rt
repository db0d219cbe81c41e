ghost use Rattle.std.specs.Prelude.{◌≡◌, ◌<◌, IfErr, OnErr, OnOk, length, true};
ghost use Rattle.keep_repo.specs.Repository.{held};
ghost use Rattle.keep_change.specs.Change.{is_ready};
ghost use Rattle.keep_change.specs.Form.{HasNoFacetTwice};
ghost use Rattle.keep_change.specs.Halves.{turned};
ghost use Rattle.keep_change.specs.Result.{result_of};
ghost use Rattle.keep_journal.specs.History.{Fits, final_number};
ghost use Rattle.keep_journal.specs.Journal.{posted};
ghost use Rattle.keep_entries.specs.Spelling.{entry_text};
ghost use Rattle.keep_moves.specs.Course.{looks_of};
ghost use Rattle.keep_touch.specs.Mentions.{AreNoted, NoteTheSame, NotesOneMore};
ghost use Rattle.keep_ledger.specs.Entering.{CanTurnAgain, CanTurnFor, FailsWithin, Stops, live_after, live_again, looks_again, written_on};

use crate::preparing::Prepared;
use crate::reply::Refusal;
use keep_catalog::LiveRepo;
use keep_change::{Change, StoredFile, Turn};
use keep_journal::{EventKind, History};
use keep_moves::look;
use keep_shelf::{Fault, Key, Shelf};
use keep_touch::{Touch, notes_follow_events};

/// Brings an event in: changes the live repository, and writes the entry in the midst of that, where the change can
/// still be taken back. A commit's change is noted. Where there is no memory for it, or a call fails, all is as it was.
pub(crate) fn enter<S: Shelf>(
    history: &History,
    live: &mut LiveRepo,
    touch: &mut Touch,
    shelf: &mut S,
    prepared: &Prepared,
) -> Result<(), Refusal>
    requires can { CanTurnFor history.now.journal prepared.now.entry.event live.old }
    requires fits { Fits history.now.journal prepared.now.entry.event }
    requires noted { AreNoted touch.old history.now.journal }
    requires text { prepared.now.text ≡ entry_text prepared.now.entry.event }
    ensures live { OnOk result (live.new ≡ live_after history.now.journal prepared.now.entry.event live.old) }
    ensures noted { let entry = prepared.now.entry in
        OnOk result (AreNoted touch.new (posted history.now.journal entry.at entry.event)) }
    ensures written { let entry = prepared.now.entry in
        OnOk result (S.shelved shelf.new
        ≡ written_on (looks_of history.now.journal entry.event) entry.at entry.event (S.shelved shelf.old)) }
    ensures same { OnErr result (live.new ≡ live.old) }
    ensures same_notes { OnErr result (NoteTheSame touch.old touch.new) }
    ensures stopped { let most = looks_of history.now.journal prepared.now.entry.event in
        IfErr result (λ stop. Stops stop most (S.shelved shelf.old) (S.shelved shelf.new)) }
{
    // Whatever the event, the notes are those of the commits again.
    notes_follow_events();
    match &prepared.entry.as_entry().event.kind {
        EventKind::Commit(change) => enter_noted(live, touch, shelf, change.as_change(), prepared),
        EventKind::Undo => enter_again(history, live, shelf, Turn::TakeBack, prepared),
        EventKind::Redo => enter_again(history, live, shelf, Turn::Make, prepared),
        EventKind::Empty(_) => Ok(look_and_write(shelf, &[], prepared)?),
    }
}

/// Brings a commit of this change in, and notes it.
fn enter_noted<S: Shelf>(
    live: &mut LiveRepo,
    touch: &mut Touch,
    shelf: &mut S,
    change: &Change,
    prepared: &Prepared,
) -> Result<(), Refusal>
    requires once { HasNoFacetTwice change.now }
    requires ready { is_ready (held live.old) change.now ≡ true }
    requires text { prepared.now.text ≡ entry_text prepared.now.entry.event }
    ensures live { OnOk result (live.new ≡ result_of change.now live.old) }
    ensures noted { let number = prepared.now.entry.event.number in
        OnOk result (NotesOneMore touch.old touch.new (record { number = number; change = change.now })) }
    ensures written { let entry = prepared.now.entry in
        OnOk result (S.shelved shelf.new ≡ written_on 0 entry.at entry.event (S.shelved shelf.old)) }
    ensures same { OnErr result (live.new ≡ live.old) }
    ensures same_notes { OnErr result (NoteTheSame touch.old touch.new) }
    ensures stopped { IfErr result (λ stop. Stops stop 0 (S.shelved shelf.old) (S.shelved shelf.new)) }
{
    touch.note(prepared.entry.as_entry().event.number, change)?;
    let turning = Turning {
        turn: Turn::Make,
        change,
        returning: &[],
    };
    match turn_live(live, shelf, &turning, prepared) {
        Ok(()) => Ok(()),
        Err(refusal) => {
            touch.forget(change);
            Err(refusal)
        }
    }
}

/// Brings an event in that turns a change of the history again, after a look at each file that comes back.
fn enter_again<S: Shelf>(
    history: &History,
    live: &mut LiveRepo,
    shelf: &mut S,
    turn: Turn,
    prepared: &Prepared,
) -> Result<(), Refusal>
    requires can { CanTurnAgain history.now.journal prepared.now.entry.event.number turn live.old }
    requires unfinal { final_number history.now.journal < prepared.now.entry.event.number }
    requires text { prepared.now.text ≡ entry_text prepared.now.entry.event }
    ensures live { let number = prepared.now.entry.event.number in
        OnOk result (live.new ≡ live_again history.now.journal number turn live.old) }
    ensures written { let entry = prepared.now.entry in
        let looks = looks_again history.now.journal entry.event.number turn in
        OnOk result (S.shelved shelf.new ≡ written_on looks entry.at entry.event (S.shelved shelf.old)) }
    ensures same { OnErr result (live.new ≡ live.old) }
    ensures stopped { let most = looks_again history.now.journal prepared.now.entry.event.number turn in
        IfErr result (λ stop. Stops stop most (S.shelved shelf.old) (S.shelved shelf.new)) }
{
    match history.change(prepared.entry.as_entry().event.number) {
        Some(change) => {
            let turning = Turning {
                turn,
                change,
                returning: change.coming_files(turn),
            };
            turn_live(live, shelf, &turning, prepared)
        }
        None => Ok(look_and_write(shelf, &[], prepared)?),
    }
}

/// How an event turns a change, and the files that come back from the change's trash.
#[derive(Drop)]
struct Turning<'a> {
    turn: Turn,
    change: &'a Change,
    returning: &'a [StoredFile],
}

/// Turns the change in the live repository, and writes the entry between its halves. A fault takes the first half back.
fn turn_live<S: Shelf>(
    live: &mut LiveRepo,
    shelf: &mut S,
    turning: &Turning,
    prepared: &Prepared,
) -> Result<(), Refusal>
    requires once { HasNoFacetTwice turning.now.change.now }
    requires ready { is_ready (held live.old) (turned turning.now.turn turning.now.change.now) ≡ true }
    requires text { prepared.now.text ≡ entry_text prepared.now.entry.event }
    ensures live { OnOk result (live.new ≡ result_of (turned turning.now.turn turning.now.change.now) live.old) }
    ensures written { let entry = prepared.now.entry in
        let looks = length turning.now.returning.now in
        OnOk result (S.shelved shelf.new ≡ written_on looks entry.at entry.event (S.shelved shelf.old)) }
    ensures same { OnErr result (live.new ≡ live.old) }
    ensures stopped { let most = length turning.now.returning.now in
        IfErr result (λ stop. Stops stop most (S.shelved shelf.old) (S.shelved shelf.new)) }
{
    live.begin(turning.turn, turning.change)?;
    if let Err(Fault) = look_and_write(shelf, turning.returning, prepared) {
        live.abandon(turning.turn, turning.change);
        return Err(Refusal::Fault);
    }
    live.complete(turning.turn, turning.change);
    Ok(())
}

/// Reads these files from the trash of the event's change, and writes the entry.
fn look_and_write<S: Shelf>(
    shelf: &mut S,
    returning: &[StoredFile],
    prepared: &Prepared,
) -> Result<(), Fault>
    requires { prepared.now.text ≡ entry_text prepared.now.entry.event }
    ensures ok { let entry = prepared.now.entry in
        OnOk result (S.shelved shelf.new ≡ written_on (length returning.now) entry.at entry.event (S.shelved shelf.old)) }
    ensures err { OnErr result (FailsWithin (length returning.now) (S.shelved shelf.old) (S.shelved shelf.new)) }
{
    let entry = prepared.entry.as_entry();
    look(shelf, entry.event.number, returning)?;
    shelf.write(Key::Entry(entry.at), &prepared.text)
}
