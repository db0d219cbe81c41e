ghost use Rattle.std.specs.Prelude.{◌≡◌, [], IfOk, OnOk, length};
ghost use Rattle.std.specs.Result.{IsOkAnd};

use keep_acts::PlanAdvice;
use keep_backups::{BackedUp, NotBackedUp};
use keep_ledger::Refusal;
use keep_run::{Failure, Left, Run, left_value, name_left, refused};
use keep_sources::Why;
use serde_json::json;

/// Prints what came of it.
pub(crate) fn print_end(
    run: &Run<'_>,
    came: Result<BackedUp, NotBackedUp>,
    is_dry: bool,
) -> Result<(), Failure>
    ensures { OnOk result (IsOkAnd came (λ done. done.skipped.items ≡ [])) }
{
    match came {
        Ok(done) => print_backup(run, &done, is_dry),
        Err(NotBackedUp::Unplanned(error)) => Err(Failure::refused(run.alloc, &PlanAdvice(&error))),
        Err(NotBackedUp::Refused(refusal)) => Err(refused(run, 0, &refusal)),
        Err(NotBackedUp::Differs(file)) => {
            let cause = format!(in run.alloc;
                "{file} is damaged, it has other bytes than the backup would store there: \
                 echo drop {file} | keep script, then back up again"
            )?;
            Err(Failure::Refused(cause))
        }
    }
}

/// Prints what the backup came to, and names what isn't in it.
fn print_backup(run: &Run<'_>, done: &BackedUp, is_dry: bool) -> Result<(), Failure>
    ensures { OnOk result (done.now.skipped.items ≡ []) }
{
    let left = left_of(run, done)?;
    let left = left.as_slice();
    let number = done.made.number;
    let event = done.made.event;
    let parts = done.parts;
    let is_unsettled = done.made.is_unsettled;
    if run.is_json {
        let left_out = left_value(run, left)?;
        let value = json!(in run.alloc; {
            "change": number,
            "event": event,
            "left_out": left_out,
            "parts": parts,
            "planned": is_dry,
            "unsettled": is_unsettled
        })?;
        run.print_value(&value)?;
    } else {
        let word = if is_dry { "would be" } else { "is" };
        let text = format!(in run.alloc;
            "the snapshot {word} @{number}, added by change {number} at event {event}; parts stored before: {parts}\n"
        )?;
        run.print(text.as_bytes())?;
    }
    if is_unsettled {
        return Err(refused(run, number, &Refusal::Unsettled(number)));
    }
    name_left(run, left)
}

/// What isn't in the backup, or not as it was seen, in words.
fn left_of(run: &Run<'_>, done: &BackedUp) -> Result<Vec<Left>, Failure>
    ensures { IfOk result (λ left. length left.items ≡ length done.now.skipped.items) }
{
    let mut left = Vec::new(run.alloc);
    for one in &done.skipped {
        let path = format!(in run.alloc; "/{}", one.path)?;
        let why = why_text(run, one.why)?;
        left.push(Left { path, why })?;
    }
    Ok(left)
}

fn why_text(run: &Run<'_>, why: Why) -> Result<String, Failure> {
    let text = match why {
        Why::Denied => "it can't be read: permission is wanting",
        Why::Gone => "it isn't there any more",
        Why::Replaced => "something else stands there now",
        Why::Unsayable(count) => {
            return Ok(format!(in run.alloc; "{count} names in it aren't UTF-8")?);
        }
        Why::TooDeep => "more than 256 folders lead there",
        Why::Failed => "it can't be read",
        Why::Shrank => "it became shorter while it was read: it is there as it was read",
        Why::Grew => "it became longer while it was read: it is there as it was read",
    };
    Ok(String::from_str(run.alloc, text)?)
}
