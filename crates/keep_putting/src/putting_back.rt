ghost use Rattle.std.specs.Prelude.{◌≡◌, [], Err, IfOk, OnOk, false};
ghost use Rattle.keep_putting.specs.Careful.{IsCarefulFrom};
ghost use Rattle.keep_putting.specs.Folders.{AreMade};
ghost use Rattle.keep_putting.specs.Made.{folders_in};
ghost use Rattle.keep_putting.specs.Putting.{AreDone, AreFinished, IsRestored, stage_of};
ghost use Rattle.keep_putting.specs.declared.restored.PutError.TheVariants.{NotEmpty};

use crate::course::Course;
use crate::putting::{finish, put};
use crate::restored::{PutError, Restored};
use crate::wanted::Wanted;
use keep_targets::{Owner, Pieces, Target};
use std::alloc::{AllocError, Global};

/// Puts what a snapshot has into a new folder. A folder comes before what is in it.
///
/// What is made belongs to the caller; only uid 0 gives it to others. Where something was in the folder it is refused, and
/// nothing is done. All else that can't be put as it is wanted is named, and the rest is put.
pub fn put_back<T: Target, P: Pieces>(
    alloc: Global,
    target: &mut T,
    pieces: &P,
    caller: Owner,
    wanted: &[Wanted],
) -> Result<Restored, PutError>
    requires { T.calls target.old ≡ [] }
    ensures careful { IsCarefulFrom [] (T.calls target.new) }
    ensures refused { T.is_new target.old ≡ false → (result ≡ Err NotEmpty) × (T.calls target.new ≡ []) }
    ensures told { result ≡ Err NotEmpty → T.is_new target.old ≡ false }
    ensures restored { IfOk result (λ restored.
        IsRestored (P.pieces pieces.now) caller wanted.now (T.calls target.new) restored) }
{
    if !target.is_new() {
        return Err(PutError::NotEmpty);
    }
    let mut course = Course::new(alloc, caller)?;
    put_all(target, pieces, &mut course, wanted)?;
    finish_all(target, &mut course, wanted)?;
    let Course {
        places: _,
        restored,
        caller: _,
    } = course;
    Ok(restored)
}

fn put_all<T: Target, P: Pieces>(
    target: &mut T,
    pieces: &P,
    course: &mut Course,
    wanted: &[Wanted],
) -> Result<(), AllocError>
    requires { AreMade (folders_in course.old.places) (T.calls target.old) }
    ensures careful { IsCarefulFrom (T.calls target.old) (T.calls target.new) }
    ensures made { AreMade (folders_in course.new.places) (T.calls target.new) }
    ensures caller { course.new.caller ≡ course.old.caller }
    ensures done { OnOk result (AreDone (P.pieces pieces.now) course.old.caller wanted.now
        (stage_of (T.calls target.old) course.old) (stage_of (T.calls target.new) course.new)) }
{
    for one in wanted {
        put(target, pieces, course, one)?;
    }
    Ok(())
}

fn finish_all<T: Target>(
    target: &mut T,
    course: &mut Course,
    wanted: &[Wanted],
) -> Result<(), AllocError>
    requires { AreMade (folders_in course.old.places) (T.calls target.old) }
    ensures careful { IsCarefulFrom (T.calls target.old) (T.calls target.new) }
    ensures done { OnOk result (AreFinished course.old.caller wanted.now
        (stage_of (T.calls target.old) course.old) (stage_of (T.calls target.new) course.new)) }
{
    let mut rest = wanted;
    while let Some((last, front)) = rest.split_last() {
        finish(target, course, last)?;
        rest = front;
    }
    Ok(())
}
