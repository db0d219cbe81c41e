ghost use Rattle.std.specs.Prelude.{if◌then◌else◌, ◌≡◌, ◌∷◌, ◌++◌, [], OnOk, string_bytes};
ghost use Rattle.keep_putting.specs.Careful.{IsCarefulFrom, IsOwnPlace};
ghost use Rattle.keep_putting.specs.Folders.{AreMade};
ghost use Rattle.keep_putting.specs.Made.{folders_in};
ghost use Rattle.keep_putting.specs.Putting.{IsFilePut, IsFinished, IsFolderPut, IsLinkPut, IsOneDone, missed, owner_asked, stage_of};

use crate::course::Course;
use crate::file_filling::fill;
use crate::left_out::{Why, leave_out};
use crate::places::Unplaced;
use crate::set_attributes::{set_attributes, set_link_attributes};
use crate::wanted::{Wanted, What};
use keep_names::Id;
use keep_targets::{Owner, Pieces, Target};
use std::alloc::AllocError;

/// Puts one thing at its place, below the folder that holds it.
pub(crate) fn put<T: Target, P: Pieces>(
    target: &mut T,
    pieces: &P,
    course: &mut Course,
    wanted: &Wanted,
) -> Result<(), AllocError>
    ensures careful { AreMade (folders_in course.old.places) (T.calls target.old)
        → IsCarefulFrom (T.calls target.old) (T.calls target.new) }
    ensures made { AreMade (folders_in course.old.places) (T.calls target.old)
        → AreMade (folders_in course.new.places) (T.calls target.new) }
    ensures caller { course.new.caller ≡ course.old.caller }
    ensures done { OnOk result (IsOneDone (P.pieces pieces.now) course.old.caller wanted.now
        (stage_of (T.calls target.old) course.old) (stage_of (T.calls target.new) course.new)) }
{
    let place = match course.places.place_of(wanted) {
        Ok(place) => place,
        Err(Unplaced::Left(why)) => {
            return leave_out(&mut course.restored.left_out, wanted, why);
        }
        Err(Unplaced::Memory) => return Err(AllocError),
    };
    match &wanted.what {
        What::Folder => put_folder(target, course, wanted, place),
        What::File(content) => put_file(target, pieces, course, wanted, content, place.as_str()),
        What::Link(to) => put_link(target, course, wanted, to.as_str(), place.as_str()),
        What::Other => leave_out(&mut course.restored.left_out, wanted, Why::OtherType),
    }
}

fn put_folder<T: Target>(
    target: &mut T,
    course: &mut Course,
    wanted: &Wanted,
    place: String,
) -> Result<(), AllocError>
    ensures careful { IsOwnPlace (T.calls target.old) (string_bytes place)
        → IsCarefulFrom (T.calls target.old) (T.calls target.new) }
    ensures made { AreMade (folders_in course.old.places) (T.calls target.old)
        → AreMade (folders_in course.new.places) (T.calls target.new) }
    ensures caller { course.new.caller ≡ course.old.caller }
    ensures done { OnOk result (IsFolderPut wanted.now (string_bytes place)
        (stage_of (T.calls target.old) course.old) (stage_of (T.calls target.new) course.new)) }
{
    if let Err(refusal) = target.make_folder(place.as_str()) {
        return leave_out(&mut course.restored.left_out, wanted, Why::NotMade(refusal));
    }
    course.restored.folders = course.restored.folders.saturating_add(1);
    course.places.note(wanted.path.as_str(), place)
}

fn put_file<T: Target, P: Pieces>(
    target: &mut T,
    pieces: &P,
    course: &mut Course,
    wanted: &Wanted,
    content: &[Id],
    place: &str,
) -> Result<(), AllocError>
    ensures careful { IsOwnPlace (T.calls target.old) place.now
        → IsCarefulFrom (T.calls target.old) (T.calls target.new) }
    ensures places { folders_in course.new.places ≡ folders_in course.old.places }
    ensures caller { course.new.caller ≡ course.old.caller }
    ensures done { OnOk result (IsFilePut (P.pieces pieces.now) course.old.caller wanted.now content.now place.now
        (stage_of (T.calls target.old) course.old) (stage_of (T.calls target.new) course.new)) }
{
    let size = match fill(target, pieces, place, content) {
        Ok(size) => size,
        Err(hurt) => return leave_out(&mut course.restored.left_out, wanted, Why::from(hurt)),
    };
    course.restored.files = course.restored.files.saturating_add(1);
    course.restored.bytes = course.restored.bytes.saturating_add(size);
    let owner = owner_to_set(course.caller, wanted, &mut course.restored.owners);
    set_attributes(target, &mut course.restored.left_out, wanted, place, owner)
}

fn put_link<T: Target>(
    target: &mut T,
    course: &mut Course,
    wanted: &Wanted,
    to: &str,
    place: &str,
) -> Result<(), AllocError>
    ensures careful { IsOwnPlace (T.calls target.old) place.now
        → IsCarefulFrom (T.calls target.old) (T.calls target.new) }
    ensures places { folders_in course.new.places ≡ folders_in course.old.places }
    ensures caller { course.new.caller ≡ course.old.caller }
    ensures done { OnOk result (IsLinkPut course.old.caller wanted.now to.now place.now
        (stage_of (T.calls target.old) course.old) (stage_of (T.calls target.new) course.new)) }
{
    if let Err(refusal) = target.make_link(place, to) {
        return leave_out(&mut course.restored.left_out, wanted, Why::NotMade(refusal));
    }
    course.restored.links = course.restored.links.saturating_add(1);
    if wanted.times.is_some() {
        course.restored.link_times = course.restored.link_times.saturating_add(1);
    }
    let owner = owner_to_set(course.caller, wanted, &mut course.restored.owners);
    set_link_attributes(target, &mut course.restored.left_out, wanted, place, owner)
}

/// Sets owner, mode and times of a folder that was made, once all that is in it is put.
pub(crate) fn finish<T: Target>(
    target: &mut T,
    course: &mut Course,
    wanted: &Wanted,
) -> Result<(), AllocError>
    ensures careful { AreMade (folders_in course.old.places) (T.calls target.old)
        → IsCarefulFrom (T.calls target.old) (T.calls target.new) }
    ensures made { AreMade (folders_in course.old.places) (T.calls target.old)
        → AreMade (folders_in course.new.places) (T.calls target.new) }
    ensures caller { course.new.caller ≡ course.old.caller }
    ensures done { OnOk result (IsFinished course.old.caller wanted.now wanted.now.what
        (stage_of (T.calls target.old) course.old) (stage_of (T.calls target.new) course.new)) }
{
    let What::Folder = &wanted.what else {
        return Ok(());
    };
    let Some(place) = course.places.find(wanted.path.as_str()) else {
        return Ok(());
    };
    let owner = owner_to_set(course.caller, wanted, &mut course.restored.owners);
    set_attributes(target, &mut course.restored.left_out, wanted, place, owner)
}

/// The owner that is to be set: only the superuser can. Others are counted, unless what is made is theirs already.
fn owner_to_set(caller: Owner, wanted: &Wanted, owners: &mut u64) -> Option<Owner>
    ensures asked { result ≡ owner_asked caller wanted.now.owner }
    ensures missed { owners.new ≡ missed caller wanted.now.owner owners.old }
{
    if caller.uid == 0 {
        return wanted.owner;
    }
    if wanted.owner.is_some_and(|owner| owner != caller) {
        *owners = owners.saturating_add(1);
    }
    None
}
