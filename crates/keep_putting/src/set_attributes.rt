ghost use Rattle.std.specs.Prelude.{◌≡◌, OnOk, string_bytes};
ghost use Rattle.keep_putting.specs.Careful.{IsCarefulFrom, IsOwn, IsOwnLink};
ghost use Rattle.keep_putting.specs.Attributes.{AreApplied, IsTriedIf, link_owner_act, mode_act, owner_act, times_act};
ghost use Rattle.keep_putting.specs.declared.left_out.Why.TheVariants as the_why;

use crate::left_out::{LeftOut, Why, leave_out};
use crate::wanted::Wanted;
use keep_targets::{Owner, Target};
use std::alloc::AllocError;

/// Sets the owner, if one is given, then the mode and then the times of the file or folder at this place: a change of
/// owner clears bits of the mode. What can't be set is named.
pub(crate) fn set_attributes<T: Target>(
    target: &mut T,
    left: &mut Vec<LeftOut>,
    wanted: &Wanted,
    place: &str,
    owner: Option<Owner>,
) -> Result<(), AllocError>
    ensures careful { IsOwn (T.calls target.old) place.now
        → IsCarefulFrom (T.calls target.old) (T.calls target.new) }
    ensures applied { OnOk result (AreApplied (T.calls target.old) (T.calls target.new) left.old.items left.new.items
        wanted.now place.now owner) }
{
    set_owner(target, left, wanted, place, owner)?;
    set_mode(target, left, wanted, place)?;
    set_times(target, left, wanted, place)
}

fn set_owner<T: Target>(
    target: &mut T,
    left: &mut Vec<LeftOut>,
    wanted: &Wanted,
    place: &str,
    owner: Option<Owner>,
) -> Result<(), AllocError>
    ensures careful { IsOwn (T.calls target.old) place.now
        → IsCarefulFrom (T.calls target.old) (T.calls target.new) }
    ensures tried { OnOk result (IsTriedIf owner (owner_act place.now) (T.calls target.old) (T.calls target.new)
        left.old.items left.new.items wanted.now the_why.NoOwner) }
{
    let Some(owner) = owner else {
        return Ok(());
    };
    match target.set_owner(place, owner) {
        Ok(()) => Ok(()),
        Err(refusal) => leave_out(left, wanted, Why::NoOwner(refusal)),
    }
}

fn set_mode<T: Target>(
    target: &mut T,
    left: &mut Vec<LeftOut>,
    wanted: &Wanted,
    place: &str,
) -> Result<(), AllocError>
    ensures careful { IsOwn (T.calls target.old) place.now
        → IsCarefulFrom (T.calls target.old) (T.calls target.new) }
    ensures tried { OnOk result (IsTriedIf wanted.now.mode (mode_act place.now) (T.calls target.old)
        (T.calls target.new) left.old.items left.new.items wanted.now the_why.NoMode) }
{
    let Some(mode) = wanted.mode else {
        return Ok(());
    };
    match target.set_mode(place, mode) {
        Ok(()) => Ok(()),
        Err(refusal) => leave_out(left, wanted, Why::NoMode(refusal)),
    }
}

fn set_times<T: Target>(
    target: &mut T,
    left: &mut Vec<LeftOut>,
    wanted: &Wanted,
    place: &str,
) -> Result<(), AllocError>
    ensures careful { IsOwn (T.calls target.old) place.now
        → IsCarefulFrom (T.calls target.old) (T.calls target.new) }
    ensures tried { OnOk result (IsTriedIf wanted.now.times (times_act place.now) (T.calls target.old)
        (T.calls target.new) left.old.items left.new.items wanted.now the_why.NoTimes) }
{
    let Some(times) = wanted.times else {
        return Ok(());
    };
    match target.set_times(place, times) {
        Ok(()) => Ok(()),
        Err(refusal) => leave_out(left, wanted, Why::NoTimes(refusal)),
    }
}

/// Sets the owner of the link at this place, if one is given. Where it can't be set, that is named.
pub(crate) fn set_link_attributes<T: Target>(
    target: &mut T,
    left: &mut Vec<LeftOut>,
    wanted: &Wanted,
    place: &str,
    owner: Option<Owner>,
) -> Result<(), AllocError>
    ensures careful { IsOwnLink (T.calls target.old) place.now
        → IsCarefulFrom (T.calls target.old) (T.calls target.new) }
    ensures tried { OnOk result (IsTriedIf owner (link_owner_act place.now) (T.calls target.old) (T.calls target.new)
        left.old.items left.new.items wanted.now the_why.NoOwner) }
{
    let Some(owner) = owner else {
        return Ok(());
    };
    match target.set_link_owner(place, owner) {
        Ok(()) => Ok(()),
        Err(refusal) => leave_out(left, wanted, Why::NoOwner(refusal)),
    }
}
