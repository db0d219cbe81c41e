ghost use Rattle.std.specs.Prelude.{◌<◌, ◌^◌};
ghost use Rattle.keep_members.specs.Members.{IsSaid, members_data};

use crate::members::Members;

/// What the types say of the values.
pub(crate) fn is_said(members: &Members)
    ensures { IsSaid (members_data members.now) }
{
    is_short(members.mode);
    is_short(members.uid);
    is_short(members.gid);
    is_long(members.inode);
    is_long(members.device_id);
    is_long(members.size);
    is_long(members.links);
    is_long(members.device);
}

fn is_short(_number: u32)
    ensures { _number < 2 ^ 32 }
{}

fn is_long(_number: u64)
    ensures { _number < 2 ^ 64 }
{}
