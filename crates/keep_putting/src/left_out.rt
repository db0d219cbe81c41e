ghost use Rattle.std.specs.Prelude.{◌≡◌, OnErr, OnOk};
ghost use Rattle.keep_putting.specs.Leaving.{IsNamedNext};

use crate::hurt::Hurt;
use crate::wanted::Wanted;
use keep_targets::TargetError;
use std::alloc::AllocError;

/// What isn't as the snapshot says, and why.
#[derive(Clone, Copy, Debug, PartialEq, Eq)]
pub enum Why {
    /// No file can have its name, or it isn't UTF-8. It isn't there.
    BadName,
    /// The folder that is to hold it wasn't made. It isn't there.
    NoFolder,
    /// It is neither a file nor a folder nor a link. It isn't there.
    OtherType,
    /// It couldn't be made, and isn't there.
    NotMade(TargetError),
    /// The file has so many first bytes, and no more could be written.
    Cut { written: u64, refusal: TargetError },
    /// The file has so many first bytes, and the piece behind them can't be had.
    Lost { written: u64 },
    /// It has another owner.
    NoOwner(TargetError),
    /// It has another mode.
    NoMode(TargetError),
    /// It has other times.
    NoTimes(TargetError),
}

/// What isn't as the snapshot says.
#[derive(Debug, Drop)]
pub struct LeftOut {
    /// Its path, as trees spell names.
    pub path: String,
    pub why: Why,
}

impl From<Hurt> for Why {
    ghost use Rattle.std.specs.Prelude.{◌≡◌};
    ghost use Rattle.keep_putting.specs.Hurts.{why_of};

    ghost from_gives = { λ hurt why. why ≡ why_of hurt };

    fn from(hurt: Hurt) -> Why {
        match hurt {
            Hurt::NotMade(refusal) => Why::NotMade(refusal),
            Hurt::Cut { written, refusal } => Why::Cut { written, refusal },
            Hurt::Lost { written } => Why::Lost { written },
        }
    }
}

/// Names what isn't as it is wanted.
pub(crate) fn leave_out(
    left: &mut Vec<LeftOut>,
    wanted: &Wanted,
    why: Why,
) -> Result<(), AllocError>
    ensures named { OnOk result (IsNamedNext left.old.items left.new.items wanted.now why) }
    ensures same { OnErr result (left.new.items ≡ left.old.items) }
{
    let path = wanted.path.clone()?;
    left.push(LeftOut { path, why })?;
    Ok(())
}
