use crate::places::Places;
use crate::restored::Restored;
use keep_targets::Owner;
use std::alloc::{AllocError, Global};

/// A restore that is under way.
#[derive(Drop)]
pub(crate) struct Course {
    /// The folders that were made.
    pub(crate) places: Places,
    pub(crate) restored: Restored,
    /// Whom what is made belongs to.
    pub(crate) caller: Owner,
}

impl Course {
    ghost use Rattle.std.specs.Prelude.{◌≡◌, [], IfOk};
    ghost use Rattle.keep_putting.specs.Putting.{begun, stage_of};

    pub(crate) fn new(alloc: Global, caller: Owner) -> Result<Course, AllocError>
        ensures begun { IfOk result (λ course. stage_of [] course ≡ begun) }
        ensures caller { IfOk result (λ course. course.caller ≡ caller) }
    {
        Ok(Course {
            places: Places::new(alloc)?,
            restored: Restored {
                files: 0,
                folders: 0,
                links: 0,
                bytes: 0,
                owners: 0,
                link_times: 0,
                left_out: Vec::new(alloc),
            },
            caller,
        })
    }
}
