ghost use Rattle.keep_touch.specs.Taken.{OneListIsTaken, TakenIsLeast};
ghost use Rattle.keep_touch.specs.Undone.{UndosLeaveTheOthers};

/// No more is taken back than has to be.
pub fn the_taken_set_is_least()
    ensures { TakenIsLeast }
{}

/// What is taken back with a change, and in which order, is determined.
pub fn one_list_is_taken()
    ensures { OneListIsTaken }
{}

/// What the undos of some changes leave in force.
pub fn undos_leave_the_others()
    ensures { UndosLeaveTheOthers }
{}
