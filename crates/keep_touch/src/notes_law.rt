ghost use Rattle.keep_touch.specs.Following.{NotesFollowEvents};

/// The lists stay those of the committed changes: a commit needs one note, and other events none.
pub fn notes_follow_events()
    ensures { NotesFollowEvents }
{}
