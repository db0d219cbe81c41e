ghost use Rattle.keep_archive.specs.Walked.{ArchivesPlanBackups, GivenFolderIsHeld, WritesAreOne};

/// An archive to which a folder is given node by node, each file in however many writes, has just the folder's nodes
/// and holds its blobs in the order of a walk. It plans what is planned of the folder's files at once.
pub fn archives_plan_backups()
    ensures writes { WritesAreOne }
    ensures held { GivenFolderIsHeld }
    ensures planned { ArchivesPlanBackups }
{}
