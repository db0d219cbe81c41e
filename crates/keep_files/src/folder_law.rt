ghost use Rattle.keep_files.specs.Laws.{ActsKeepFolders};

/// What a tree does leaves what stands in folders, so that no file is lost from sight.
pub fn acts_keep_folders()
    ensures { ActsKeepFolders }
{}
