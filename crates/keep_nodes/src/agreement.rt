ghost use Rattle.keep_nodes.specs.Agreed.{ContentsAreListed, RestoresWhatIsListed, WholeIsListed};

/// What a restore gives of a snapshot is what its listed nodes say: the bytes of the files at their paths, and how many
/// nodes are skipped. It is refused where the list is that asks for all pieces, by the same refusal.
pub fn a_restore_gives_the_files_of_the_nodes()
    ensures contents { ContentsAreListed }
    ensures restored { RestoresWhatIsListed }
{}

/// A snapshot that can be restored whole is listed the same by its trees alone.
pub fn what_is_whole_is_listed_alike()
    ensures { WholeIsListed }
{}
