ghost use Rattle.std.specs.Prelude.{◌≢◌, ℕ, AllPairs};
ghost use Rattle.keep_names.specs.declared.id.Id as the_id;
ghost use Rattle.keep_repo.specs.Repository.{Repository};
ghost use Rattle.keep_read.specs.Contents.{contents_at};
ghost use Rattle.keep_read.specs.Losses.{SoundLosesNoBlob};

use keep_reach::the_sound_is_broken_by_trees_alone;

/// No two of what stands below a tree have one path, so a restore loses no file to another.
pub fn paths_are_apart()
    ensures { (r : Repository) (levels : ℕ) (tree : the_id.Id)
        → AllPairs (λ a b. a.0 ≢ b.0) (contents_at r levels tree) }
{}

/// An audit of a sound repository finds no snapshot broken for a missing blob, or for one whose bytes have another
/// hash: a snapshot is broken there only by a tree that isn't one, or that stands too deep.
pub fn sound_repositories_lose_no_blob()
    ensures { SoundLosesNoBlob }
{
    the_sound_is_broken_by_trees_alone();
}
