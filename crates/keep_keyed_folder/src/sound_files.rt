//! Acts on a tree by paths, after each of which what holds the name is synced.
ghost use Rattle.std.specs.Prelude.{◌≡◌, ◌≢◌, ◌⊎◌, ◌++◌, ◌∷◌, [], Err, IsTrue, List, OnOk, OnErr, false};
ghost use Rattle.keep_files.specs.Act.{Act, Seen};
ghost use Rattle.keep_files.specs.Path.{IsHeldIn};
ghost use Rattle.keep_files.specs.Stands.{HasHome, IsClosed, is_file};
ghost use Rattle.keep_keyed_folder.specs.Keyed.{HasFailure};
ghost use Rattle.keep_keyed_folder.specs.Left.{EndsAs, IsLeft, IsPut, IsShifted, IsTaken, IsWidened};
ghost use Rattle.keep_keyed_folder.specs.Order.{AreMade, AreSynced, IsPutInOrder, IsShiftedInOrder, IsTakenInOrder};
ghost use Rattle.keep_keyed_folder.specs.Stops.{Keeps};
ghost use Rattle.keep_files.specs.declared.tree_error.TreeError.TheVariants as the_error;

use keep_files::{FileTree, TreeError, home_of};
use keep_rope::Rope;

/// A tree, and whether all that was done in it is known, and known to outlast a loss of power.
#[derive(Drop)]
pub(crate) struct SoundFiles<T> {
    pub(crate) tree: T,
    pub(crate) is_sound: bool,
}

impl<T: FileTree> SoundFiles<T> {
    /// Puts a file at the path, in the place of the file that stands there. It is written elsewhere first, and what
    /// comes last is a rename, so that it is seen whole or not at all.
    pub(crate) fn put(&mut self, tmp: &str, path: &str, bytes: &Rope) -> Result<(), TreeError>
        requires closed { IsClosed (T.seen self.old.tree).stands }
        requires sound { IsTrue self.old.is_sound }
        requires apart { path.now ≢ tmp.now }
        ensures closed { IsClosed (T.seen self.new.tree).stands }
        ensures left { let before = (T.seen self.old.tree).stands in let after = (T.seen self.new.tree).stands in
            EndsAs result (IsPut before after path.now bytes.now tmp.now) (IsLeft before after path.now tmp.now) }
        ensures stops { let before = (T.seen self.old.tree).stands in
            Keeps (λ now. IsLeft before now path.now tmp.now ⊎ IsPut before now path.now bytes.now tmp.now)
            (T.seen self.old.tree) (T.seen self.new.tree) }
        ensures order { OnOk result (IsPutInOrder (T.seen self.old.tree).acts (T.seen self.new.tree).acts
            path.now bytes.now tmp.now self.new.is_sound) }
        ensures err { OnErr result (HasFailure (T.seen self.old.tree) (T.seen self.new.tree)) }
        ensures unsound { self.new.is_sound ≡ false → HasFailure (T.seen self.old.tree) (T.seen self.new.tree) }
    {
        self.tree.remove(tmp)?;
        self.make_home(path)?;
        self.tree.write_new(tmp, bytes)?;
        self.tree.rename(tmp, path)?;
        self.sync_holder(path);
        Ok(())
    }

    /// Puts a file at another path.
    pub(crate) fn shift(&mut self, from: &str, to: &str) -> Result<(), TreeError>
        requires closed { IsClosed (T.seen self.old.tree).stands }
        requires sound { IsTrue self.old.is_sound }
        requires apart { from.now ≢ to.now }
        requires file { IsTrue (is_file ((T.seen self.old.tree).stands from.now)) }
        ensures closed { IsClosed (T.seen self.new.tree).stands }
        ensures left { let before = (T.seen self.old.tree).stands in let after = (T.seen self.new.tree).stands in
            EndsAs result (IsShifted before after from.now to.now) (IsWidened before after to.now) }
        ensures stops { let before = (T.seen self.old.tree).stands in
            Keeps (λ now. IsWidened before now to.now ⊎ IsShifted before now from.now to.now)
            (T.seen self.old.tree) (T.seen self.new.tree) }
        ensures order { OnOk result (IsShiftedInOrder (T.seen self.old.tree).acts (T.seen self.new.tree).acts
            from.now to.now self.new.is_sound) }
        ensures err { OnErr result (HasFailure (T.seen self.old.tree) (T.seen self.new.tree)) }
        ensures unsound { self.new.is_sound ≡ false → HasFailure (T.seen self.old.tree) (T.seen self.new.tree) }
    {
        self.make_home(to)?;
        self.tree.rename(from, to)?;
        self.sync_holder(to);
        self.sync_holder(from);
        Ok(())
    }

    /// Takes away the file at the path.
    pub(crate) fn remove(&mut self, path: &str) -> Result<(), TreeError>
        requires closed { IsClosed (T.seen self.old.tree).stands }
        requires sound { IsTrue self.old.is_sound }
        ensures closed { IsClosed (T.seen self.new.tree).stands }
        ensures left { let before = (T.seen self.old.tree).stands in let after = (T.seen self.new.tree).stands in
            EndsAs result (IsTaken before after path.now) (after ≡ before) }
        ensures stops { let before = (T.seen self.old.tree).stands in
            Keeps (λ now. (now ≡ before) ⊎ IsTaken before now path.now) (T.seen self.old.tree) (T.seen self.new.tree) }
        ensures order { OnOk result (IsTakenInOrder (T.seen self.old.tree).acts (T.seen self.new.tree).acts
            path.now self.new.is_sound) }
        ensures err { OnErr result (HasFailure (T.seen self.old.tree) (T.seen self.new.tree)) }
        ensures unsound { self.new.is_sound ≡ false → HasFailure (T.seen self.old.tree) (T.seen self.new.tree) }
    {
        self.tree.remove(path)?;
        self.sync_holder(path);
        Ok(())
    }

    /// What an act answered. Where it isn't known whether it was done, nothing is built on it.
    pub(crate) fn heed(&mut self, done: Result<(), TreeError>) -> Result<(), TreeError>
        ensures answer { result ≡ done }
        ensures tree { self.new.tree ≡ self.old.tree }
        ensures told { done ≢ Err the_error.Unknown → self.new.is_sound ≡ self.old.is_sound }
        ensures unknown { done ≡ Err the_error.Unknown → self.new.is_sound ≡ false }
    {
        if let Err(TreeError::Unknown) = done {
            self.is_sound = false;
        }
        done
    }

    /// Makes the folder that the path leads into, and those above it, where they aren't there.
    fn make_home(&mut self, path: &str) -> Result<(), TreeError>
        requires closed { IsClosed (T.seen self.old.tree).stands }
        requires sound { IsTrue self.old.is_sound }
        ensures closed { IsClosed (T.seen self.new.tree).stands }
        ensures left { IsWidened (T.seen self.old.tree).stands (T.seen self.new.tree).stands path.now }
        ensures home { OnOk result (HasHome (T.seen self.new.tree).stands path.now) }
        ensures stops { Keeps (λ now. IsWidened (T.seen self.old.tree).stands now path.now)
            (T.seen self.old.tree) (T.seen self.new.tree) }
        ensures order { OnOk result ((made : List Act) × AreMade made
            × ((T.seen self.new.tree).acts ≡ (T.seen self.old.tree).acts ++ made)) }
        ensures none_failed { OnOk result ((T.seen self.new.tree).failures ≡ (T.seen self.old.tree).failures) }
        ensures still_sound { OnOk result (IsTrue self.new.is_sound) }
        ensures err { OnErr result (HasFailure (T.seen self.old.tree) (T.seen self.new.tree)) }
    {
        let Some(home) = home_of(path) else {
            return Ok(());
        };
        if self.tree.has_folder(home)? {
            return Ok(());
        }
        self.make_home(home)?;
        self.tree.make_folder(home)?;
        self.sync_holder(home);
        if self.is_sound {
            Ok(())
        } else {
            Err(TreeError::Broken)
        }
    }

    /// Syncs the folder that holds the path, in which a name was put, moved or removed.
    ///
    /// Whoever looks finds that from then on, so the act is done, whether this goes well or not. To answer that it
    /// failed would be to say that all is as it was; and it can't be taken back, since a file that was replaced or
    /// removed is gone. But where a folder can't be synced, a loss of power may undo the act, so nothing is built on
    /// it: each later act fails before it does anything. Who opens the folder anew goes on from what is there.
    fn sync_holder(&mut self, path: &str)
        ensures stands { (T.seen self.new.tree).stands ≡ (T.seen self.old.tree).stands }
        ensures unsound { self.old.is_sound ≡ false → self.new ≡ self.old }
        ensures synced { IsTrue self.old.is_sound → ((synced : List Act) × AreSynced self.new.is_sound (path.now ∷ []) synced
            × ((T.seen self.new.tree).acts ≡ (T.seen self.old.tree).acts ++ synced)) }
        ensures ok { IsTrue self.new.is_sound → (T.seen self.new.tree).failures ≡ (T.seen self.old.tree).failures }
        ensures err { IsTrue self.old.is_sound → self.new.is_sound ≡ false
            → HasFailure (T.seen self.old.tree) (T.seen self.new.tree) }
    {
        if self.is_sound
            && let Err(_) = self.tree.sync_folder(holder_of(path))
        {
            self.is_sound = false;
        }
    }
}

/// The folder that holds the path, which may be the root.
fn holder_of(path: &str) -> &str
    ensures { IsHeldIn path.now result.now }
{
    match home_of(path) {
        Some(home) => home,
        None => "",
    }
}
