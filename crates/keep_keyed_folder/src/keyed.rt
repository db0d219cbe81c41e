ghost use Rattle.std.specs.Prelude.{◌≡◌, ◌⊎◌, Err, Ok, IsTrue, List, None, OnOk, OnErr, ℕ, false, true, ◌≢◌, string_bytes};
ghost use Rattle.std.specs.FinMap as map;
ghost use Rattle.keep_files.specs.Content.{HoldsFiles};
ghost use Rattle.keep_files.specs.Stands.{IsClosed, is_file};
ghost use Rattle.keep_files.specs.declared.tree_error.TreeError.TheVariants as the_error;
ghost use Rattle.keep_keyed_folder.specs.Left.{EndsAs, IsLeft, IsPut, IsShifted, IsTaken, IsWidened};
ghost use Rattle.keep_keyed_folder.specs.Order.{IsPutInOrder, IsShiftedInOrder, IsTakenInOrder};
ghost use Rattle.keep_keyed_folder.specs.Stops.{Keeps};
ghost use Rattle.keep_keyed_folder.specs.Tmp.{HasNoLeftovers, IsCleared, IsTmp};
ghost use Rattle.keep_paths.specs.KeyPath.{key_path};
ghost use Rattle.keep_shelf.specs.Shelved.{Content, shifted};

use crate::key_path::KeyPath;
use crate::leftovers::clear;
use crate::sound_files::SoundFiles;
use keep_files::{FileTree, TreeError};
use keep_paths::{key_is_sized, path_names_key};
use keep_rope::Rope;

/// Files by keys in a tree.
///
/// Each act is done whole or not at all, also where the program stops in the middle of it. Where it isn't known whether
/// an act was done, or a folder couldn't be synced, the folder isn't sound any more: each later call fails before it does
/// anything. Who opens the folder anew goes on from what is there.
#[derive(Drop)]
pub struct KeyedFolder<T> {
    pub(crate) files: SoundFiles<T>,
    /// What a file is called that is under way.
    pub(crate) tmp: String,
    ghost is_tmp: { IsTmp (string_bytes tmp) },
}

impl<T: FileTree> KeyedFolder<T> {
    ghost use Rattle.keep_keyed_folder.specs.Keyed.{HasFailure, acts_in, is_sound_in, seen_in, stands_in, tmp_in};

    /// Keys lie in this tree, and a file that is under way has this name, which nobody else gives to a file there.
    pub fn new(tree: T, tmp: String) -> KeyedFolder<T>
        requires { IsTmp (string_bytes tmp) }
        ensures seen { seen_in T.seen result ≡ T.seen tree }
        ensures sound { IsTrue (is_sound_in result) }
        ensures tmp { tmp_in result ≡ string_bytes tmp }
    {
        KeyedFolder {
            files: SoundFiles {
                tree,
                is_sound: true,
            },
            tmp,
        }
    }

    /// Whether it is known of each act whether it was done, and that it outlasts a loss of power.
    pub fn is_sound(&self) -> bool
        ensures { result ≡ is_sound_in self.now }
    {
        self.files.is_sound
    }

    /// The tree, with all that was done in it.
    pub fn into_tree(self) -> T
        ensures { T.seen result ≡ seen_in T.seen self }
    {
        self.files.tree
    }

    /// Puts the bytes into the key's file, or into a new one.
    pub fn put(&mut self, path: &KeyPath, bytes: &Rope) -> Result<(), TreeError>
        requires { IsClosed (stands_in T.seen self.old) }
        ensures closed { IsClosed (stands_in T.seen self.new) }
        ensures left { let before = stands_in T.seen self.old in let after = stands_in T.seen self.new in
            EndsAs result (IsPut before after (key_path path.now.key) bytes.now (tmp_in self.old))
            (IsLeft before after (key_path path.now.key) (tmp_in self.old)) }
        ensures content { (content : Content) → HoldsFiles (stands_in T.seen self.old) content
            → EndsAs result (HoldsFiles (stands_in T.seen self.new) (map.insert content path.now.key bytes.now))
            (HoldsFiles (stands_in T.seen self.new) content) }
        ensures stops { (content : Content) → HoldsFiles (stands_in T.seen self.old) content
            → Keeps (λ now. HoldsFiles now content ⊎ HoldsFiles now (map.insert content path.now.key bytes.now))
            (seen_in T.seen self.old) (seen_in T.seen self.new) }
        ensures order { OnOk result (IsPutInOrder (acts_in T.seen self.old) (acts_in T.seen self.new)
            (key_path path.now.key) bytes.now (tmp_in self.old) (is_sound_in self.new)) }
        ensures refused { is_sound_in self.old ≡ false → (result ≡ Err the_error.Broken) × (self.new ≡ self.old) }
        ensures told { IsTrue (is_sound_in self.new) → result ≢ Err the_error.Unknown }
        ensures cause { IsTrue (is_sound_in self.old) → (IsTrue (is_sound_in self.new) × (result ≡ Ok tt))
            ⊎ HasFailure (seen_in T.seen self.old) (seen_in T.seen self.new) }
    {
        if !self.files.is_sound {
            return Err(TreeError::Broken);
        }
        key_is_sized(path.key);
        let done = self.files.put(self.tmp.as_str(), path.as_str(), bytes);
        self.files.heed(done)
    }

    /// Puts the file of one key where that of another key lies.
    pub fn shift(&mut self, from: &KeyPath, to: &KeyPath) -> Result<(), TreeError>
        requires closed { IsClosed (stands_in T.seen self.old) }
        requires filled { IsTrue (is_file (stands_in T.seen self.old (key_path from.now.key))) }
        requires apart { from.now.key ≢ to.now.key }
        ensures closed { IsClosed (stands_in T.seen self.new) }
        ensures left { let before = stands_in T.seen self.old in let after = stands_in T.seen self.new in
            EndsAs result (IsShifted before after (key_path from.now.key) (key_path to.now.key))
            (IsWidened before after (key_path to.now.key)) }
        ensures content { (content : Content) → HoldsFiles (stands_in T.seen self.old) content
            → EndsAs result (HoldsFiles (stands_in T.seen self.new) (shifted content from.now.key to.now.key))
            (HoldsFiles (stands_in T.seen self.new) content) }
        ensures stops { (content : Content) → HoldsFiles (stands_in T.seen self.old) content
            → Keeps (λ now. HoldsFiles now content ⊎ HoldsFiles now (shifted content from.now.key to.now.key))
            (seen_in T.seen self.old) (seen_in T.seen self.new) }
        ensures order { OnOk result (IsShiftedInOrder (acts_in T.seen self.old) (acts_in T.seen self.new)
            (key_path from.now.key) (key_path to.now.key) (is_sound_in self.new)) }
        ensures refused { is_sound_in self.old ≡ false → (result ≡ Err the_error.Broken) × (self.new ≡ self.old) }
        ensures told { IsTrue (is_sound_in self.new) → result ≢ Err the_error.Unknown }
        ensures cause { IsTrue (is_sound_in self.old) → (IsTrue (is_sound_in self.new) × (result ≡ Ok tt))
            ⊎ HasFailure (seen_in T.seen self.old) (seen_in T.seen self.new) }
    {
        if !self.files.is_sound {
            return Err(TreeError::Broken);
        }
        key_is_sized(from.key);
        key_is_sized(to.key);
        path_names_key(from.key, to.key);
        let done = self.files.shift(from.as_str(), to.as_str());
        self.files.heed(done)
    }

    /// Takes the key's file away. Where there is none, there is nothing to do.
    pub fn remove(&mut self, path: &KeyPath) -> Result<(), TreeError>
        requires { IsClosed (stands_in T.seen self.old) }
        ensures closed { IsClosed (stands_in T.seen self.new) }
        ensures left { let before = stands_in T.seen self.old in let after = stands_in T.seen self.new in
            EndsAs result (IsTaken before after (key_path path.now.key)) (after ≡ before) }
        ensures content { (content : Content) → HoldsFiles (stands_in T.seen self.old) content
            → EndsAs result (HoldsFiles (stands_in T.seen self.new) (map.remove content path.now.key))
            (HoldsFiles (stands_in T.seen self.new) content) }
        ensures stops { (content : Content) → HoldsFiles (stands_in T.seen self.old) content
            → Keeps (λ now. HoldsFiles now content ⊎ HoldsFiles now (map.remove content path.now.key))
            (seen_in T.seen self.old) (seen_in T.seen self.new) }
        ensures order { OnOk result (IsTakenInOrder (acts_in T.seen self.old) (acts_in T.seen self.new)
            (key_path path.now.key) (is_sound_in self.new)) }
        ensures refused { is_sound_in self.old ≡ false → (result ≡ Err the_error.Broken) × (self.new ≡ self.old) }
        ensures told { IsTrue (is_sound_in self.new) → result ≢ Err the_error.Unknown }
        ensures cause { IsTrue (is_sound_in self.old) → (IsTrue (is_sound_in self.new) × (result ≡ Ok tt))
            ⊎ HasFailure (seen_in T.seen self.old) (seen_in T.seen self.new) }
    {
        if !self.files.is_sound {
            return Err(TreeError::Broken);
        }
        key_is_sized(path.key);
        let done = self.files.remove(path.as_str());
        self.files.heed(done)
    }

    /// Takes away what earlier runs left under way: files at the root that are called `tmp`, or by `tmp-` and more.
    pub fn clear_leftovers(&mut self) -> Result<(), TreeError>
        requires { IsClosed (stands_in T.seen self.old) }
        ensures closed { IsClosed (stands_in T.seen self.new) }
        ensures gone { OnOk result (HasNoLeftovers (stands_in T.seen self.new)) }
        ensures rest { IsCleared (stands_in T.seen self.old) (stands_in T.seen self.new) }
        ensures content { (content : Content) → HoldsFiles (stands_in T.seen self.old) content
            → HoldsFiles (stands_in T.seen self.new) content }
        ensures refused { is_sound_in self.old ≡ false → (result ≡ Err the_error.Broken) × (self.new ≡ self.old) }
        ensures told { IsTrue (is_sound_in self.new) → result ≢ Err the_error.Unknown }
        ensures cause { IsTrue (is_sound_in self.old) → (IsTrue (is_sound_in self.new) × (result ≡ Ok tt))
            ⊎ HasFailure (seen_in T.seen self.old) (seen_in T.seen self.new) }
    {
        if !self.files.is_sound {
            return Err(TreeError::Broken);
        }
        let done = clear(&mut self.files.tree);
        self.files.heed(done)
    }
}
