ghost use Rattle.std.specs.Prelude.{if◌then◌else◌, ◌≡◌, ◌≢◌, ◌==◌, ◌↔◌, ◌≤◌, ℕ, Err, IfErr, IfOk, IsTrue, List, OnOk, OnErr, is_ok, is_some, nat_le};
ghost use Rattle.keep_files.specs.Act.{CanDo, HasFailed, Made, Removed, Renamed, Synced, Wrote, done, failed};
ghost use Rattle.keep_files.specs.Path.{IsHeldIn, IsListed};
ghost use Rattle.keep_files.specs.Stands.{is_file, is_folder};
ghost use Rattle.keep_files.specs.declared.tree_error.TreeError.TheVariants as the_error;
ghost use Rattle.keep_memory_files.specs.declared.tree_failures.Fate.TheVariants as the_fate;
ghost use Rattle.keep_shelf.specs.Shelved.{risen};

use crate::tree_failures::{Fate, Plan};
use keep_files::{FileTree, Node, TreeError};
use keep_rope::Rope;

/// A tree that fails when it is told to, and is otherwise the one that it stands before. It counts the failures of both.
#[derive(Debug, Drop)]
pub struct FailingTree<T> {
    inner: T,
    plan: Plan,
    failures: u64,
}

impl<T: FileTree> FailingTree<T> {
    ghost use Rattle.keep_memory_files.specs.Failing.{fate_of, inner_of, outside};

    /// Of the calls from now on the k-th fails, and no other. At 0 none does.
    pub fn once(inner: T, k: u64) -> FailingTree<T>
        ensures inner { inner_of result ≡ inner }
        ensures none_yet { (outside T.seen result).failures ≡ 0 }
        ensures chosen { (n : ℕ) → 1 ≤ n
            → fate_of result n ≡ (if n == k then the_fate.Refused else the_fate.Passed) }
    {
        FailingTree::new(inner, Plan::Once(k))
    }

    /// Of the calls from now on the k-th fails, and all that follow it.
    pub fn onward(inner: T, k: u64) -> FailingTree<T>
        ensures inner { inner_of result ≡ inner }
        ensures none_yet { (outside T.seen result).failures ≡ 0 }
        ensures chosen { (n : ℕ) → 1 ≤ n
            → fate_of result n ≡ (if nat_le k n then the_fate.Refused else the_fate.Passed) }
    {
        FailingTree::new(inner, Plan::Onward(k))
    }

    /// Of the calls from now on the k-th is done and fails all the same, and no other. At 0 none does. A sync isn't done.
    pub fn once_done(inner: T, k: u64) -> FailingTree<T>
        ensures inner { inner_of result ≡ inner }
        ensures none_yet { (outside T.seen result).failures ≡ 0 }
        ensures chosen { (n : ℕ) → 1 ≤ n
            → fate_of result n ≡ (if n == k then the_fate.Denied else the_fate.Passed) }
    {
        FailingTree::new(inner, Plan::OnceDone(k))
    }

    fn new(inner: T, plan: Plan) -> FailingTree<T>
        ensures { result ≡ record { inner = inner; plan = plan; failures = 0 } }
    {
        FailingTree {
            inner,
            plan,
            failures: 0,
        }
    }

    /// How many calls failed since this tree was made. The count ends at 2^64 - 1.
    pub fn failures(&self) -> u64
        ensures { result ≡ (outside T.seen self.now).failures }
    {
        self.failures
    }

    /// The tree that it stands before.
    pub fn into_inner(self) -> T
        ensures { result ≡ inner_of self }
    {
        self.inner
    }

    /// Counts a call that failed.
    fn fail(&mut self, error: TreeError) -> TreeError
        ensures same { result ≡ error }
        ensures counted { self.new ≡ record self.old { failures = risen self.old.failures } }
    {
        self.failures = self.failures.saturating_add(1);
        error
    }
}

impl<T: FileTree> FileTree for FailingTree<T> {
    ghost use Rattle.keep_memory_files.specs.Failing.{IsDoneIfDenied, TakesTurn, outside};

    ghost seen = { outside T.seen };

    fn read(&mut self, path: &str) -> Result<Option<Node>, TreeError>
        ensures found { IfOk result
            (λ found. found ≡ (outside T.seen self.old).stands path.now) }
        ensures ok { OnOk result (outside T.seen self.new ≡ outside T.seen self.old) }
        ensures err { OnErr result
            (outside T.seen self.new ≡ failed (outside T.seen self.old)) }
        ensures told { result ≢ Err the_error.Unknown }
        ensures turn { TakesTurn T.seen self.old self.new (is_ok result) }
    {
        let Fate::Passed = self.plan.advance() else {
            return Err(self.fail(TreeError::Broken));
        };
        match self.inner.read(path) {
            Ok(found) => Ok(found),
            Err(_) => Err(self.fail(TreeError::Broken)),
        }
    }

    fn has_folder(&mut self, path: &str) -> Result<bool, TreeError>
        ensures found { IfOk result
            (λ found. found ≡ is_folder ((outside T.seen self.old).stands path.now)) }
        ensures ok { OnOk result (outside T.seen self.new ≡ outside T.seen self.old) }
        ensures err { OnErr result
            (outside T.seen self.new ≡ failed (outside T.seen self.old)) }
        ensures told { result ≢ Err the_error.Unknown }
        ensures turn { TakesTurn T.seen self.old self.new (is_ok result) }
    {
        let Fate::Passed = self.plan.advance() else {
            return Err(self.fail(TreeError::Broken));
        };
        match self.inner.has_folder(path) {
            Ok(found) => Ok(found),
            Err(_) => Err(self.fail(TreeError::Broken)),
        }
    }

    fn list(&mut self, folder: &str) -> Result<Vec<String>, TreeError>
        ensures listed { IfOk result (λ found. (path : List ℕ) → IsListed found.items path
            ↔ (IsTrue (is_some ((outside T.seen self.old).stands path))
            × IsHeldIn path folder.now)) }
        ensures ok { OnOk result (outside T.seen self.new ≡ outside T.seen self.old) }
        ensures err { OnErr result
            (outside T.seen self.new ≡ failed (outside T.seen self.old)) }
        ensures told { result ≢ Err the_error.Unknown }
        ensures turn { TakesTurn T.seen self.old self.new (is_ok result) }
    {
        let Fate::Passed = self.plan.advance() else {
            return Err(self.fail(TreeError::Broken));
        };
        match self.inner.list(folder) {
            Ok(found) => Ok(found),
            Err(_) => Err(self.fail(TreeError::Broken)),
        }
    }

    fn write_new(&mut self, path: &str, bytes: &Rope) -> Result<(), TreeError>
        ensures can { OnOk result (CanDo (outside T.seen self.old).stands (Wrote path.now bytes.now)) }
        ensures ok { OnOk result
            (outside T.seen self.new ≡ done (outside T.seen self.old) (Wrote path.now bytes.now)) }
        ensures err { IfErr result (λ error.
            HasFailed (outside T.seen self.old) (Wrote path.now bytes.now) error (outside T.seen self.new)) }
        ensures turn { TakesTurn T.seen self.old self.new (is_ok result) }
        ensures denied { IsDoneIfDenied T.seen self.old self.new (Wrote path.now bytes.now) result }
    {
        match self.plan.advance() {
            Fate::Refused => Err(self.fail(TreeError::Broken)),
            Fate::Passed => match self.inner.write_new(path, bytes) {
                Ok(()) => Ok(()),
                Err(error) => Err(self.fail(error)),
            },
            Fate::Denied => match self.inner.write_new(path, bytes) {
                Ok(()) => Err(self.fail(TreeError::Unknown)),
                Err(error) => Err(self.fail(error)),
            },
        }
    }

    fn rename(&mut self, from: &str, to: &str) -> Result<(), TreeError>
        requires file { IsTrue (is_file ((outside T.seen self.old).stands from.now)) }
        requires apart { from.now ≢ to.now }
        ensures can { OnOk result (CanDo (outside T.seen self.old).stands (Renamed from.now to.now)) }
        ensures ok { OnOk result
            (outside T.seen self.new ≡ done (outside T.seen self.old) (Renamed from.now to.now)) }
        ensures err { IfErr result (λ error.
            HasFailed (outside T.seen self.old) (Renamed from.now to.now) error (outside T.seen self.new)) }
        ensures turn { TakesTurn T.seen self.old self.new (is_ok result) }
        ensures denied { IsDoneIfDenied T.seen self.old self.new (Renamed from.now to.now) result }
    {
        match self.plan.advance() {
            Fate::Refused => Err(self.fail(TreeError::Broken)),
            Fate::Passed => match self.inner.rename(from, to) {
                Ok(()) => Ok(()),
                Err(error) => Err(self.fail(error)),
            },
            Fate::Denied => match self.inner.rename(from, to) {
                Ok(()) => Err(self.fail(TreeError::Unknown)),
                Err(error) => Err(self.fail(error)),
            },
        }
    }

    fn remove(&mut self, path: &str) -> Result<(), TreeError>
        ensures can { OnOk result (CanDo (outside T.seen self.old).stands (Removed path.now)) }
        ensures ok { OnOk result
            (outside T.seen self.new ≡ done (outside T.seen self.old) (Removed path.now)) }
        ensures err { IfErr result (λ error.
            HasFailed (outside T.seen self.old) (Removed path.now) error (outside T.seen self.new)) }
        ensures turn { TakesTurn T.seen self.old self.new (is_ok result) }
        ensures denied { IsDoneIfDenied T.seen self.old self.new (Removed path.now) result }
    {
        match self.plan.advance() {
            Fate::Refused => Err(self.fail(TreeError::Broken)),
            Fate::Passed => match self.inner.remove(path) {
                Ok(()) => Ok(()),
                Err(error) => Err(self.fail(error)),
            },
            Fate::Denied => match self.inner.remove(path) {
                Ok(()) => Err(self.fail(TreeError::Unknown)),
                Err(error) => Err(self.fail(error)),
            },
        }
    }

    fn make_folder(&mut self, path: &str) -> Result<(), TreeError>
        ensures can { OnOk result (CanDo (outside T.seen self.old).stands (Made path.now)) }
        ensures ok { OnOk result
            (outside T.seen self.new ≡ done (outside T.seen self.old) (Made path.now)) }
        ensures err { IfErr result (λ error.
            HasFailed (outside T.seen self.old) (Made path.now) error (outside T.seen self.new)) }
        ensures turn { TakesTurn T.seen self.old self.new (is_ok result) }
        ensures denied { IsDoneIfDenied T.seen self.old self.new (Made path.now) result }
    {
        match self.plan.advance() {
            Fate::Refused => Err(self.fail(TreeError::Broken)),
            Fate::Passed => match self.inner.make_folder(path) {
                Ok(()) => Ok(()),
                Err(error) => Err(self.fail(error)),
            },
            Fate::Denied => match self.inner.make_folder(path) {
                Ok(()) => Err(self.fail(TreeError::Unknown)),
                Err(error) => Err(self.fail(error)),
            },
        }
    }

    fn sync_folder(&mut self, path: &str) -> Result<(), TreeError>
        ensures ok { OnOk result
            (outside T.seen self.new ≡ done (outside T.seen self.old) (Synced path.now)) }
        ensures err { OnErr result
            (outside T.seen self.new ≡ failed (outside T.seen self.old)) }
        ensures told { result ≢ Err the_error.Unknown }
        ensures turn { TakesTurn T.seen self.old self.new (is_ok result) }
    {
        match self.plan.advance() {
            Fate::Refused | Fate::Denied => Err(self.fail(TreeError::Broken)),
            Fate::Passed => match self.inner.sync_folder(path) {
                Ok(()) => Ok(()),
                Err(_) => Err(self.fail(TreeError::Broken)),
            },
        }
    }
}
