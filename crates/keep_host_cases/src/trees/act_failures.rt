ghost use Rattle.std.specs.Prelude.{◌≡◌};
ghost use Rattle.keep_memory_files.specs.Failing.{inner_of};

use keep_files::FileTree;
use keep_memory_files::FailingTree;
use std::fmt;

/// Which of the calls that are to come fail. The first of them is number 1.
#[derive(Clone, Copy)]
pub(crate) enum Plan {
    /// The one of this number. At 0 it is none.
    Once(u64),
    /// The one of this number and all that follow it.
    Onward(u64),
    /// The one of this number, which is done first.
    Done(u64),
}

impl Plan {
    /// The tree behind one that fails so.
    pub fn over<T: FileTree>(self, tree: T) -> FailingTree<T>
        ensures { inner_of result ≡ tree }
    {
        match self {
            Plan::Once(k) => FailingTree::once(tree, k),
            Plan::Onward(k) => FailingTree::onward(tree, k),
            Plan::Done(k) => FailingTree::once_done(tree, k),
        }
    }
}

impl fmt::Display for Plan {
    fn fmt<W: fmt::Write>(&self, f: &mut fmt::Formatter<W>) -> fmt::Result {
        match self {
            Plan::Once(k) => write!(f, "once {k}"),
            Plan::Onward(k) => write!(f, "onward {k}"),
            Plan::Done(k) => write!(f, "done {k}"),
        }
    }
}
