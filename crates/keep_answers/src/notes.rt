ghost use Rattle.std.specs.Prelude.{◌≡◌, OnErr, OnOk, option_copied};

use keep_repo::Repo;
use std::alloc::{AllocError, Global};
use std::collections::BTreeMap;

/// The repositories that were noted, by the names that they were noted under.
#[derive(Drop)]
pub(crate) struct Notes {
    alloc: Global,
    held: BTreeMap<String, Repo>,
}

impl Notes {
    ghost use Rattle.keep_answers.specs.State.{no_notes, noted_under, notes_of};

    pub fn new(alloc: Global) -> Notes
        ensures { notes_of result ≡ no_notes }
    {
        Notes {
            alloc,
            held: BTreeMap::new(alloc),
        }
    }

    /// The repository that was noted last under the name.
    pub fn get(&self, name: &str) -> Option<&Repo>
        ensures { option_copied result ≡ notes_of self.now name.now }
    {
        self.held.get(name)
    }

    /// Notes the repository, in the place of an older one of the name.
    pub fn insert(&mut self, name: &str, repo: Repo) -> Result<(), AllocError>
        ensures ok { OnOk result (notes_of self.new ≡ noted_under name.now repo (notes_of self.old)) }
        ensures err { OnErr result (notes_of self.new ≡ notes_of self.old) }
    {
        let key = String::from_str(self.alloc, name)?;
        self.held.insert(key, repo)?;
        Ok(())
    }
}
