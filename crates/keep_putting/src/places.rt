ghost use Rattle.std.specs.Prelude.{◌≡◌, ◌⊎◌, Err, IfOk, List, None, OnErr, OnOk, option_copied, string_bytes, ℕ};
ghost use Rattle.keep_files.specs.Path.{LiesRightIn};
ghost use Rattle.keep_putting.specs.Places.{HasName, IsPlaceOf, placed, root_alone};
ghost use Rattle.keep_putting.specs.declared.left_out.Why as the_why_type;
ghost use Rattle.keep_putting.specs.declared.left_out.Why.TheVariants as the_why;
ghost use Rattle.keep_putting.specs.declared.places.Unplaced.TheVariants as the_unplaced;

use crate::left_out::Why;
use crate::wanted::Wanted;
use keep_files::home_of;
use keep_tree::is_name;
use std::alloc::{AllocError, Global};
use std::collections::BTreeMap;

/// Where the folders of a snapshot were made: by their paths there, the paths below the root.
#[derive(Drop)]
pub(crate) struct Places {
    alloc: Global,
    folders: BTreeMap<String, String>,
}

/// Why something has no place.
#[derive(Clone, Copy)]
pub(crate) enum Unplaced {
    Left(Why),
    Memory,
}

impl From<AllocError> for Unplaced {
    ghost use Rattle.std.specs.Prelude.{◌≡◌};
    ghost use Rattle.keep_putting.specs.declared.places.Unplaced.TheVariants.{Memory};

    ghost from_gives = { λ _ error. error ≡ Memory };

    fn from(_error: AllocError) -> Unplaced {
        Unplaced::Memory
    }
}

impl Places {
    ghost use Rattle.keep_putting.specs.Made.{folders_in};

    /// The root alone.
    pub(crate) fn new(alloc: Global) -> Result<Places, AllocError>
        ensures { IfOk result (λ places. folders_in places ≡ root_alone) }
    {
        let mut folders = BTreeMap::new(alloc);
        folders.insert(String::new(alloc), String::new(alloc))?;
        Ok(Places { alloc, folders })
    }

    /// Where the folder of this path was made, if it was.
    pub(crate) fn find(&self, path: &str) -> Option<&str>
        ensures { option_copied result ≡ folders_in self.now path.now }
    {
        match self.folders.get(path) {
            Some(place) => Some(place.as_str()),
            None => None,
        }
    }

    /// Notes where the folder of this path was made.
    pub(crate) fn note(&mut self, path: &str, place: String) -> Result<(), AllocError>
        ensures ok { OnOk result (folders_in self.new ≡ placed (folders_in self.old) path.now (string_bytes place)) }
        ensures err { OnErr result (folders_in self.new ≡ folders_in self.old) }
    {
        let path = String::from_str(self.alloc, path)?;
        self.folders.insert(path, place)?;
        Ok(())
    }

    /// Where this is to be put: below the folder that holds it, which was made.
    pub(crate) fn place_of(&self, wanted: &Wanted) -> Result<String, Unplaced>
        ensures placed { IfOk result (λ place. IsPlaceOf (folders_in self.now) wanted.now (string_bytes place)) }
        ensures unnamed { result ≡ Err (the_unplaced.Left the_why.BadName) → HasName wanted.now → ⊥ }
        ensures homeless { result ≡ Err (the_unplaced.Left the_why.NoFolder)
            → (home : List ℕ) → LiesRightIn (string_bytes wanted.now.path) home → folders_in self.now home ≡ None }
        ensures told { (why : the_why_type.Why) → result ≡ Err (the_unplaced.Left why)
            → (why ≡ the_why.BadName) ⊎ (why ≡ the_why.NoFolder) }
    {
        let Some(name) = &wanted.name else {
            return Err(Unplaced::Left(Why::BadName));
        };
        if !is_name(name.as_str()) {
            return Err(Unplaced::Left(Why::BadName));
        }
        let Some(home) = home_of(wanted.path.as_str()) else {
            return Err(Unplaced::Left(Why::NoFolder));
        };
        let Some(folder) = self.find(home) else {
            return Err(Unplaced::Left(Why::NoFolder));
        };
        Ok(format!(in self.alloc; "{folder}/{name}")?)
    }
}
