ghost use Rattle.std.specs.Prelude.{◌≡◌, ◌∷◌, [], ◌++◌, IfOk, OnOk, map, string_bytes};
ghost use Rattle.keep_sources.specs.Met.{below, unsaid};
ghost use Rattle.keep_sources.specs.Took.{skip_view};

use crate::receives::{Receives, Stop};
use crate::skipped::{Skipped, Why};
use crate::source::Source;
use crate::taking::Taking;
use std::alloc::{AllocError, Global};

/// The path of a name in a folder, which may be the root.
pub(crate) fn path_of(alloc: Global, folder: &str, name: &str) -> Result<String, AllocError>
    ensures { IfOk result (λ path. string_bytes path ≡ below folder.now name.now) }
{
    if folder.is_empty() {
        String::from_str(alloc, name)
    } else {
        format!(in alloc; "{folder}/{name}")
    }
}

impl<S: Source, A: Receives> Taking<S, A> {
    /// Names what isn't taken, or not as it was seen.
    pub(crate) fn skip(&mut self, path: String, why: Why) -> Result<(), Stop>
        ensures archive { self.new.archive ≡ self.old.archive }
        ensures named { OnOk result (map skip_view self.new.skipped.items
            ≡ map skip_view self.old.skipped.items ++ (string_bytes path, why) ∷ []) }
    {
        self.note(Skipped { path, why })?;
        Ok(())
    }

    fn note(&mut self, skipped: Skipped) -> Result<(), AllocError>
        ensures archive { self.new.archive ≡ self.old.archive }
        ensures noted { OnOk result (self.new.skipped.items ≡ self.old.skipped.items ++ skipped ∷ []) }
    {
        self.skipped.push(skipped)?;
        Ok(())
    }

    /// Names a folder in which so many names can't be said, if there are any.
    pub(crate) fn name_unsaid(&mut self, folder: &str, count: u64) -> Result<(), Stop>
        ensures archive { self.new.archive ≡ self.old.archive }
        ensures named { OnOk result (map skip_view self.new.skipped.items
            ≡ map skip_view self.old.skipped.items ++ unsaid folder.now count) }
    {
        if count == 0 {
            return Ok(());
        }
        let path = String::from_str(self.alloc, folder)?;
        self.skip(path, Why::Unsayable(count))
    }
}
