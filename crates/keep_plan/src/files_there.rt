ghost use Rattle.std.specs.Prelude.{◌≡◌, ◌++◌, OnOk, option_to_list};
ghost use Rattle.keep_plan.specs.FilesThere as spec;

use keep_change::StoredFile;
use keep_names::{FileName, Id, Kind};
use keep_repo::Repo;
use std::alloc::AllocError;

/// Puts the files of this kind and these names behind the others, those that are there.
#[tactic(auto, unfolding(crate::specs::FilesThere::files_there))]
pub fn put_files(
    repo: &Repo,
    kind: Kind,
    ids: &[Id],
    files: &mut Vec<StoredFile>,
) -> Result<(), AllocError>
    ensures { OnOk result (files.new.items ≡ files.old.items ++ spec.files_there repo.now kind ids.now) }
{
    for id in ids {
        put_file(repo, FileName { kind, id: *id }, files)?;
    }
    Ok(())
}

/// Puts the file of this name behind the others, if it is there.
pub fn put_file(repo: &Repo, name: FileName, files: &mut Vec<StoredFile>) -> Result<(), AllocError>
    ensures { OnOk result (files.new.items ≡ files.old.items ++ option_to_list (spec.file_there repo.now name)) }
{
    let Some(bytes) = repo.get(name) else {
        return Ok(());
    };
    files.push(StoredFile::under(name, bytes.clone()?))?;
    Ok(())
}
