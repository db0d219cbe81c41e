ghost use Rattle.std.specs.Prelude.{◌≡◌, ◌++◌, IfOk, OnOk, map, option_map, option_to_list};
ghost use Rattle.std.specs.List.{filter_map};
ghost use Rattle.keep_catalog.specs.Files.{header_in, header_view, headers_in, readable};

use crate::catalog::Catalog;
use crate::file_reading::is_pack_memory;
use keep_names::{Blob, FileName, Id, Kind};
use keep_pack::read_header;
use keep_repo::Repo;
use std::alloc::{AllocError, Global};

impl<'a> Catalog<'a> {
    /// What each header that can be read says, the packs by name. Each is read anew.
    pub fn headers(&self, alloc: Global) -> Result<Vec<(Id, Vec<Blob>)>, AllocError>
        ensures { IfOk result (λ headers.
            map header_view headers.items ≡ headers_in self.now) }
    {
        let packs = self.repo.ids(Kind::Pack)?;
        headers_of(alloc, self.repo, &packs)
    }
}

/// The headers of those of the packs that can be read.
fn headers_of(alloc: Global, repo: &Repo, packs: &[Id]) -> Result<Vec<(Id, Vec<Blob>)>, AllocError>
    ensures { IfOk result (λ headers. map header_view headers.items
        ≡ filter_map (λ pack. readable pack (header_in repo.now pack)) packs.now) }
{
    let mut headers = Vec::new(alloc);
    for pack in packs {
        let header = pack_header(alloc, repo, *pack)?;
        add_found(&mut headers, header)?;
    }
    Ok(headers)
}

/// The header of a pack, if it can be read.
fn pack_header(alloc: Global, repo: &Repo, pack: Id) -> Result<Option<(Id, Vec<Blob>)>, AllocError>
    ensures { IfOk result (λ header. option_map header_view header
        ≡ readable pack (header_in repo.now pack)) }
{
    let Some(bytes) = repo.get(FileName::pack(pack)) else {
        return Ok(None);
    };
    match read_header(alloc, bytes.as_slice()) {
        Ok(entries) => Ok(Some((pack, entries))),
        Err(refusal) => {
            if is_pack_memory(refusal) {
                return Err(AllocError);
            }
            Ok(None)
        }
    }
}

/// Adds what was found, if something was.
pub(crate) fn add_found<T: Drop>(all: &mut Vec<T>, found: Option<T>) -> Result<(), AllocError>
    ensures { OnOk result (all.new.items ≡ all.old.items ++ option_to_list found) }
{
    if let Some(one) = found {
        all.push(one)?;
    }
    Ok(())
}
