use keep_repo::Repo;
use keep_shelf::{Key, Stock};
use std::alloc::{AllocError, Global};

/// The files of the stock by name, live or in the trash, with their bytes shared. It is only looked into for bytes that
/// are held already, so where two keys have one name either file will do.
pub(crate) fn files_held(alloc: Global, stock: &Stock, keys: &[Key]) -> Result<Repo, AllocError> {
    let mut held = Repo::new(alloc);
    for key in keys {
        if let Key::Live(name) | Key::Trash(_, name) = key {
            if let Some(bytes) = stock.bytes(*key)? {
                held.insert_file(*name, bytes)?;
            }
        }
    }
    Ok(held)
}
