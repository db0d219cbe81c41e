use crate::blob_pack::{Packed, pack_blob};
use crate::case_words;
use crate::states::state::State;
use crate::stop::Stop;
use keep_repo::Bytes;

/// Puts files and marks there, if the line asks for it.
pub(crate) fn answer(state: &mut State, verb: &str, rest: &str) -> Result<bool, Stop> {
    match verb {
        "put" => put(state, rest)?,
        "tree" => put_tree(state, rest)?,
        "remove" => state.remove(case_words::name(rest)?)?,
        "mark" => {
            let set = case_words::pack_mark(rest)?;
            state.mark(set.pack, set.mark.moment)?;
        }
        _ => return Ok(false),
    }
    Ok(true)
}

fn put(state: &mut State, rest: &str) -> Result<(), Stop> {
    let (name, bytes) = case_words::file(state.alloc, rest)?;
    state.put(name, Bytes::new(state.alloc, bytes)?)?;
    Ok(())
}

/// Puts a tree there, in a pack of its own that an index of its own lists.
fn put_tree(state: &mut State, tree: &str) -> Result<(), Stop> {
    let alloc = state.alloc;
    let Packed { blob, pack, index } = pack_blob(alloc, tree, 1, "tree")?;
    state.put(pack.0, Bytes::new(alloc, pack.1)?)?;
    state.put(index.0, Bytes::new(alloc, index.1)?)?;
    state.last = format!(in alloc; "{blob}")?;
    Ok(())
}
