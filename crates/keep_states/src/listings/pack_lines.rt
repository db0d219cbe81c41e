use crate::blob_pack::{Packed, pack_blob};
use crate::case_words;
use crate::listings::state::State;
use crate::stop::Stop;
use keep_names::FileName;

/// Puts files there, if the line asks for it.
pub(crate) fn answer(state: &mut State, verb: &str, rest: &str) -> Result<bool, Stop> {
    match verb {
        "tree" => put_blob(state, rest, 1, "tree")?,
        "data" => put_blob(state, rest, 0, "data")?,
        "snapshot" => {
            let (id, text) = case_words::pair(rest)?;
            let bytes = Vec::from_slice(state.alloc, text.as_bytes())?;
            state.put(FileName::snapshot(case_words::id(id)?), bytes)?;
        }
        _ => return Ok(false),
    }
    Ok(true)
}

/// Puts a blob there, in a pack of its own that an index of its own lists.
fn put_blob(state: &mut State, text: &str, number: u8, word: &str) -> Result<(), Stop> {
    let Packed { blob, pack, index } = pack_blob(state.alloc, text, number, word)?;
    state.put(pack.0, pack.1)?;
    state.put(index.0, index.1)?;
    state.last = format!(in state.alloc; "{blob}")?;
    Ok(())
}
