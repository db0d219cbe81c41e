ghost use Rattle.std.specs.Prelude.{◌≡◌, ◌++◌, IfOk, OnOk, option_map};
ghost use Rattle.keep_quoted.specs.Unquote.{bytes_of, unquoted};

use crate::piece::{Meaning, piece_at};
use std::alloc::{AllocError, Global};

/// The bytes of a name that a tree has: what Go's strconv.Unquote makes of the text in double quotes, `None` where that
/// is an error.
pub fn unquote(alloc: Global, text: &str) -> Result<Option<Vec<u8>>, AllocError>
    ensures { IfOk result (λ found. option_map (λ bytes. bytes.items) found ≡ unquoted text.now) }
{
    let mut bytes = Vec::new(alloc);
    let mut rest = text.as_bytes();
    while let Some((first, behind)) = rest.split_first() {
        let Some((meaning, more)) = piece_at(*first, behind) else {
            return Ok(None);
        };
        push_meaning(alloc, &mut bytes, meaning)?;
        rest = &behind[more..];
    }
    Ok(Some(bytes))
}

fn push_meaning(alloc: Global, bytes: &mut Vec<u8>, meaning: Meaning) -> Result<(), AllocError>
    ensures { OnOk result (bytes.new.items ≡ bytes.old.items ++ bytes_of meaning) }
{
    match meaning {
        Meaning::Byte(byte) => {
            bytes.push(byte)?;
            Ok(())
        }
        Meaning::Letter(letter) => {
            let mut text = String::new(alloc);
            text.push(letter)?;
            bytes.extend_from_slice(text.as_bytes())
        }
    }
}
