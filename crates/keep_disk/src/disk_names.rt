ghost use Rattle.std.specs.IoError.{error_kind};
ghost use Rattle.std.specs.Prelude.{◌≡◌, ◌≢◌, Err, IfErr, IfOk, None, Ok, Some};

use std::alloc::Global;
use std::fs::{File, Files};
use std::io::ErrorKind;
use std::{fs, io};

/// The names in a folder, but for those that aren't UTF-8: no key has one.
pub(crate) fn names_in<R: Files<File = File> + Alloc<A = Global> + Clone + Drop>(
    rt: &R,
    path: &str,
) -> io::Result<Vec<String>> {
    let mut names = Vec::new(rt.alloc());
    for entry in fs::read_dir(rt, path)? {
        if let Some(entry) = entry_in(entry)? {
            names.push(String::from_str(rt.alloc(), entry.file_name())?)?;
        }
    }
    Ok(names)
}

/// What a listing comes to next. A name that isn't UTF-8 is passed over, and any other error is one of the listing.
fn entry_in<E>(next: io::Result<E>) -> io::Result<Option<E>>
    ensures entry { IfOk next (λ entry. result ≡ Ok (Some entry)) }
    ensures no_text { IfErr next (λ error. error_kind error ≡ ErrorKind.InvalidFilename → result ≡ Ok None) }
    ensures broken { IfErr next (λ error. error_kind error ≢ ErrorKind.InvalidFilename → result ≡ Err error) }
{
    match next {
        Ok(entry) => Ok(Some(entry)),
        Err(error) if error.kind() == ErrorKind::InvalidFilename => Ok(None),
        Err(error) => Err(error),
    }
}

/// Whether a file of this name at the root is what an earlier run left under way.
pub(crate) fn is_leftover(name: &str) -> bool {
    match name.strip_prefix("tmp-") {
        Some(digits) => !digits.is_empty() && digits.bytes().all(|byte| byte.is_ascii_digit()),
        None => name == "tmp",
    }
}
