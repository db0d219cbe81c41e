use keep_targets::Owner;
use std::fs::Files;
use std::os::unix::fs::MetadataExt;
use std::{fs, io};

/// To whom belongs what this run makes: its own process in `/proc` does.
pub fn caller<R: Files>(rt: &R) -> io::Result<Owner> {
    let own = fs::metadata(rt, "/proc/self")?;
    Ok(Owner {
        uid: own.uid(),
        gid: own.gid(),
    })
}
