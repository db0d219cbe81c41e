use crate::host_names::names_in;
use std::alloc::Global;
use std::fs::{File, Files};
use std::os::unix::fs::MetadataExt;
use std::{fs, io};

/// The machine's name, as the kernel has it.
pub fn host_name<R: Files<File = File> + Alloc<A = Global>>(rt: &R) -> io::Result<String> {
    let text = fs::read_to_string(rt, "/proc/sys/kernel/hostname")?;
    Ok(String::from_str(rt.alloc(), text.as_str().trim())?)
}

/// The number of the user who runs this process.
pub fn user_id<R: Files>(rt: &R) -> io::Result<u32> {
    Ok(fs::metadata(rt, "/proc/self")?.uid())
}

/// The name of the user who runs this process, or the number where none is known.
pub fn user_name<R: Files<File = File> + Alloc<A = Global>>(rt: &R) -> io::Result<String> {
    let number = user_id(rt)?;
    let names = names_in(rt, "/etc/passwd")?;
    match names.get(&number) {
        Some(name) => Ok(name.clone()?),
        None => Ok(format!(in rt.alloc(); "{number}")?),
    }
}
