use anyhow::Result;
use std::alloc::Global;
use std::fs::{self, File, Files};

/// Where the kernel is asked to forget which pages of this process were read or written.
const FORGET: &str = "/proc/self/clear_refs";
/// Where it says of each mapping how many were since then.
const SAYS: &str = "/proc/self/smaps";

/// What stands there of a mapping of no file: no device, no inode.
const NO_FILE: &str = " 00:00 0 ";

/// No memory is gone through yet. Answers whether the kernel keeps such marks: not every one does.
pub(crate) fn forget<R: Files<File = File>>(rt: &R) -> bool {
    fs::write(rt, FORGET, "1").is_ok()
}

/// How many KiB of memory were read or written since then, by whole pages. What is mapped of files, as the program
/// itself, is left out.
pub(crate) fn gone_through<R: Files<File = File> + Alloc<A = Global>>(rt: &R) -> Result<u64> {
    let text = fs::read_to_string(rt, SAYS)?;
    let mut kib: u64 = 0;
    let mut is_own = false;
    for line in text.as_str().lines() {
        let (first, rest) = line.split_once(' ').unwrap_or((line, ""));
        if !first.ends_with(':') {
            is_own = rest.contains(NO_FILE);
        } else if first == "Referenced:" && is_own {
            let more: u64 = rest.trim_end_matches(" kB").trim().parse()?;
            kib = kib.saturating_add(more);
        }
    }
    Ok(kib)
}
