//! The standard streams of a program.
#![tactic(auto)]

use std::fs::File;
use std::os::fd::AsRawFd;
use std::{io, mem};

/// How many descriptors are standard input, output and error. They are the first ones.
const STREAMS: i32 = 3;

/// Opens something in the place of each standard stream that is closed.
///
/// The system gives a new file the first descriptor that is free. One of a repository that got that of a stream would be
/// read as input, or have answers written into it. What is opened here can't be read and can't be written, so the program
/// ends as it does where a stream can't be.
pub fn fill_streams(rt: &HostRuntime) -> io::Result<()> {
    for _ in 0..STREAMS {
        let filler = File::open(rt, "/")?;
        if filler.as_raw_fd() >= STREAMS {
            break;
        }
        mem::forget(filler);
    }
    Ok(())
}
