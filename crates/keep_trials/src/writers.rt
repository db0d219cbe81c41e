use std::io::{self, ErrorKind, Write};

/// Takes one byte a call, each after a call that was interrupted, and no more than it has room for.
#[derive(Drop)]
pub struct Narrow {
    pub held: Vec<u8>,
    pub room: usize,
    pub interrupted: bool,
}

impl Write for Narrow {
    fn write(&mut self, buf: &[u8]) -> io::Result<usize> {
        self.interrupted = !self.interrupted;
        if self.interrupted {
            return Err(io::Error::from(ErrorKind::Interrupted));
        }
        if buf.is_empty() || self.room == 0 {
            return Ok(0);
        }
        self.held.push(buf[0])?;
        self.room -= 1;
        Ok(1)
    }

    fn flush(&mut self) -> io::Result<()> {
        Ok(())
    }
}

/// Takes what it is given at once, where that is one line.
#[derive(Drop)]
pub struct ByLine {
    pub held: Vec<u8>,
}

impl Write for ByLine {
    fn write(&mut self, buf: &[u8]) -> io::Result<usize> {
        let Some((last, before)) = buf.split_last() else {
            return Ok(0);
        };
        if *last != b'\n' || before.contains(last) {
            return Err(io::Error::from(ErrorKind::Other));
        }
        self.held.extend_from_slice(buf)?;
        Ok(buf.len())
    }

    fn flush(&mut self) -> io::Result<()> {
        Ok(())
    }
}

/// Takes so many bytes, knows how much it held at each flush, and fails at one after so many.
#[derive(Drop)]
pub struct Flushed {
    pub held: Vec<u8>,
    pub room: usize,
    pub lengths: Vec<usize>,
    pub flushes: usize,
}

impl Write for Flushed {
    fn write(&mut self, buf: &[u8]) -> io::Result<usize> {
        if self.room < buf.len() {
            return Err(io::Error::from(ErrorKind::Other));
        }
        self.held.extend_from_slice(buf)?;
        self.room -= buf.len();
        Ok(buf.len())
    }

    fn flush(&mut self) -> io::Result<()> {
        if self.lengths.len() == self.flushes {
            return Err(io::Error::from(ErrorKind::Other));
        }
        self.lengths.push(self.held.len())?;
        Ok(())
    }
}
