use std::io::{self, ErrorKind, Read};

/// Gives one byte a read, each after a read that was interrupted, and may fail at the end.
#[derive(Drop)]
pub struct Slow<'a> {
    pub bytes: &'a [u8],
    pub interrupted: bool,
    pub fails: bool,
}

impl Read for Slow<'_> {
    fn read(&mut self, buf: &mut [u8]) -> io::Result<usize> {
        self.interrupted = !self.interrupted;
        if self.interrupted {
            return Err(io::Error::from(ErrorKind::Interrupted));
        }
        let Some((first, rest)) = self.bytes.split_first() else {
            return if self.fails {
                Err(io::Error::from(ErrorKind::Other))
            } else {
                Ok(0)
            };
        };
        if buf.is_empty() {
            return Ok(0);
        }
        buf[0] = *first;
        self.bytes = rest;
        Ok(1)
    }
}

/// Gives comments without end.
#[derive(Drop)]
pub struct Endless;

impl Read for Endless {
    fn read(&mut self, buf: &mut [u8]) -> io::Result<usize> {
        buf.fill(b'#');
        if let Some(last) = buf.last_mut() {
            *last = b'\n';
        }
        Ok(buf.len())
    }
}

/// Gives bytes without end, and no line end among them.
#[derive(Drop)]
pub struct EndlessLine;

impl Read for EndlessLine {
    fn read(&mut self, buf: &mut [u8]) -> io::Result<usize> {
        buf.fill(b'#');
        Ok(buf.len())
    }
}

/// Is interrupted without end.
#[derive(Drop)]
pub struct Interrupted;

impl Read for Interrupted {
    fn read(&mut self, _buf: &mut [u8]) -> io::Result<usize> {
        Err(io::Error::from(ErrorKind::Interrupted))
    }
}

/// Gives one line a read.
#[derive(Drop)]
pub struct LineByLine<'a> {
    pub bytes: &'a [u8],
}

impl Read for LineByLine<'_> {
    fn read(&mut self, buf: &mut [u8]) -> io::Result<usize> {
        let end = match self.bytes.iter().position(|byte| *byte == b'\n') {
            Some(place) => place + 1,
            None => self.bytes.len(),
        };
        let count = end.min(buf.len());
        let (line, rest) = self.bytes.split_at(count);
        buf[..count].copy_from_slice(line);
        self.bytes = rest;
        Ok(count)
    }
}
