//! Readers and writers that fail, or never end.

use std::io::{Error, ErrorKind, Read, Result, Write};

/// A reader that returns this many newlines.
#[derive(Drop)]
pub struct Newlines(pub usize);

impl Read for Newlines {
    fn read(&mut self, buf: &mut [u8]) -> Result<usize> {
        let count = self.0.min(buf.len());
        for byte in buf[..count].iter_mut() {
            *byte = b'\n';
        }
        self.0 -= count;
        Ok(count)
    }
}

/// A reader that returns a newline at each read and never ends.
#[derive(Drop)]
pub struct Drip;

impl Read for Drip {
    fn read(&mut self, buf: &mut [u8]) -> Result<usize> {
        match buf.first_mut() {
            Some(byte) => {
                *byte = b'\n';
                Ok(1)
            }
            None => Ok(0),
        }
    }
}

/// A reader that fills each buffer and never ends.
#[derive(Drop)]
pub struct Flood;

impl Read for Flood {
    fn read(&mut self, buf: &mut [u8]) -> Result<usize> {
        for byte in buf.iter_mut() {
            *byte = 0xff;
        }
        Ok(buf.len())
    }
}

/// A reader that returns one byte at each read, and fails at the read with this number, from 0.
#[derive(Drop)]
pub struct FailingReader<'a> {
    pub bytes: &'a [u8],
    pub reads: usize,
}

impl<'a> Read for FailingReader<'a> {
    fn read(&mut self, buf: &mut [u8]) -> Result<usize> {
        if self.reads == 0 {
            return Err(Error::from(ErrorKind::Other));
        }
        self.reads -= 1;
        match self.bytes.split_first() {
            Some((byte, rest)) => match buf.first_mut() {
                Some(at) => {
                    *at = *byte;
                    self.bytes = rest;
                    Ok(1)
                }
                None => Ok(0),
            },
            None => Ok(0),
        }
    }
}

/// A writer that accepts this many writes, fails at the next write with an error of this kind, and counts the writes
/// after that failure.
#[derive(Drop)]
pub struct FailingWriter {
    pub taken: u32,
    pub kind: ErrorKind,
    pub has_failed: bool,
    pub later: u32,
}

impl Write for FailingWriter {
    fn write(&mut self, buf: &[u8]) -> Result<usize> {
        if self.has_failed {
            self.later = self.later.saturating_add(1);
        }
        if self.taken == 0 {
            self.has_failed = true;
            return Err(Error::from(self.kind));
        }
        self.taken -= 1;
        Ok(buf.len())
    }

    fn flush(&mut self) -> Result<()> {
        if self.has_failed {
            self.later = self.later.saturating_add(1);
        }
        Ok(())
    }
}

/// A writer that accepts each write and fails when it is flushed, with an error of this kind.
#[derive(Drop)]
pub struct FailingFlush(pub ErrorKind);

impl Write for FailingFlush {
    fn write(&mut self, buf: &[u8]) -> Result<usize> {
        Ok(buf.len())
    }

    fn flush(&mut self) -> Result<()> {
        Err(Error::from(self.0))
    }
}
