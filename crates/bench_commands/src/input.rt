//! A reader that counts its reads and remembers whether a read has failed.
ghost use Rattle.std.specs.Prelude.{◌≡◌, ◌+◌, ◌<◌, OnErr, OnOk, false, true};
ghost use Rattle.std.specs.Io.{ReadsAtMost};
ghost use Rattle.std.specs.Io.KnownBytes.{ReadConsumes};

use std::io::{Read, Result};

/// The maximum number of reads from an input.
pub const READS: u32 = 1_000_000;

/// A reader, the number of reads made from it, and whether one of these reads failed.
#[derive(Debug, Drop)]
pub struct Input<R> {
    reader: R,
    reads: u32,
    has_failed: bool,
}

impl<R: Read> Input<R> {
    /// Wraps a reader. The count of reads is 0, and no read has failed yet.
    pub fn of(reader: R) -> Input<R>
        ensures { result ≡ record { reader = reader; reads = 0; has_failed = false } }
    {
        Input {
            reader,
            reads: 0,
            has_failed: false,
        }
    }

    /// Whether a read has failed.
    pub fn has_failed(&self) -> bool
        ensures { result ≡ self.now.has_failed }
    {
        let Input { has_failed, .. } = self;
        *has_failed
    }

    /// Resets the count of reads to 0, and forgets whether a read has failed.
    pub(crate) fn begin(&mut self)
        ensures { self.new ≡ record self.old { reads = 0; has_failed = false } }
    {
        self.reads = 0;
        self.has_failed = false;
    }

    /// Reads into the buffer and returns the number of bytes read.
    pub(crate) fn read(&mut self, buffer: &mut [u8]) -> Result<usize>
        requires { self.old.reads < READS }
        ensures bound { ReadsAtMost result buffer.new }
        ensures bytes { ReadConsumes (R.remaining self.old.reader) (R.remaining self.new.reader)
            result buffer.new }
        ensures counted { self.new.reads ≡ self.old.reads + 1 }
        ensures kept { OnOk result (self.new.has_failed ≡ self.old.has_failed) }
        ensures failed { OnErr result (self.new.has_failed ≡ true) }
    {
        self.reads += 1;
        match self.reader.read(buffer) {
            Ok(count) => Ok(count),
            Err(error) => {
                self.has_failed = true;
                Err(error)
            }
        }
    }
}
