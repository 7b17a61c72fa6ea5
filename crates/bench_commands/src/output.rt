//! A writer that remembers whether a write has failed.
ghost use Rattle.std.specs.Prelude.{◌≡◌, ◌⊎◌, Err, IfSome, OnOk, false, true};
ghost use Rattle.std.specs.Io.KnownBytes.{Appends, Keeps};
ghost use Rattle.bench_commands.specs.Answer.{FailsToWrite};
ghost use Rattle.bench_commands.specs.Ending.{IsUnwritten, unwritten_status};

use crate::failure::Failure;
use crate::status::{FAILED, NO_MEMORY};
use std::fmt::Display;
use std::io::{Error, ErrorKind, Write};

/// A writer, whether a write to it has failed, and whether that write failed for lack of memory. After a failed write,
/// nothing more is written to the writer.
#[derive(Debug, Drop)]
pub struct Output<W> {
    writer: W,
    has_failed: bool,
    lacked_memory: bool,
}

impl<W: Write> Output<W> {
    /// Wraps a writer. No write has failed yet.
    pub fn of(writer: W) -> Output<W>
        ensures { result ≡ record { writer = writer; has_failed = false; lacked_memory = false } }
    {
        Output {
            writer,
            has_failed: false,
            lacked_memory: false,
        }
    }

    /// Whether a write has failed.
    pub fn has_failed(&self) -> bool
        ensures { result ≡ self.now.has_failed }
    {
        let Output { has_failed, .. } = self;
        *has_failed
    }

    /// Returns the exit status after a failed write: `NO_MEMORY` if the writer's error is `OutOfMemory`, otherwise
    /// `FAILED`.
    pub fn failed_status(&self) -> u8
        ensures value { result ≡ unwritten_status self.now.lacked_memory }
        // 4 or 2
        ensures either { (result ≡ 2) ⊎ (result ≡ 4) }
    {
        let Output { lacked_memory, .. } = self;
        if *lacked_memory { NO_MEMORY } else { FAILED }
    }

    /// Records that a write failed with this error.
    fn fail(&mut self, error: &Error) -> Failure
        ensures failure { result ≡ Failure.Write }
        ensures writer { self.new.writer ≡ self.old.writer }
        ensures failed { self.new.has_failed ≡ true }
    {
        self.has_failed = true;
        self.lacked_memory = matches!(error.kind(), ErrorKind::OutOfMemory);
        Failure::Write
    }

    /// Writes a value as text. Fails only with `Failure::Write`: if this write fails, or if an earlier write failed. If
    /// an earlier write failed, nothing is written.
    pub fn write<D: Display + Drop>(&mut self, text: D) -> Result<(), Failure>
        ensures ok { OnOk result (IfSome (D.output text)
            (Appends (W.contents self.old.writer) (W.contents self.new.writer))) }
        ensures kept { OnOk result (self.new.has_failed ≡ self.old.has_failed) }
        ensures err { FailsToWrite result self.new.has_failed }
        ensures closed { self.old.has_failed ≡ true → (result ≡ Err Failure.Write) × (self.new ≡ self.old) }
    {
        if self.has_failed {
            return Err(Failure::Write);
        }
        match self.writer.write_fmt(text) {
            Ok(()) => Ok(()),
            Err(error) => Err(self.fail(&error)),
        }
    }

    /// Writes these bytes. If an earlier write failed, fails with `Failure::Write` and writes nothing.
    pub(crate) fn write_bytes(&mut self, bytes: &[u8]) -> Result<(), Failure>
        ensures ok { OnOk result (Appends (W.contents self.old.writer) (W.contents self.new.writer)
            bytes.now) }
        ensures kept { OnOk result (self.new.has_failed ≡ self.old.has_failed) }
        ensures err { FailsToWrite result self.new.has_failed }
        ensures closed { self.old.has_failed ≡ true → (result ≡ Err Failure.Write) × (self.new ≡ self.old) }
    {
        if self.has_failed {
            return Err(Failure::Write);
        }
        match self.writer.write_all(bytes) {
            Ok(()) => Ok(()),
            Err(error) => Err(self.fail(&error)),
        }
    }

    /// Flushes the writer and returns the exit status: the given status, or the status for a failed write (2 or 4) if
    /// flushing fails. The writer keeps everything written to it. If an earlier write failed, nothing is flushed, and
    /// the given status is returned.
    pub fn flush(&mut self, status: u8) -> u8
        ensures bytes { self.old.has_failed ≡ false
            → Keeps (W.contents self.old.writer) (W.contents self.new.writer) }
        ensures ends { self.old.has_failed ≡ false
            → ((result ≡ status) × (self.new.has_failed ≡ false)) ⊎ IsUnwritten self.new result }
        ensures closed { self.old.has_failed ≡ true → (result ≡ status) × (self.new ≡ self.old) }
    {
        if self.has_failed {
            return status;
        }
        match self.writer.flush() {
            Ok(()) => status,
            Err(error) => {
                let _failure = self.fail(&error);
                self.failed_status()
            }
        }
    }
}
