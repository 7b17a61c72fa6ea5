//! The program's inputs, and reads and writes that fail.

use crate::fakes::{Drip, FailingFlush, FailingReader, FailingWriter, Flood, Newlines};
use crate::outcome::{done, holds, refused, same};
use bench::{Failure, Input, InputFault, Outcome, Output, answer, bench, read_input};
use bench_commands::{Request, RunOptions, TextRequest};
use std::alloc::Global;
use std::io::{ErrorKind, Read, Write};
use std::process::Abort;

const RUN: [&str; 2] = ["nicbench", "run"];

const DEBUG: [&str; 2] = ["nicbench", "debug"];

const HASH: [&str; 2] = ["nicbench", "hash"];

const ASM: [&str; 2] = ["nicbench", "asm"];

const DIS: [&str; 2] = ["nicbench", "dis"];

const EEPROM: [&str; 2] = ["nicbench", "eeprom"];

const RUN_REQUEST: Request = Request::Text(TextRequest::Run(RunOptions {
    vfs: 0,
    fifo: 64,
    limit: 100_000,
}));

const HASH_REQUEST: Request = Request::Text(TextRequest::Hash);

const SCRIPT: &[u8] = b"w GPIE 1\nr GPIE\n";

const FAILED_SCRIPT: &[u8] = b"w GPIE 1\nr GPIE\nexpect 2\n";

const HASHED: &[u8] =
    b"6d5a56da255b0ec24167253d43a38fb0d0ca2bcbae7b30b477cb2da38030f20c6a42b73bbeac01fa
420995bba18e6450
420995bba18e64500aea06e6
";

const SESSION: &[u8] = b"w GPIE 1\nr GPIE\n%\nstep 2\nback 1\nshow GPIE\n";

const IMAGE_TEXT: &[u8] = b"size 128\nword 0 5\ncsr 0x05080 0x400\n";

const LOAD: [&str; 3] = ["nicbench", "eeprom", "--load"];

/// Returns the program's output and exit status for a reader.
pub fn ran<R: Read>(alloc: Global, words: &[&str], reader: &mut R) -> (Vec<u8>, Outcome) {
    let mut written = Vec::new(alloc);
    let mut output = Output::of(&mut written);
    let outcome = bench(alloc, &mut Input::of(reader), &mut output, words);
    (written, outcome)
}

/// Checks the program's output for a reader and its exit status.
fn answers<R: Read>(
    rt: &impl Abort,
    alloc: Global,
    words: &[&str],
    reader: &mut R,
    answer: &str,
    wanted: u8,
) {
    let (written, outcome) = ran(alloc, words, reader);
    holds(rt, answer, written.as_slice() == answer.as_bytes());
    holds(rt, answer, outcome == Outcome::Ended(wanted));
}

/// An input of 8,388,608 bytes is read; one more byte is too long.
#[test]
fn longest_input(rt: HostRuntime) {
    answers(&rt, rt.alloc(), &RUN, &mut Newlines(8_388_608), "ok 0\n", 0);
    let mut longer = Newlines(8_388_609);
    answers(&rt, rt.alloc(), &RUN, &mut longer, "refused TooLong\n", 2);
}

/// A command that reads text refuses bytes that aren't UTF-8. An input that is too long is reported first.
#[test]
fn no_text(rt: HostRuntime) {
    let mut bytes = b"\xff".as_slice();
    answers(&rt, rt.alloc(), &RUN, &mut bytes, "refused Input\n", 2);
    answers(&rt, rt.alloc(), &RUN, &mut Flood, "refused TooLong\n", 2);
    let mut bytes = b"\xff".as_slice();
    answers(&rt, rt.alloc(), &LOAD, &mut bytes, "refused OddLength\n", 2);
    answers(&rt, rt.alloc(), &LOAD, &mut Flood, "refused TooLong\n", 2);
}

/// Checks that a command refuses an endless reader, whether it returns single bytes or fills each buffer.
fn comes_to_no_end(rt: &impl Abort, alloc: Global, words: &[&str]) {
    answers(rt, alloc, words, &mut Drip, "refused Input\n", 2);
    answers(rt, alloc, words, &mut Flood, "refused TooLong\n", 2);
}

/// Each command that reads its input refuses endless readers.
#[test]
fn endless_readers(rt: HostRuntime) {
    let (rt, alloc) = (&rt, rt.alloc());
    comes_to_no_end(rt, alloc, &RUN);
    comes_to_no_end(rt, alloc, &DEBUG);
    comes_to_no_end(rt, alloc, &HASH);
    comes_to_no_end(rt, alloc, &ASM);
    comes_to_no_end(rt, alloc, &DIS);
    comes_to_no_end(rt, alloc, &EEPROM);
    comes_to_no_end(rt, alloc, &LOAD);
}

/// Returns a reader of a script that fails at the read with this number.
fn failing(reads: usize) -> FailingReader<'static> {
    FailingReader {
        bytes: SCRIPT,
        reads,
    }
}

/// Returns the bytes read from a reader, and whether a read failed.
fn read<R: Read + Drop>(alloc: Global, reader: R) -> (Result<Vec<u8>, InputFault>, bool) {
    let mut input = Input::of(reader);
    let read = read_input(alloc, &mut input);
    (read, input.has_failed())
}

/// Checks why a reader's input can't be read, and whether a read failed.
fn has_fault<R: Read + Drop>(
    rt: &impl Abort,
    alloc: Global,
    reader: R,
    wanted: InputFault,
    wanted_failed: bool,
) {
    let (read, has_failed) = read(alloc, reader);
    holds(rt, "why it isn't read", refused(rt, read) == wanted);
    holds(rt, "whether a read failed", has_failed == wanted_failed);
}

/// Each fault of an input is reported.
#[test]
fn input_faults(rt: HostRuntime) {
    let alloc = rt.alloc();
    has_fault(&rt, alloc, Flood, InputFault::TooLong, false);
    has_fault(&rt, alloc, failing(3), InputFault::Unread, true);
    has_fault(&rt, alloc, Drip, InputFault::Unread, false);
    let (input, _has_failed) = read(alloc, SCRIPT);
    holds(
        &rt,
        "a script is read",
        done(&rt, input).as_slice() == SCRIPT,
    );
}

/// An upper bound on the number of writes for an answer.
const MOST_WRITES: u32 = 1_000;

/// Returns a writer that accepts this many writes and fails at the next one, with an error of this kind.
fn writer(taken: u32, kind: ErrorKind) -> FailingWriter {
    FailingWriter {
        taken,
        kind,
        has_failed: false,
        later: 0,
    }
}

/// The words of a command line, an input, and the exit status for this command line and input.
type Case<'w, 's, 'b> = (&'w [&'s str], &'b [u8], u8);

/// Runs the program with a writer that fails with an error of this kind. If a write failed, the program exits with the
/// given status and doesn't write again. Otherwise the program exits with the status for its input. Returns whether a
/// write failed.
fn fails_at(
    rt: &impl Abort,
    alloc: Global,
    (words, input, own): Case<'_, '_, '_>,
    taken: u32,
    (kind, failed): (ErrorKind, u8),
) -> bool {
    let mut writer = writer(taken, kind);
    let mut output = Output::of(&mut writer);
    let outcome = bench(alloc, &mut Input::of(input), &mut output, words);
    let wanted = if output.has_failed() { failed } else { own };
    holds(rt, "how it ends", outcome == Outcome::Ended(wanted));
    same(rt, u64::from(output.flush(wanted)), u64::from(wanted));
    same(rt, u64::from(writer.later), 0);
    writer.has_failed
}

/// Makes each read fail in turn, from a reader that returns one byte at a time, including the read at the end. The
/// program reports only the failure.
fn is_unread_at_each(rt: &impl Abort, alloc: Global, (words, input, _own): Case<'_, '_, '_>) {
    for reads in 0..=input.len() {
        let mut reader = FailingReader {
            bytes: input,
            reads,
        };
        answers(rt, alloc, words, &mut reader, "refused Input\n", 2);
    }
}

/// Makes each write fail in turn. The status is 2, or 4 if the error is lack of memory.
fn is_unwritten_at_each(rt: &impl Abort, alloc: Global, case: Case<'_, '_, '_>) {
    let pipe = (ErrorKind::BrokenPipe, 2);
    let memory = (ErrorKind::OutOfMemory, 4);
    for taken in 0..MOST_WRITES {
        if !fails_at(rt, alloc, case, taken, pipe) {
            holds(rt, "there are writes", taken > 0);
            return;
        }
        holds(rt, "it fails", fails_at(rt, alloc, case, taken, memory));
    }
    holds(rt, "the writes come to an end", false);
}

/// Makes each read and each write of a command fail in turn.
fn fails_at_each(rt: &impl Abort, alloc: Global, case: Case<'_, '_, '_>) {
    is_unread_at_each(rt, alloc, case);
    is_unwritten_at_each(rt, alloc, case);
}

/// Returns the program's output for the words of a command line and the bytes of an input.
fn made(alloc: Global, words: &[&str], bytes: &[u8]) -> Vec<u8> {
    let mut reader = bytes;
    let (written, _outcome) = ran(alloc, words, &mut reader);
    written
}

/// Each command that reads its input handles failing reads and writes. `asm` and `eeprom` create the object for `dis`
/// and the image for `--load`.
#[test]
fn reads_and_writes_of_each_command_fail(rt: HostRuntime) {
    let (rt, alloc) = (&rt, rt.alloc());
    fails_at_each(rt, alloc, (&RUN, SCRIPT, 0));
    fails_at_each(rt, alloc, (&RUN, FAILED_SCRIPT, 1));
    fails_at_each(rt, alloc, (&DEBUG, SESSION, 0));
    fails_at_each(rt, alloc, (&HASH, HASHED, 0));
    fails_at_each(rt, alloc, (&ASM, SCRIPT, 0));
    let object = made(alloc, &ASM, SCRIPT);
    fails_at_each(rt, alloc, (&DIS, &object, 0));
    fails_at_each(rt, alloc, (&EEPROM, IMAGE_TEXT, 0));
    let image = made(alloc, &EEPROM, IMAGE_TEXT);
    fails_at_each(rt, alloc, (&LOAD, &image, 0));
}

/// Flushing a writer fails with an error of this kind. The error determines the status, and nothing more is written.
fn flush_fails(rt: &impl Abort, kind: ErrorKind, wanted: u8) {
    let mut output = Output::of(FailingFlush(kind));
    same(rt, u64::from(output.flush(1)), u64::from(wanted));
    holds(rt, "it has failed", output.has_failed());
    same(rt, u64::from(output.failed_status()), u64::from(wanted));
    same(rt, u64::from(output.flush(1)), 1);
}

#[test]
fn failing_flushes(rt: HostRuntime) {
    flush_fails(&rt, ErrorKind::BrokenPipe, 2);
    flush_fails(&rt, ErrorKind::OutOfMemory, 4);
}

/// Returns the status of a request that reads from a reader, and whether a write failed.
fn answered<R: Read + Drop, W: Write + Drop>(
    alloc: Global,
    reader: R,
    writer: W,
    request: Request,
) -> (Result<u8, Failure>, bool) {
    let mut output = Output::of(writer);
    let answered = answer(alloc, &mut Input::of(reader), &mut output, request);
    (answered, output.has_failed())
}

/// Checks that `answer` reports whether reading or writing failed.
fn tells_failures(rt: &impl Abort, alloc: Global, request: Request, input: &[u8]) {
    let mut written = Vec::new(alloc);
    let (read, _) = answered(alloc, failing(1), &mut written, request);
    holds(rt, "a read", refused(rt, read) == Failure::Read);
    holds(rt, "nothing is written", written.is_empty());
    let pipe = writer(0, ErrorKind::BrokenPipe);
    let (write, has_failed) = answered(alloc, input, pipe, request);
    holds(rt, "a write", refused(rt, write) == Failure::Write);
    holds(rt, "it has failed", has_failed);
    let (status, has_failed) = answered(alloc, input, &mut written, request);
    same(rt, u64::from(done(rt, status)), 0);
    holds(rt, "none has failed", !has_failed);
}

#[test]
fn failures(rt: HostRuntime) {
    tells_failures(&rt, rt.alloc(), RUN_REQUEST, SCRIPT);
    tells_failures(&rt, rt.alloc(), HASH_REQUEST, HASHED);
}
