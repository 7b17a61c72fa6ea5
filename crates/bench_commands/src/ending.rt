//! The complete program: reads the arguments, runs the command and returns the exit status.
ghost use Rattle.std.specs.Prelude.{◌≡◌, ◌⊎◌, None, codes, false, map};
ghost use Rattle.clap.specs.Words.{kind_of};
ghost use Rattle.bench_commands.specs.Asked.{Asks, refusal_of};
ghost use Rattle.bench_commands.specs.Answer.{no_memory, refused_as};
ghost use Rattle.bench_commands.specs.Ending.{EndsAs, EndsOf, EndsSaying, EndsWords, IsLeft, IsUnwritten};
ghost use Rattle.bench_commands.specs.Ending.{unwritten_status, words_status};
ghost use Rattle.bench_commands.specs.Reading.{CouldNotBeRead};
ghost use Rattle.bench_commands.specs.Refusal.{refusal_line};

use crate::answering::answer;
use crate::failure::Failure;
use crate::input::Input;
use crate::output::Output;
use crate::parse::asked;
use crate::request::{Asked, Request};
use crate::status::{DONE, FAILED, NO_MEMORY, REFUSED_WORDS};
use crate::threads_options::ThreadsOptions;
use clap::Error;
use clap::error::ErrorKind;
use std::alloc::Global;
use std::convert::AsStr;
use std::io::{Read, Write};

/// How the program ends.
#[derive(Clone, Copy, Debug, PartialEq, Eq)]
pub enum Outcome {
    /// The program has ended with this exit status: `DONE`, `NOT_ENDED`, `FAILED`, `REFUSED_WORDS` or `NO_MEMORY`.
    Ended(u8),
    /// The program hasn't ended: the arguments request `threads`, which the caller has to run. Nothing was read or
    /// written.
    Threads {
        /// The number of workers, 1 to 8.
        workers: u8,
        /// The number of frames that arrive, 0 to 60.
        frames: u8,
    },
}

/// Writes the refusal with this name and ends with this status. If the refusal can't be written, the program ends with
/// the status for a failed write.
fn end_saying<W: Write>(output: &mut Output<W>, name: &str, status: u8) -> Outcome
    ensures { EndsSaying (W.contents output.old.writer) (W.contents output.new.writer)
        (IsUnwritten output.new) (record { text = refusal_line name.now None; status = status })
        result }
{
    match output.write(format_args!("refused {name}\n")) {
        Ok(()) => Outcome::Ended(status),
        Err(_) => Outcome::Ended(output.failed_status()),
    }
}

/// Ends the program after an answer that wasn't completed.
fn end_given_up<W: Write>(output: &mut Output<W>, failure: Failure) -> Outcome
    ensures read { failure ≡ Failure.Read → EndsSaying (W.contents output.old.writer)
        (W.contents output.new.writer) (IsUnwritten output.new) (refused_as (codes "Input")) result }
    ensures memory { failure ≡ Failure.OutOfMemory → EndsSaying (W.contents output.old.writer)
        (W.contents output.new.writer) (IsUnwritten output.new) no_memory result }
    ensures write { failure ≡ Failure.Write
        → (result ≡ Outcome.Ended (unwritten_status output.old.lacked_memory)) × (output.new ≡ output.old) }
{
    match failure {
        Failure::Read => end_saying(output, "Input", FAILED),
        Failure::Write => Outcome::Ended(output.failed_status()),
        Failure::OutOfMemory => end_saying(output, "OutOfMemory", NO_MEMORY),
    }
}

/// Answers a request and ends the program.
fn end_request<R: Read, W: Write>(
    alloc: Global,
    input: &mut Input<R>,
    output: &mut Output<W>,
    request: Request,
) -> Outcome
    requires { output.old.has_failed ≡ false }
    ensures { EndsAs request (R.remaining input.old.reader) (CouldNotBeRead (R.remaining input.old.reader) input.new)
        (W.contents output.old.writer) (W.contents output.new.writer) (IsUnwritten output.new) result }
{
    match answer(alloc, input, output, request) {
        Ok(status) => Outcome::Ended(status),
        Err(failure) => end_given_up(output, failure),
    }
}

/// Returns the exit status for arguments for which clap returns an error of this kind.
fn status_of(kind: ErrorKind) -> u8
    ensures { result ≡ words_status kind }
{
    match kind {
        ErrorKind::DisplayHelp => DONE,
        ErrorKind::DisplayVersion => DONE,
        _ => REFUSED_WORDS,
    }
}

/// Writes clap's message about the arguments and ends with the status for this kind of message.
fn end_words<W: Write>(output: &mut Output<W>, error: &Error) -> Outcome
    ensures { EndsOf (kind_of error.now) (W.contents output.old.writer) (W.contents output.new.writer)
        (IsUnwritten output.new) result }
{
    let kind = error.kind();
    if kind == ErrorKind::OutOfMemory {
        return end_saying(output, "OutOfMemory", NO_MEMORY);
    }
    match output.write(error) {
        Ok(()) => Outcome::Ended(status_of(kind)),
        Err(_) => Outcome::Ended(output.failed_status()),
    }
}

/// Reads the arguments, the first of which is the program's own name; reads all input if the arguments request a
/// command that reads input; and writes all output. No earlier write to `output` may have failed. The arguments are
/// read before anything else. If they are refused, no input is read, and the status is one that clap may return: 0 for
/// the help and the version, otherwise 3.
///
/// After a failed write nothing more is written, and the status is `NO_MEMORY` (4) if the writer ran out of memory,
/// otherwise `FAILED` (2). If a read fails, the refusal `Input` is written, and the status is 2. The same happens if a
/// million reads are made from a reader with at least a million bytes. If memory runs out, the refusal `OutOfMemory` is
/// written after a prefix of the answer, and the status is 4. If the arguments request `threads`, nothing is read, and
/// nothing is written except the refusal `OutOfMemory`.
pub fn bench<'a, R: Read, W: Write, S: AsStr>(
    alloc: Global,
    input: &mut Input<R>,
    output: &mut Output<W>,
    words: &'a [S],
) -> Outcome
    requires { output.old.has_failed ≡ false }
    ensures asked { (request : Request) → Asks (map S.text words.entry.now) (Asked.Input request)
        → EndsAs request (R.remaining input.old.reader) (CouldNotBeRead (R.remaining input.old.reader) input.new)
        (W.contents output.old.writer) (W.contents output.new.writer) (IsUnwritten output.new)
        result }
    ensures threads { (options : ThreadsOptions) → Asks (map S.text words.entry.now) (Asked.Threads options)
        → (input.new ≡ input.old) × (IsLeft options (output.new ≡ output.old) result
        ⊎ EndsSaying (W.contents output.old.writer) (W.contents output.new.writer)
        (IsUnwritten output.new) no_memory result) }
    ensures refused { ((what : Asked) → Asks (map S.text words.entry.now) what → ⊥)
        → EndsWords (refusal_of (map S.text words.entry.now)) (W.contents output.old.writer)
        (W.contents output.new.writer) (IsUnwritten output.new) result × (input.new ≡ input.old) }
{
    match asked(alloc, words) {
        Ok(Asked::Input(request)) => end_request(alloc, input, output, request),
        Ok(Asked::Threads(ThreadsOptions { workers, frames })) => Outcome::Threads {
            workers,
            frames,
        },
        Err(error) => end_words(output, &error),
    }
}
