//! Answers a request after reading all of its input.
ghost use Rattle.std.specs.Prelude.{◌≡◌, Err, false, true};
ghost use Rattle.bench_commands.specs.Answer.{GivesRight};
ghost use Rattle.bench_commands.specs.Ending.{AnswersRequest, IsBytesAnswer, IsGivenAnswer, IsTextAnswer};
ghost use Rattle.bench_commands.specs.Reading.{CouldNotBeRead};

use crate::eeprom::{load_image, write_image};
use crate::failure::Failure;
use crate::hashing::hash_lines;
use crate::input::Input;
use crate::objects::{write_object, write_script};
use crate::output::Output;
use crate::reading::{InputFault, read_input};
use crate::refusal::{Refusal, write_refusal};
use crate::request::{BytesRequest, Request, TextRequest};
use crate::script_run::run_script;
use crate::session::debug_script;
use std::alloc::Global;
use std::io::{Read, Write};
use std::str;

/// Answers a request that reads its input as text.
fn answer_text<W: Write>(
    alloc: Global,
    text: &str,
    request: TextRequest,
    output: &mut Output<W>,
) -> Result<u8, Failure>
    ensures { GivesRight result (W.contents output.old.writer) (W.contents output.new.writer)
        output.new.has_failed (IsTextAnswer request text.now) }
{
    match request {
        TextRequest::Run(options) => run_script(alloc, text, options, output),
        TextRequest::Debug(options) => debug_script(alloc, text, options, output),
        TextRequest::Hash => hash_lines(alloc, text, output),
        TextRequest::Asm => write_object(alloc, text, output),
        TextRequest::Eeprom => write_image(alloc, text, output),
    }
}

/// Answers a request that reads its input as bytes.
fn answer_bytes<W: Write>(
    alloc: Global,
    bytes: &[u8],
    request: BytesRequest,
    output: &mut Output<W>,
) -> Result<u8, Failure>
    ensures { GivesRight result (W.contents output.old.writer) (W.contents output.new.writer)
        output.new.has_failed (IsBytesAnswer request bytes.now) }
{
    match request {
        BytesRequest::Dis => write_script(alloc, bytes, output),
        BytesRequest::LoadEeprom => load_image(alloc, bytes, output),
    }
}

/// Answers a request from the bytes that were read. If the request needs text, the bytes are decoded as UTF-8 first.
fn answer_input<W: Write>(
    alloc: Global,
    bytes: &[u8],
    request: Request,
    output: &mut Output<W>,
) -> Result<u8, Failure>
    ensures { GivesRight result (W.contents output.old.writer) (W.contents output.new.writer)
        output.new.has_failed (IsGivenAnswer request bytes.now) }
{
    match request {
        Request::Bytes(request) => answer_bytes(alloc, bytes, request, output),
        Request::Text(request) => match str::from_utf8(bytes) {
            Ok(text) => answer_text(alloc, text, request, output),
            Err(_) => write_refusal(output, &Refusal::named("Input")),
        },
    }
}

/// Reads all input, writes the answer to a request, and returns the exit status. No earlier write to `output` may have
/// failed.
///
/// The output and the status are the request's answer to all bytes of the input. They depend on the number of bytes; on
/// whether the bytes are UTF-8, if the request needs text; and on the contents: a script, debugger commands, hex lines,
/// an object, the source of an EEPROM image, or an image.
///
/// For `debug`, each command prints its refusal, or the machine's state at the step that the commands so far have
/// reached. A command that shows a register prints what a read of that register would return. Three faults refuse a
/// session before anything is printed, in this order: a faulty script, a faulty command anywhere or a missing `%`, and
/// a device that can't be created.
///
/// Errors: `Failure::Read`, only if a read failed, or if a million reads were made from a reader with at least a
/// million bytes; nothing is written. `Failure::OutOfMemory`: a prefix of the answer was written. `Failure::Write`,
/// only if a write made by this call failed; an `Output` writes nothing after a failed write.
pub fn answer<R: Read, W: Write>(
    alloc: Global,
    input: &mut Input<R>,
    output: &mut Output<W>,
    request: Request,
) -> Result<u8, Failure>
    requires { output.old.has_failed ≡ false }
    ensures answer { AnswersRequest request (R.remaining input.old.reader)
        (W.contents output.old.writer) (W.contents output.new.writer) result }
    ensures unread { result ≡ Err Failure.Read
        → CouldNotBeRead (R.remaining input.old.reader) input.new × (output.new ≡ output.old) }
    ensures unwritten { result ≡ Err Failure.Write → output.new.has_failed ≡ true }
{
    match read_input(alloc, input) {
        Ok(bytes) => answer_input(alloc, &bytes, request, output),
        Err(InputFault::TooLong) => write_refusal(output, &Refusal::named("TooLong")),
        Err(InputFault::Unread) => Err(Failure::Read),
        Err(InputFault::OutOfMemory) => Err(Failure::OutOfMemory),
    }
}
