//! The command `nicbench debug`: debugs a script.
ghost use Rattle.std.specs.Prelude.{◌≡◌, ◌<◌, ◌^◌, [], length};
ghost use Rattle.text_format.specs.Lines.{lines_of};
ghost use Rattle.bench_commands.specs.Answer.{Gives};
ghost use Rattle.bench_commands.specs.Command.{commands_of};
ghost use Rattle.bench_commands.specs.Debug.{commands_answer, debug_answer, new_session, session_answer};
ghost use Rattle.bench_commands.specs.Run.{made_with};

use crate::commands::{CommandFault, read_commands};
use crate::debug_options::DebugOptions;
use crate::failure::Failure;
use crate::output::Output;
use crate::refusal::{Refusal, write_refusal};
use crate::script_run::refusal_of_script;
use crate::status::DONE;
use crate::view::{write_done, write_refused};
use debugger::{Command, DebugRefusal, Debugger};
use nic_device::{Config, NewFault};
use program::Program;
use script_asm::assemble_before;
use std::alloc::Global;
use std::io::Write;
use text_format::Lines;

/// The only word on the line that ends the script.
const END_OF_SCRIPT: &str = "%";

/// Returns the number of lines in a text.
fn line_count(text: &str) -> usize
    ensures value { result ≡ length (lines_of text.now) }
    ensures bound { result < 2 ^ 63 }
{
    let mut count = 0;
    for line in Lines::of(text) {
        count = line.number;
    }
    let bytes = text.len();
    prove!(count <= bytes);
    count
}

/// Executes commands in order and writes a line for each command.
fn do_commands<W: Write>(
    debugger: &mut Debugger,
    commands: &[Command],
    output: &mut Output<W>,
) -> Result<u8, Failure>
    ensures { Gives result (W.contents output.old.writer) (W.contents output.new.writer)
        output.new.has_failed (session_answer debugger.old commands.now) }
{
    for command in commands {
        match debugger.exec(*command) {
            Ok(view) => write_done(output, *command, view)?,
            Err(DebugRefusal::OutOfMemory) => return Err(Failure::OutOfMemory),
            Err(refusal) => write_refused(output, refusal)?,
        }
    }
    Ok(DONE)
}

/// Debugs a program on a new device.
fn debug_program<W: Write>(
    alloc: Global,
    program: Program,
    config: Config,
    commands: &[Command],
    output: &mut Output<W>,
) -> Result<u8, Failure>
    ensures { Gives result (W.contents output.old.writer) (W.contents output.new.writer)
        output.new.has_failed
        (made_with config (session_answer (new_session config program) commands.now)) }
{
    match Debugger::new(alloc, program, config) {
        Ok(mut debugger) => {
            let outcome = do_commands(&mut debugger, commands, output);
            debugger.finish();
            outcome
        }
        Err(refused) => match refused.fault {
            NewFault::TooManyVfs => write_refusal(output, &Refusal::named("TooManyVfs")),
            NewFault::Fifo => write_refusal(output, &Refusal::named("Fifo")),
            NewFault::OutOfMemory => Err(Failure::OutOfMemory),
        },
    }
}

/// Debugs a program with the commands on these lines. All lines are read before the first command is executed.
fn debug_by_lines<W: Write>(
    alloc: Global,
    program: Program,
    config: Config,
    lines: Lines<'_>,
    output: &mut Output<W>,
) -> Result<u8, Failure>
    ensures { Gives result (W.contents output.old.writer) (W.contents output.new.writer)
        output.new.has_failed (commands_answer config program (commands_of lines.entry)) }
{
    match read_commands(alloc, lines) {
        Ok(commands) => debug_program(alloc, program, config, &commands, output),
        Err(CommandFault::Syntax(line)) => {
            write_refusal(output, &Refusal::numbered("Syntax", line))
        }
        Err(CommandFault::OutOfMemory) => Err(Failure::OutOfMemory),
    }
}

/// Debugs the script at the start of the input, with the commands after the first line that consists of `%` only.
pub(crate) fn debug_script<W: Write>(
    alloc: Global,
    text: &str,
    options: DebugOptions,
    output: &mut Output<W>,
) -> Result<u8, Failure>
    ensures { Gives result (W.contents output.old.writer) (W.contents output.new.writer)
        output.new.has_failed (debug_answer options text.now) }
{
    let config = Config {
        vfs: options.vfs,
        fifo: options.fifo,
    };
    let mut lines = Lines::of(text);
    match assemble_before(alloc, &mut lines, END_OF_SCRIPT) {
        Ok(Some(program)) => debug_by_lines(alloc, program, config, lines, output),
        Ok(None) => write_refusal(output, &Refusal::numbered("Syntax", line_count(text) + 1)),
        Err(fault) => match refusal_of_script(fault) {
            Some(refusal) => write_refusal(output, &refusal),
            None => Err(Failure::OutOfMemory),
        },
    }
}
