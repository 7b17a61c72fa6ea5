//! The command `nicbench run`: runs a script.
ghost use Rattle.std.specs.Prelude.{◌≡◌, ◌≢◌, MatchOption};
ghost use Rattle.bench_commands.specs.Answer.{Gives, refused};
ghost use Rattle.bench_commands.specs.Run.{program_answer, run_answer, script_refused};

use crate::failure::Failure;
use crate::output::Output;
use crate::refusal::{Refusal, write_refusal};
use crate::run_options::RunOptions;
use crate::steps::run_machine;
use machine::Machine;
use nic_device::{Config, NewFault};
use program::Program;
use script_asm::{ScriptFault, assemble};
use std::alloc::Global;
use std::io::Write;

/// Returns the refusal for input that isn't a script, or `None` if memory ran out.
pub(crate) fn refusal_of_script(fault: ScriptFault) -> Option<Refusal>
    ensures { MatchOption result (fault ≡ ScriptFault.OutOfMemory) (λ refusal.
        (fault ≢ ScriptFault.OutOfMemory)
        × (refused refusal.name.now refusal.number ≡ script_refused fault)) }
{
    match fault {
        ScriptFault::Syntax(line) => Some(Refusal::numbered("Syntax", line)),
        ScriptFault::UnknownName(line) => Some(Refusal::numbered("UnknownName", line)),
        ScriptFault::UnknownLabel(line) => Some(Refusal::numbered("UnknownLabel", line)),
        ScriptFault::TwoLabels(line) => Some(Refusal::numbered("TwoLabels", line)),
        ScriptFault::Range(line) => Some(Refusal::numbered("Range", line)),
        ScriptFault::TooLong => Some(Refusal::named("TooLong")),
        ScriptFault::OutOfMemory => None,
    }
}

/// Runs a program on a new device.
fn run_program<W: Write>(
    alloc: Global,
    program: Program,
    options: RunOptions,
    output: &mut Output<W>,
) -> Result<u8, Failure>
    ensures { Gives result (W.contents output.old.writer) (W.contents output.new.writer)
        output.new.has_failed (program_answer options program) }
{
    let config = Config {
        vfs: options.vfs,
        fifo: options.fifo,
    };
    match Machine::new(alloc, program, config) {
        Ok(mut machine) => {
            let outcome = run_machine(&mut machine, options.limit, output);
            machine.finish();
            outcome
        }
        Err(refused) => match refused.fault {
            NewFault::TooManyVfs => write_refusal(output, &Refusal::named("TooManyVfs")),
            NewFault::Fifo => write_refusal(output, &Refusal::named("Fifo")),
            NewFault::OutOfMemory => Err(Failure::OutOfMemory),
        },
    }
}

/// Runs a script, and writes each step's line immediately after the step.
pub(crate) fn run_script<W: Write>(
    alloc: Global,
    text: &str,
    options: RunOptions,
    output: &mut Output<W>,
) -> Result<u8, Failure>
    ensures { Gives result (W.contents output.old.writer) (W.contents output.new.writer)
        output.new.has_failed (run_answer options text.now) }
{
    match assemble(alloc, text) {
        Ok(program) => run_program(alloc, program, options, output),
        Err(fault) => match refusal_of_script(fault) {
            Some(refusal) => write_refusal(output, &refusal),
            None => Err(Failure::OutOfMemory),
        },
    }
}
