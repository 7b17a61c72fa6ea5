//! Runs a machine, and writes the line for each step.
ghost use Rattle.std.specs.Prelude.{◌≡◌, IfErr, OnOk};
ghost use Rattle.std.specs.Io.KnownBytes.{Appends};
ghost use Rattle.machine.specs.Machine.{machine_at, start_of};
ghost use Rattle.bench_commands.specs.Answer.{FailsToWrite, Gives, GivesUp, WritesBeginning};
ghost use Rattle.bench_commands.specs.Run.{end_of, machine_answer};
ghost use Rattle.bench_commands.specs.Steps.{answer_text, steps_text};

use crate::failure::Failure;
use crate::output::Output;
use crate::reply::ReplyText;
use crate::status::{DONE, NOT_ENDED};
use machine::{Machine, Status, StepAnswer};
use std::io::Write;
use text_format::WordText;

/// Writes the line for a step that executed the instruction `pc`. `Local` and `Stopped` have no line.
fn write_answer<W: Write>(
    output: &mut Output<W>,
    pc: u16,
    answer: &StepAnswer,
) -> Result<(), Failure>
    ensures ok { OnOk result (Appends (W.contents output.old.writer) (W.contents output.new.writer)
        (answer_text pc answer.now)) }
    ensures err { FailsToWrite result output.new.has_failed }
{
    match answer {
        StepAnswer::Made(reply) => {
            let reply = ReplyText(reply);
            output.write(format_args!("{pc} {reply}\n"))
        }
        StepAnswer::NoBlock => output.write(format_args!("{pc} no block\n")),
        StepAnswer::Local | StepAnswer::Stopped => Ok(()),
    }
}

/// Runs a new machine for at most `limit` steps, and writes the line for each step.
fn write_steps<W: Write>(
    machine: &mut Machine,
    limit: u64,
    output: &mut Output<W>,
) -> Result<(), Failure>
    requires { machine.old.state ≡ start_of machine.old.program machine.old.config }
    ensures text { OnOk result (Appends (W.contents output.old.writer) (W.contents output.new.writer)
        (steps_text machine.old.program machine.old.config limit)) }
    ensures state { OnOk result
        (machine.new.state ≡ machine_at machine.old.program machine.old.config limit) }
    ensures err { IfErr result (λ failure. GivesUp failure output.new.has_failed
        (WritesBeginning (W.contents output.old.writer) (W.contents output.new.writer)
        (steps_text machine.old.program machine.old.config limit))) }
{
    for _ in 0..limit {
        let pc = machine.pc();
        match machine.step() {
            Ok(StepAnswer::Stopped) => return Ok(()),
            Ok(answer) => write_answer(output, pc, &answer)?,
            Err(_) => return Err(Failure::OutOfMemory),
        }
    }
    Ok(())
}

/// Writes the state of a machine after its last step and returns the status.
fn write_end<W: Write>(machine: &Machine, output: &mut Output<W>) -> Result<u8, Failure>
    ensures { Gives result (W.contents output.old.writer) (W.contents output.new.writer)
        output.new.has_failed (end_of machine.now.state) }
{
    match machine.status() {
        Status::Running => {
            let pc = machine.pc();
            output.write(format_args!("limit {pc}\n"))?;
            Ok(NOT_ENDED)
        }
        Status::Ended => {
            let steps = machine.steps();
            output.write(format_args!("ok {steps}\n"))?;
            Ok(DONE)
        }
        Status::Failed { pc, have, want } => {
            let have = WordText(have);
            let want = WordText(want);
            output.write(format_args!("failed {pc} have {have} want {want}\n"))?;
            Ok(NOT_ENDED)
        }
    }
}

/// Runs a new machine for at most `limit` steps, and writes the lines for its steps and its final state.
pub(crate) fn run_machine<W: Write>(
    machine: &mut Machine,
    limit: u64,
    output: &mut Output<W>,
) -> Result<u8, Failure>
    requires { machine.old.state ≡ start_of machine.old.program machine.old.config }
    ensures { Gives result (W.contents output.old.writer) (W.contents output.new.writer)
        output.new.has_failed (machine_answer machine.old.program machine.old.config limit) }
{
    write_steps(machine, limit, output)?;
    write_end(machine, output)
}
