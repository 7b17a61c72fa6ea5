//! Prints the debugger's replies.
ghost use Rattle.std.specs.Prelude.{◌≡◌, ◌++◌, None, OnOk, Some, codes};
ghost use Rattle.std.specs.Io.KnownBytes.{Appends};
ghost use Rattle.bench_commands.specs.Answer.{FailsToWrite};
ghost use Rattle.bench_commands.specs.Refusal.{refusal_line};
ghost use Rattle.bench_commands.specs.View.{done_text, refusal_name, shown_text, status_text, view_text};

use crate::failure::Failure;
use crate::output::Output;
use crate::refusal::Refusal;
use debugger::{Command, DebugRefusal, View};
use machine::Status;
use std::fmt;
use std::io::Write;
use text_format::{AddressText, WordText};

/// A machine's status, printed by `Display`.
#[derive(Clone, Copy)]
struct StatusText(Status);

impl fmt::Display for StatusText {
    ghost output = { λ s. Some (status_text s.0) };

    fn fmt<W: fmt::Write>(&self, f: &mut fmt::Formatter<W>) -> fmt::Result {
        match self.0 {
            Status::Running => write!(f, "running"),
            Status::Ended => write!(f, "ended"),
            Status::Failed { .. } => write!(f, "failed"),
        }
    }
}

/// The state of a debugger's machine, printed by `Display`.
#[derive(Clone, Copy)]
struct ViewText(View);

impl fmt::Display for ViewText {
    ghost output = { λ v. Some (view_text v.0) };

    fn fmt<W: fmt::Write>(&self, f: &mut fmt::Formatter<W>) -> fmt::Result {
        let steps = self.0.steps;
        let pc = self.0.pc;
        let acc = WordText(self.0.acc);
        let status = StatusText(self.0.status);
        write!(f, "at {steps} pc {pc} acc {acc} {status}")
    }
}

/// An address and the result of reading it, printed by `Display`.
#[derive(Clone, Copy)]
struct ShownText {
    address: u32,
    shown: Option<u32>,
}

impl fmt::Display for ShownText {
    ghost output = { λ s. Some (shown_text s.address s.shown) };

    fn fmt<W: fmt::Write>(&self, f: &mut fmt::Formatter<W>) -> fmt::Result {
        let address = AddressText(u64::from(self.address));
        match self.shown {
            Some(word) => write!(f, "{address} {}", WordText(word)),
            None => write!(f, "{address} stray"),
        }
    }
}

/// Writes the line for a command that was executed.
pub(crate) fn write_done<W: Write>(
    output: &mut Output<W>,
    command: Command,
    view: View,
) -> Result<(), Failure>
    ensures ok { OnOk result (Appends (W.contents output.old.writer) (W.contents output.new.writer)
        (done_text command view ++ codes "\n")) }
    ensures err { FailsToWrite result output.new.has_failed }
{
    match command {
        Command::Show(address) | Command::ShowVf(_, address) => {
            let shown = ShownText {
                address,
                shown: view.shown,
            };
            output.write(format_args!("{shown}\n"))
        }
        Command::Step(_)
        | Command::Back(_)
        | Command::Continue(_)
        | Command::Break(_)
        | Command::Clear(_) => {
            let view = ViewText(view);
            output.write(format_args!("{view}\n"))
        }
    }
}

/// Returns the printed refusal of a command: its name, without a number.
fn refusal_of(refusal: DebugRefusal) -> Refusal
    ensures name { result.name.now ≡ refusal_name refusal }
    ensures number { result.number ≡ None }
{
    match refusal {
        DebugRefusal::AtStart => Refusal::named("AtStart"),
        DebugRefusal::NoSuchPc => Refusal::named("NoSuchPc"),
        DebugRefusal::TooManyBreaks => Refusal::named("TooManyBreaks"),
        DebugRefusal::OutOfMemory => Refusal::named("OutOfMemory"),
    }
}

/// Writes the line for a command that was refused.
pub(crate) fn write_refused<W: Write>(
    output: &mut Output<W>,
    refusal: DebugRefusal,
) -> Result<(), Failure>
    ensures ok { OnOk result (Appends (W.contents output.old.writer) (W.contents output.new.writer)
        (refusal_line (refusal_name refusal) None)) }
    ensures err { FailsToWrite result output.new.has_failed }
{
    let refusal = refusal_of(refusal);
    output.write(format_args!("refused {refusal}\n"))
}
