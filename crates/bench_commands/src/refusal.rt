//! Why an input or a request is refused.
ghost use Rattle.std.specs.Prelude.{◌≡◌, None, Some};
ghost use Rattle.bench_commands.specs.Answer.{FailsToWrite, Gives, refused};

use crate::failure::Failure;
use crate::output::Output;
use crate::status::FAILED;
use std::fmt;
use std::io::Write;

/// Why there is no answer. `Display` prints the refusal's name, and its number if it has one.
#[derive(Clone, Copy, Debug)]
pub struct Refusal {
    name: &'static str,
    number: Option<usize>,
}

impl Refusal {
    /// Returns a refusal with only a name.
    pub(crate) fn named(name: &'static str) -> Refusal
        ensures name { result.name.now ≡ name.now }
        ensures number { result.number ≡ None }
    {
        Refusal { name, number: None }
    }

    /// Returns a refusal with the number of a line, a word or an instruction.
    pub(crate) fn numbered(name: &'static str, number: usize) -> Refusal
        ensures name { result.name.now ≡ name.now }
        ensures number { result.number ≡ Some number }
    {
        Refusal {
            name,
            number: Some(number),
        }
    }
}

impl fmt::Display for Refusal {
    ghost use Rattle.bench_commands.specs.Refusal.{refusal_text};

    ghost output = { λ r. Some (refusal_text r.name.now r.number) };

    fn fmt<W: fmt::Write>(&self, f: &mut fmt::Formatter<W>) -> fmt::Result {
        let name = self.name;
        match self.number {
            Some(number) => write!(f, "{name} {number}"),
            None => write!(f, "{name}"),
        }
    }
}

/// Writes a refusal on its own line and returns the status for refused input.
pub(crate) fn write_refusal<W: Write>(
    output: &mut Output<W>,
    refusal: &Refusal,
) -> Result<u8, Failure>
    ensures gives { Gives result (W.contents output.old.writer) (W.contents output.new.writer)
        output.new.has_failed (refused refusal.now.name.now refusal.now.number) }
    ensures err { FailsToWrite result output.new.has_failed }
{
    output.write(format_args!("refused {refusal}\n"))?;
    Ok(FAILED)
}
