//! Reads one line as a statement.

ghost use Rattle.std.specs.Prelude.{◌≡◌};
ghost use Rattle.std.specs.Option.{option_copied};
ghost use Rattle.text_format.specs.Words.{words_of};
ghost use Rattle.script_asm.specs.Fault.{Gives, at_line};
ghost use Rattle.script_asm.specs.Statement.{bytes_in, label_in, data_in, label_or_instruction, statement_of};
ghost use Rattle.script_asm.specs.Target.{before_last_byte};

use crate::faults::{LineFault, ScriptFault};
use crate::names::Name;
use crate::operations::{Draft, read_instruction};
use program::Octets;
use std::alloc::Global;
use text_format::{HexFault, Line, Words, hex_bytes};

/// What a line states: nothing, a label, a data string or an instruction.
#[derive(Drop)]
pub(crate) enum Statement<'a> {
    /// An empty line, or a line with only a comment.
    Empty,
    /// A label: the name of the next instruction.
    Label(Name<'a>),
    /// A data string and its name.
    Data(Name<'a>, Octets),
    /// An instruction with its operands.
    Instruction(Draft<'a>),
}

/// Returns the bytes that a word spells in hex.
fn read_bytes(alloc: Global, number: usize, word: &str) -> Result<Octets, ScriptFault>
    ensures { Gives (λ bytes. bytes) result (at_line number (bytes_in word.now)) }
{
    match hex_bytes(alloc, word) {
        Ok(bytes) if bytes.is_empty() => Err(ScriptFault::Syntax(number)),
        Ok(bytes) => Ok(Octets::of(bytes)),
        Err(HexFault::Malformed) => Err(ScriptFault::Syntax(number)),
        Err(HexFault::OutOfMemory) => Err(ScriptFault::OutOfMemory),
    }
}

/// Returns the statement of a `data` line: a name and its bytes.
fn read_data<'a>(
    alloc: Global,
    number: usize,
    mut operands: Words<'a>,
) -> Result<Statement<'a>, ScriptFault>
    ensures { Gives (λ statement. statement) result (at_line number (data_in operands.entry)) }
{
    let (Some(name), Some(digits), None) = (operands.next(), operands.next(), operands.next())
    else {
        return Err(ScriptFault::Syntax(number));
    };
    // Data that isn't hex is reported before a name that is too long.
    let bytes = read_bytes(alloc, number, digits)?;
    match Name::of(name) {
        Ok(name) => Ok(Statement::Data(name, bytes)),
        Err(fault) => Err(fault.at(number)),
    }
}

/// Returns the part of a word before a final colon.
fn before_colon(word: &str) -> Option<&str>
    ensures { option_copied result ≡ before_last_byte 58 word.now }
{
    word.strip_suffix(':')
}

/// Returns a label, which must be alone on its line.
fn read_label<'a>(name: &'a str, mut operands: Words<'a>) -> Result<Statement<'a>, LineFault>
    ensures { result ≡ label_in name.now operands.entry }
{
    if operands.next().is_some() {
        return Err(LineFault::Syntax);
    }
    let name = Name::of(name)?;
    Ok(Statement::Label(name))
}

/// Returns a label or an instruction, depending on the line's first word.
fn read_other<'a>(first: &'a str, operands: Words<'a>) -> Result<Statement<'a>, LineFault>
    ensures { result ≡ label_or_instruction first.now (before_last_byte 58 first.now) operands.entry }
{
    if let Some(name) = before_colon(first) {
        return read_label(name, operands);
    }
    let draft = read_instruction(first, operands)?;
    Ok(Statement::Instruction(draft))
}

/// Reads a line as a statement.
#[tactic(auto, unfolding(crate::specs::Statement::statement_of))]
pub(crate) fn read_line<'a>(alloc: Global, line: Line<'a>) -> Result<Statement<'a>, ScriptFault>
    ensures { Gives (λ statement. statement) result
        (at_line line.entry.number (statement_of (words_of line.entry.text.now))) }
{
    let mut words = Words::of(line.text);
    let Some(first) = words.next() else {
        return Ok(Statement::Empty);
    };
    if first == "data" {
        return read_data(alloc, line.number, words);
    }
    match read_other(first, words) {
        Ok(statement) => Ok(statement),
        Err(fault) => Err(fault.at(line.number)),
    }
}
