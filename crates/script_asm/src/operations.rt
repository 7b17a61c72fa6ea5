//! Reads an instruction: the operation's name and its operands.

ghost use Rattle.std.specs.Prelude.{◌≡◌};
ghost use Rattle.script_asm.specs.Operation.{looked_up, table_alone, table_of_one, table_of_two, table_of_three};
ghost use Rattle.script_asm.specs.Operation.{instruction_in, direction_in, link_in, group_in, number16_in};
ghost use Rattle.script_asm.specs.Target.{number_below};

use crate::faults::{LineFault, both};
use crate::names::Name;
use crate::targets::{number, number_below, target};
use program::{Dir, Group, Instruction, MAX_VFS};
use text_format::Words;

/// An instruction as written in its line, which refers to labels and data strings by name.
pub(crate) type Draft<'a> = Instruction<Name<'a>, Name<'a>>;

/// Returns the queue side that a word names: `rx` or `tx`.
fn direction(word: &str) -> Result<Dir, LineFault>
    ensures { result ≡ direction_in word.now }
{
    match word {
        "rx" => Ok(Dir::Rx),
        "tx" => Ok(Dir::Tx),
        _ => Err(LineFault::Syntax),
    }
}

/// Returns the link state that a word names: `up` or `down`.
fn link(word: &str) -> Result<bool, LineFault>
    ensures { result ≡ link_in word.now }
{
    match word {
        "up" => Ok(true),
        "down" => Ok(false),
        _ => Err(LineFault::Syntax),
    }
}

/// Returns the number of a virtual function, 0 to 62.
fn function(word: &str) -> Result<u8, LineFault>
    ensures { result ≡ number_below 63 word.now }
{
    let number = number_below(u32::from(MAX_VFS), word)?;
    Ok(number as u8)
}

/// Returns the interrupt group that a word names.
fn group(word: &str) -> Result<Group, LineFault>
    ensures { result ≡ group_in word.now }
{
    match word {
        "pf" => Ok(Group::Pf),
        _ => {
            let function = function(word)?;
            Ok(Group::Vf(function))
        }
    }
}

/// Returns the 16-bit number of a block or a queue.
fn number16(word: &str) -> Result<u16, LineFault>
    ensures { result ≡ number16_in word.now }
{
    let number = number_below(65536, word)?;
    Ok(number as u16)
}

/// Returns the index of the 32-bit word that a `peek` selects, 0 to 3.
fn word_number(word: &str) -> Result<u8, LineFault>
    ensures { result ≡ number_below 4 word.now }
{
    let number = number_below(4, word)?;
    Ok(number as u8)
}

/// Returns the instruction for an operation with this name and no operands.
fn alone<'a>(name: &str) -> Result<Draft<'a>, LineFault>
    ensures { result ≡ looked_up name.now table_alone }
{
    match name {
        "rx" => Ok(Instruction::RxStep),
        "eestep" => Ok(Instruction::EepromStep),
        "collect" => Ok(Instruction::Collect),
        "halt" => Ok(Instruction::Halt),
        _ => Err(LineFault::Syntax),
    }
}

/// Returns the instruction for an operation with this name and one operand.
fn with_one<'a>(name: &str, a: &'a str) -> Result<Draft<'a>, LineFault>
    ensures { result ≡ looked_up name.now (table_of_one a.now) }
{
    match name {
        "r" => Ok(Instruction::Read(target(a)?)),
        "lend" => Ok(Instruction::Lend(number16(a)?)),
        "unlend" => Ok(Instruction::Unlend(number16(a)?)),
        "arrive" => Ok(Instruction::Arrive(Name::of(a)?)),
        "tx" => Ok(Instruction::TxStep(number16(a)?)),
        "int" => Ok(Instruction::IntStep(group(a)?)),
        "link" => Ok(Instruction::Link(link(a)?)),
        "expect" => {
            let want = number(a)?;
            Ok(Instruction::Expect {
                want,
                mask: u32::MAX,
            })
        }
        "and" => Ok(Instruction::And(number(a)?)),
        "jmp" => Ok(Instruction::Jump(Name::of(a)?)),
        _ => Err(LineFault::Syntax),
    }
}

/// Returns the instruction for an operation with this name and two operands.
fn with_two<'a>(name: &str, a: &'a str, b: &'a str) -> Result<Draft<'a>, LineFault>
    ensures { result ≡ looked_up name.now (table_of_two a.now b.now) }
{
    match name {
        "w" => {
            let (address, word) = both(target(a), number(b))?;
            Ok(Instruction::Write(address, word))
        }
        "vr" => {
            let (function, offset) = both(function(a), number(b))?;
            Ok(Instruction::VfRead { function, offset })
        }
        "poke" => {
            let (address, data) = both(number(a), Name::of(b))?;
            Ok(Instruction::Poke(address, data))
        }
        "peek" => {
            let (address, word) = both(number(a), word_number(b))?;
            Ok(Instruction::Peek(address, word))
        }
        "qstep" => {
            let (direction, queue) = both(direction(a), number16(b))?;
            Ok(Instruction::QueueStep(direction, queue))
        }
        "expect" => {
            let (want, mask) = both(number(a), number(b))?;
            Ok(Instruction::Expect { want, mask })
        }
        "jeq" => {
            let (word, label) = both(number(a), Name::of(b))?;
            Ok(Instruction::JumpIfEqual(word, label))
        }
        "jne" => {
            let (word, label) = both(number(a), Name::of(b))?;
            Ok(Instruction::JumpUnlessEqual(word, label))
        }
        _ => Err(LineFault::Syntax),
    }
}

/// Returns the instruction for an operation with this name and three operands.
fn with_three<'a>(name: &str, a: &str, b: &str, c: &str) -> Result<Draft<'a>, LineFault>
    ensures { result ≡ looked_up name.now (table_of_three a.now b.now c.now) }
{
    match name {
        "vw" => {
            let (function, (offset, word)) = both(function(a), both(number(b), number(c)))?;
            Ok(Instruction::VfWrite {
                function,
                offset,
                word,
            })
        }
        _ => Err(LineFault::Syntax),
    }
}

/// Returns the instruction for an operation with this name and any number of operands.
pub(crate) fn read_instruction<'a>(
    name: &str,
    mut operands: Words<'a>,
) -> Result<Draft<'a>, LineFault>
    ensures { result ≡ instruction_in name.now operands.entry }
{
    match (
        operands.next(),
        operands.next(),
        operands.next(),
        operands.next(),
    ) {
        (None, _, _, _) => alone(name),
        (Some(a), None, _, _) => with_one(name, a),
        (Some(a), Some(b), None, _) => with_two(name, a, b),
        (Some(a), Some(b), Some(c), None) => with_three(name, a, b, c),
        (Some(_), Some(_), Some(_), Some(_)) => Err(LineFault::Syntax),
    }
}
