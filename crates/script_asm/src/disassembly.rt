//! Disassembles a program into a script's source.

ghost use Rattle.std.specs.Prelude.{◌≡◌, ◌++◌, ◌<◌, ◌≤◌, length, IfOk, Ok, string_bytes};
ghost use Rattle.std.specs.List.{AllByRecursion};
ghost use Rattle.program.specs.Encoding.{HaveWidths, fields_of};
ghost use Rattle.script_asm.specs.Disassembly.{jumps_to, is_target, data_line, data_lines, label_line_at, code_line};
ghost use Rattle.script_asm.specs.Disassembly.{code_lines, text_of};
ghost use Rattle.script_asm.specs.Script.{program_of};

use crate::printing::InstructionText;
use program::{Dir, Group, Instruction, Octets, OutOfMemory, Program};
use std::alloc::Global;
use std::fmt::Write;
use text_format::BytesText;

/// Appends the line that defines a data string.
fn push_data_line(text: &mut String, number: usize, bytes: &[u8]) -> Result<(), OutOfMemory>
    ensures { IfOk result (λ _. string_bytes text.new ≡ string_bytes text.old ++ data_line number bytes.now) }
{
    match write!(text, "data d{number} {}\n", BytesText(bytes)) {
        Ok(()) => Ok(()),
        Err(_) => Err(OutOfMemory),
    }
}

/// Appends the lines that define these data strings.
fn push_data_lines(text: &mut String, strings: &[Octets]) -> Result<(), OutOfMemory>
    ensures { IfOk result (λ _. string_bytes text.new ≡ string_bytes text.old ++ data_lines 0 strings.now) }
{
    for (number, string) in strings.iter().enumerate() {
        push_data_line(text, number, string.bytes())?;
    }
    Ok(())
}

/// Whether an instruction jumps to the instruction with this number.
fn jumps_to(instruction: &Instruction, pc: u16) -> bool
    ensures { result ≡ jumps_to pc instruction.now }
{
    match *instruction {
        Instruction::JumpIfEqual(_, target)
        | Instruction::JumpUnlessEqual(_, target)
        | Instruction::Jump(target) => target == pc,
        _ => false,
    }
}

/// Whether one of the instructions jumps to the instruction with this number.
fn is_target(code: &[Instruction], pc: u16) -> bool
    ensures { result ≡ is_target code.now pc }
{
    code.iter().any(|instruction| jumps_to(instruction, pc))
}

/// Appends the label line for this instruction number, if an instruction jumps to it.
fn push_label_line(text: &mut String, code: &[Instruction], pc: u16) -> Result<(), OutOfMemory>
    ensures { IfOk result (λ _. string_bytes text.new ≡ string_bytes text.old ++ label_line_at code.now pc) }
{
    if !is_target(code, pc) {
        return Ok(());
    }
    match write!(text, "L{pc}:\n") {
        Ok(()) => Ok(()),
        Err(_) => Err(OutOfMemory),
    }
}

/// Appends an instruction, preceded by its label if it has one.
fn push_code_line(
    text: &mut String,
    code: &[Instruction],
    pc: u16,
    instruction: &Instruction,
) -> Result<(), OutOfMemory>
    ensures { IfOk result (λ _. string_bytes text.new ≡ string_bytes text.old
        ++ code_line code.now pc instruction.now) }
{
    push_label_line(text, code, pc)?;
    match write!(text, "{}\n", InstructionText(instruction)) {
        Ok(()) => Ok(()),
        Err(_) => Err(OutOfMemory),
    }
}

/// Appends the instructions, and a label after the last one if an instruction jumps there.
fn push_code_lines(text: &mut String, code: &[Instruction]) -> Result<(), OutOfMemory>
    requires { length code.now ≤ 4096 }
    ensures { IfOk result (λ _. string_bytes text.new ≡ string_bytes text.old ++ code_lines code.now 0 code.now) }
{
    for (pc, instruction) in code.iter().enumerate() {
        push_code_line(text, code, pc as u16, instruction)?;
    }
    push_label_line(text, code, code.len() as u16)
}

/// Proves that each byte is below 256. A no-op at run time.
fn are_bytes(bytes: &[u8])
    ensures { AllByRecursion (λ byte. byte < 256) bytes.now }
{
    let _all = bytes;
}

/// Proves that data strings consist of bytes. A no-op at run time.
fn have_bytes(strings: &[Octets])
    ensures { AllByRecursion (AllByRecursion (λ byte. byte < 256)) strings.now }
{
    for string in strings {
        are_bytes(string.bytes());
    }
}

/// Proves that an instruction's numbers fit the widths of an object's fields. A no-op at run time.
fn has_widths(instruction: Instruction)
    ensures { HaveWidths (fields_of instruction) }
{
    match instruction {
        Instruction::Write(_address, _word) => {}
        Instruction::Read(_address) => {}
        Instruction::VfWrite {
            function: _function,
            offset: _offset,
            word: _word,
        } => {}
        Instruction::VfRead {
            function: _function,
            offset: _offset,
        } => {}
        Instruction::Lend(_block) => {}
        Instruction::Unlend(_block) => {}
        Instruction::Poke(_address, _data) => {}
        Instruction::Peek(_address, _word) => {}
        Instruction::Arrive(_data) => {}
        Instruction::RxStep => {}
        Instruction::TxStep(_queue) => {}
        Instruction::IntStep(Group::Pf) => {}
        Instruction::IntStep(Group::Vf(_function)) => {}
        Instruction::QueueStep(Dir::Rx, _queue) => {}
        Instruction::QueueStep(Dir::Tx, _queue) => {}
        Instruction::EepromStep => {}
        Instruction::Link(_up) => {}
        Instruction::Collect => {}
        Instruction::Expect {
            want: _want,
            mask: _mask,
        } => {}
        Instruction::And(_word) => {}
        Instruction::JumpIfEqual(_word, _target) => {}
        Instruction::JumpUnlessEqual(_word, _target) => {}
        Instruction::Jump(_target) => {}
        Instruction::Halt => {}
    }
}

/// Proves `has_widths` for each instruction. A no-op at run time.
fn have_widths(code: &[Instruction])
    ensures { AllByRecursion (λ i. HaveWidths (fields_of i)) code.now }
{
    for instruction in code {
        has_widths(*instruction);
    }
}

/// Returns the source of a program: its data strings with the names `d0`, `d1` and so on, then its instructions. Each
/// jump target is preceded by its label: `L` and its number. If the address in a `w` or `r` is a register's first
/// address, the register's name is printed instead. An index follows if the row has several registers. All other
/// numeric operands are printed as eight hex digits. The source assembles to the same program. Fails with `OutOfMemory`
/// if there is no memory for the source.
pub fn disassemble(alloc: Global, program: &Program) -> Result<String, OutOfMemory>
    ensures text { IfOk result (λ text. string_bytes text ≡ text_of program.now) }
    ensures means { IfOk result (λ text. program_of (string_bytes text) ≡ Ok program.now) }
{
    have_bytes(program.strings());
    have_widths(program.code());
    let mut text = String::new(alloc);
    push_data_lines(&mut text, program.strings())?;
    push_code_lines(&mut text, program.code())?;
    Ok(text)
}
