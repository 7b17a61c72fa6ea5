//! Reads debugger commands from lines.
ghost use Rattle.std.specs.Prelude.{◌≡◌, ℕ, List, [], Err, IfOk, None, Ok, OnOk, Result, Some, option_and_then};
ghost use Rattle.text_format.specs.Words.{words_of};
ghost use Rattle.debugger.specs.declared.Command.{Command as DebuggerCommand};
ghost use Rattle.bench_commands.specs.Command.{looked_up, command_said, commands_of, commands_then, if_function};
ghost use Rattle.bench_commands.specs.Command.{number_said, table_of_one, table_of_two, target_said, words_and};

use debugger::Command;
use nic_device::MAX_VFS;
use script_asm::target;
use std::alloc::{AllocFailed, Global};
use text_format::{Line, Lines, Words};

/// Why lines couldn't be parsed as commands.
#[derive(Clone, Copy, Debug, PartialEq, Eq)]
pub(crate) enum CommandFault {
    /// The line with this number isn't a command.
    Syntax(usize),
    /// There isn't enough memory for the commands.
    OutOfMemory,
}

impl<T: Drop> From<AllocFailed<T>> for CommandFault {
    ghost use Rattle.bench_commands.specs.declared.commands.CommandFault.TheVariants.{OutOfMemory};

    ghost from_gives = { λ _ fault. fault ≡ OutOfMemory };

    fn from(_error: AllocFailed<T>) -> CommandFault {
        CommandFault::OutOfMemory
    }
}

/// Returns the number that a word spells, or `None` if the word isn't a number.
fn number(word: &str) -> Option<u32>
    ensures { result ≡ number_said word.now }
{
    text_format::number(word).ok()
}

/// Returns the address that a word specifies, with the same syntax as in scripts.
fn address(word: &str) -> Option<u32>
    ensures { result ≡ target_said word.now }
{
    target(word).ok()
}

/// Returns the virtual function's number that a word spells, 0 to 62, or `None` if the word isn't such a number.
fn function(word: &str) -> Option<u8>
    ensures { result ≡ option_and_then if_function (number_said word.now) }
{
    let number = number(word)?;
    if number < u32::from(MAX_VFS) {
        Some(number as u8)
    } else {
        None
    }
}

/// Returns the command with this name and this one operand.
fn with_one(name: &str, a: &str) -> Option<Command>
    ensures { result ≡ looked_up name.now (table_of_one a.now) }
{
    match name {
        "step" => Some(Command::Step(u64::from(number(a)?))),
        "back" => Some(Command::Back(u64::from(number(a)?))),
        "continue" => Some(Command::Continue(u64::from(number(a)?))),
        "break" => Some(Command::Break(number(a)?)),
        "clear" => Some(Command::Clear(number(a)?)),
        "show" => Some(Command::Show(address(a)?)),
        _ => None,
    }
}

/// Returns the command with this name and these two operands.
fn with_two(name: &str, a: &str, b: &str) -> Option<Command>
    ensures { result ≡ looked_up name.now (table_of_two a.now b.now) }
{
    match name {
        "showvf" => Some(Command::ShowVf(function(a)?, number(b)?)),
        _ => None,
    }
}

/// Returns the command that a line's words spell.
fn read_command(mut words: Words<'_>) -> Option<Command>
    ensures { result ≡ command_said words.entry }
{
    match (words.next(), words.next(), words.next(), words.next()) {
        (Some(name), Some(a), None, _) => with_one(name, a),
        (Some(name), Some(a), Some(b), None) => with_two(name, a, b),
        (None, _, _, _) | (Some(_), None, _, _) | (Some(_), Some(_), Some(_), Some(_)) => None,
    }
}

/// Appends the command of a line, if the line has words.
fn add_line(commands: &mut Vec<Command>, line: Line<'_>) -> Result<(), CommandFault>
    ensures ok { OnOk result ((more : Result (List DebuggerCommand) ℕ)
        → commands_then commands.old.items
        (words_and line.entry.number (words_of line.entry.text.now) more)
        ≡ commands_then commands.new.items more) }
    ensures syntax { (n : ℕ) → result ≡ Err (CommandFault.Syntax n)
        → (more : Result (List DebuggerCommand) ℕ)
        → words_and line.entry.number (words_of line.entry.text.now) more ≡ Err n }
{
    if Words::of(line.text).next().is_none() {
        return Ok(());
    }
    match read_command(Words::of(line.text)) {
        Some(command) => commands.push(command)?,
        None => return Err(CommandFault::Syntax(line.number)),
    }
    Ok(())
}

/// Returns the commands on the lines. If a line has words but isn't a command, the error names the first such line.
pub(crate) fn read_commands(alloc: Global, lines: Lines<'_>) -> Result<Vec<Command>, CommandFault>
    ensures ok { IfOk result (λ commands. commands_of lines.entry ≡ Ok commands.items) }
    ensures syntax { (n : ℕ) → result ≡ Err (CommandFault.Syntax n)
        → commands_of lines.entry ≡ Err n }
{
    let mut commands = Vec::new(alloc);
    for line in lines {
        add_line(&mut commands, line)?;
    }
    Ok(commands)
}
