//! Assembles a script's source into its program.

ghost use Rattle.std.specs.Prelude.{◌≡◌, ◌≢◌, IfOk, IfErr, IfSome, IsOk, None, Ok, Err, false, true};
ghost use Rattle.std.specs.List.{after_first, before_first, list_any};
ghost use Rattle.text_format.specs.Lines.{line_of, lines_of};
ghost use Rattle.text_format.specs.Words.{words_of};
ghost use Rattle.script_asm.specs.End.{has_end, is_end, is_only, lines_after, program_before};
ghost use Rattle.script_asm.specs.Fault.{Gives};
ghost use Rattle.script_asm.specs.Outline.{blank};
ghost use Rattle.script_asm.specs.Script.{with_line, with_lines, program_of};

use crate::faults::ScriptFault;
use crate::sheet::Sheet;
use crate::statements::read_line;
use program::Program;
use std::alloc::Global;
use text_format::{Line, Lines, Words};

/// Adds a line's statement to the sheet.
fn add_line<'a>(alloc: Global, sheet: &mut Sheet<'a>, line: Line<'a>) -> Result<(), ScriptFault>
    ensures { Gives (λ _. sheet.new) result (with_line sheet.old (line_of line.entry)) }
{
    let number = line.number;
    let statement = read_line(alloc, line)?;
    sheet.add(number, statement)
}

/// Reads all lines of a script. Names aren't looked up yet.
fn read_sheet(alloc: Global, text: &str) -> Result<Sheet<'_>, ScriptFault>
    ensures { Gives (λ sheet. sheet) result (with_lines blank (lines_of text.now)) }
{
    let mut sheet = Sheet::new(alloc);
    for line in Lines::of(text) {
        add_line(alloc, &mut sheet, line)?;
    }
    Ok(sheet)
}

/// Assembles a script into its program, or returns its fault.
///
/// The first line with `Syntax`, `UnknownName`, `Range`, `TwoLabels` or `TooLong` is reported. If that line has several
/// of these faults, the first in this list is reported. If no line has any of these faults, the first line with one of
/// two others is reported. Such a line uses a label or data name that no line defines (`UnknownLabel`), or pokes data
/// that isn't 16 bytes long (`Range`). `OutOfMemory` may be returned in place of any other result.
#[tactic(auto, unfolding(crate::specs::Script::program_of))]
pub fn assemble(alloc: Global, text: &str) -> Result<Program, ScriptFault>
    ensures program { IfOk result (λ program. program_of text.now ≡ Ok program) }
    ensures fault { IfErr result (λ fault. fault ≢ ScriptFault.OutOfMemory → program_of text.now ≡ Err fault) }
{
    let sheet = read_sheet(alloc, text)?;
    sheet.into_program(alloc)
}

/// Whether the line consists only of this word.
fn is_only(word: &str, line: &str) -> bool
    ensures { result ≡ is_only word.now (words_of line.now) }
{
    let mut words = Words::of(line);
    match (words.next(), words.next()) {
        (Some(only), None) => only == word,
        (None, _) | (Some(_), Some(_)) => false,
    }
}

/// Reads the lines before the first line that consists only of the given word `end`, and returns whether such a line
/// exists. The lines after the `end` line aren't read.
fn read_before<'a>(
    alloc: Global,
    lines: &mut Lines<'a>,
    end: &str,
) -> Result<(Sheet<'a>, bool), ScriptFault>
    ensures sheet { Gives (λ read. read.0) result
        (with_lines blank (before_first (is_end end.now) lines.old)) }
    ensures end { IfOk result (λ read. read.1 ≡ has_end end.now lines.old) }
    ensures after { IfOk result (λ read. lines.new ≡ lines_after end.now lines.old) }
{
    let mut sheet = Sheet::new(alloc);
    'script: while let Some(line) = lines.next() {
        if is_only(end, line.text) {
            return Ok((sheet, true));
        }
        add_line(alloc, &mut sheet, line)?;
    }
    Ok((sheet, false))
}

/// Assembles the lines before the first line that consists only of the given word `end`. The lines after the `end` line
/// aren't read. Returns `None` if there is no `end` line and all lines form a script.
///
/// Faults are reported as by `assemble`. `OutOfMemory` may be returned in place of any other result.
pub fn assemble_before(
    alloc: Global,
    lines: &mut Lines<'_>,
    end: &str,
) -> Result<Option<Program>, ScriptFault>
    ensures program { IfOk result (λ found. IfSome found (λ program.
        program_before end.now lines.old ≡ Ok program)) }
    ensures after { IfOk result (λ found. IfSome found (λ _. (has_end end.now lines.old ≡ true)
        × (lines.new ≡ lines_after end.now lines.old))) }
    ensures endless { result ≡ Ok None
        → (has_end end.now lines.old ≡ false) × IsOk (program_before end.now lines.old) }
    ensures fault { IfErr result (λ fault. fault ≢ ScriptFault.OutOfMemory
        → program_before end.now lines.old ≡ Err fault) }
{
    let (sheet, has_end) = read_before(alloc, lines, end)?;
    let program = sheet.into_program(alloc)?;
    if has_end { Ok(Some(program)) } else { Ok(None) }
}
