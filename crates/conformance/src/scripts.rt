//! Runs tables of small scripts and other inputs through the program, and prints the cases with unexpected output.
//!
//! A table is a file in `data/`. The table starts with its setup: the lines that are prepended to each of its scripts.
//! The cases follow, each preceded by a blank line:
//!
//! ```text
//! == what the case shows
//! $ nicbench run --limit 2
//! w GPIE 1         #> done
//! r GPIE           #> word 0x00000001
//! r GPIE
//! -- 1
//! limit 2
//! ```
//!
//! `$` is followed by the command line, unless the command line is `nicbench run`. After `$x`, the lines are the bytes
//! of the input, in hex. An instruction's expected output follows `#>`, which the assembler reads as a comment. `--` is
//! followed by the expected status, and then by the output after the instructions' lines. Without a `--` line, status 0
//! is expected, and `ok` with the number of instructions. `-- 3 with` only requires that each line below it is a part
//! of the output; there must be at least one such line. `-- 2 each` tests each line above it separately; there must be
//! at least one such line. After the setup, each of them must print exactly the text below.

use crate::texts::hex_in;
use bench_commands::{Input, Outcome, Output, bench};
use std::alloc::{AllocError, Global};
use std::fmt::Write;
use std::{fs, io};
use text_format::number;

/// The tables in `data/`, by name.
const TABLES: [&str; 22] = [
    "grammar",
    "words",
    "registers",
    "settings",
    "memory",
    "queues",
    "queue_registers",
    "filter",
    "sorting",
    "receive",
    "transmit",
    "counters",
    "interrupts",
    "functions",
    "mailbox",
    "eeprom_registers",
    "jumps",
    "hash",
    "eeprom",
    "objects",
    "debugger",
    "commands",
];

/// A case of a table.
#[derive(Clone, Copy)]
struct Case<'a> {
    title: &'a str,
    words: &'a str,
    is_hex: bool,
    lines: &'a str,
    /// The expected exit status.
    status: u32,
    /// How `printed` is compared with the output. If `how` is empty, `printed` must be everything after the lines of
    /// the instructions. `with` and `each` are described above, and `ok` expects `ok` with the number of instructions.
    how: &'a str,
    printed: &'a str,
}

/// Parses a case from the text after its `==`.
fn case_of(text: &str) -> Option<Case<'_>> {
    let (title, text) = text.split_once("\n")?;
    let is_hex = text.starts_with("$x ");
    let (words, text) = match text.strip_prefix("$ ").or(text.strip_prefix("$x ")) {
        Some(text) => text.split_once("\n")?,
        None => ("nicbench run", text),
    };
    let (lines, ending) = text.split_once("-- ").unwrap_or((text, "0 ok\n"));
    let (head, printed) = ending.split_once("\n")?;
    let (status, how) = head.split_once(" ").unwrap_or((head, ""));
    Some(Case {
        title,
        words,
        is_hex,
        lines,
        status: number(status).ok()?,
        how,
        printed,
    })
}

/// Returns the expected output of a script: the lines in its comments, each with its instruction's number, then the
/// lines of the case.
fn wanted(alloc: Global, script: &str, case: Case<'_>) -> Result<String, AllocError> {
    let mut printed = String::new(alloc);
    let mut count = 0u64;
    for line in script.lines() {
        if let Some((_, text)) = line.split_once("#> ") {
            writeln!(printed, "{count} {text}")?;
            count = count.saturating_add(1);
        }
    }
    if case.how == "ok" {
        writeln!(printed, "ok {count}")?;
    }
    printed.push_str(case.printed)?;
    Ok(printed)
}

/// Whether each part occurs somewhere in the output. There must be at least one part, and each is a line.
fn has_parts(printed: &str, parts: &str) -> bool {
    for part in parts.lines() {
        if part.is_empty() || !printed.contains(part) {
            return false;
        }
    }
    !parts.is_empty()
}

/// The status returned for words that request threads. The program itself never exits with this status.
const NOT_ENDED: u8 = 255;

/// Runs the program with these words. Returns its output and its exit status.
pub fn answer(alloc: Global, words: &str, input: &[u8]) -> Result<(Vec<u8>, u8), AllocError> {
    let words: Vec<&str> = words.split_whitespace().collect(alloc)?;
    let mut written = Vec::new(alloc);
    let mut output = Output::of(&mut written);
    let status = match bench(alloc, &mut Input::of(input), &mut output, words.as_slice()) {
        Outcome::Ended(status) => status,
        Outcome::Threads { .. } => NOT_ENDED,
    };
    Ok((written, status))
}

/// Whether each line of a case, run separately after the table's setup, prints the expected output and exits with the
/// expected status. There must be at least one line.
fn each_ends_so(alloc: Global, setup: &str, case: Case<'_>) -> Result<bool, AllocError> {
    for line in case.lines.lines() {
        let script = format!(in alloc; "{setup}{line}")?;
        let (printed, status) = answer(alloc, case.words, script.as_bytes())?;
        if u32::from(status) != case.status || printed.as_slice() != case.printed.as_bytes() {
            return Ok(false);
        }
    }
    Ok(!case.lines.is_empty())
}

/// Whether a case, run after the table's setup, has the expected result.
fn ends_so(alloc: Global, setup: &str, case: Case<'_>) -> Result<bool, AllocError> {
    if case.how == "each" {
        return each_ends_so(alloc, setup, case);
    }
    let script = format!(in alloc; "{setup}{}", case.lines)?;
    let (printed, status) = if case.is_hex {
        answer(
            alloc,
            case.words,
            hex_in(alloc, script.as_str())?.as_slice(),
        )?
    } else {
        answer(alloc, case.words, script.as_bytes())?
    };
    let printed = String::from_utf8(printed).unwrap_or(String::new(alloc));
    let is_printed = match case.how {
        "with" => has_parts(printed.as_str(), case.printed),
        "" | "ok" => printed.as_str() == wanted(alloc, script.as_str(), case)?.as_str(),
        _ => false,
    };
    Ok(u32::from(status) == case.status && is_printed)
}

/// Runs the cases in a table, and prints the cases that differ and the number of cases.
fn run_table(rt: &HostRuntime, name: &str) -> io::Result<()> {
    let alloc = rt.alloc();
    let path = format!(in alloc; "{name}.cases")?;
    let text = fs::read_to_string(rt, path.as_str())?;
    let (setup, cases) = text.split_once("\n== ").unwrap_or(("", ""));
    let mut count = 0u64;
    for text in cases.split("\n== ") {
        match case_of(text) {
            Some(case) => {
                if !ends_so(alloc, setup, case)? {
                    println!(rt; "{name}: {}: DIFFERS", case.title)?;
                }
            }
            None => println!(rt; "{name}: a case that can't be read: {text}")?,
        }
        count = count.saturating_add(1);
    }
    println!(rt; "{name}: {count} cases")
}

/// Runs all tables and prints their results.
pub fn run_tables(rt: &HostRuntime) -> io::Result<()> {
    for name in TABLES {
        run_table(rt, name)?;
    }
    Ok(())
}
