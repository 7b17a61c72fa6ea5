//! The longest accepted inputs and programs.

use crate::input::ran;
use crate::outcome::{Hand, holds};
use bench::Outcome;
use std::alloc::{AllocError, Global};
use std::fmt::Write;
use std::test::Fail;

/// Whether `nicbench run` exits with this status for a script and prints output that ends with this string.
fn ends_so(alloc: Global, script: &str, end: &str, wanted: u8) -> bool {
    let (written, outcome) = ran(alloc, &["nicbench", "run"], &mut script.as_bytes());
    outcome == Outcome::Ended(wanted) && written.as_slice().ends_with(end.as_bytes())
}

/// Returns a string that consists of the start, the part repeated `count` times, and the rest.
fn repeated(
    alloc: Global,
    start: &str,
    part: &str,
    count: usize,
    rest: &str,
) -> Result<String, AllocError> {
    let mut text = String::new(alloc);
    text.push_str(start)?;
    for _part in 0..count {
        text.push_str(part)?;
    }
    text.push_str(rest)?;
    Ok(text)
}

/// The start of a script, a part, its number of repetitions, the rest, the end of the output, and the exit status.
type Row<'a> = (&'a str, &'a str, usize, &'a str, &'a str, u8);

#[rattlefmt::skip]
const ROWS: [Row<'static>; 10] = [
    ("", "r GPIE\n", 4096, "", "\n4095 word 0x00000000\nok 4096\n", 0),
    ("", "r GPIE\n", 4096, "\n# a comment", "\nok 4096\n", 0),
    ("", "r GPIE\n", 4097, "", "refused TooLong\n", 2),
    ("", "r GPIE\n", 4097, "\n+", "refused TooLong\n", 2),
    ("", "r GPIE\n", 4096, "r NOSUCH", "refused UnknownName 4097\n", 2),
    ("data d ", "5a", 16_384, "", "ok 0\n", 0),
    ("data d ", "5a", 16_384, "\narrive d", "0 dropped off\nok 1\n", 0),
    ("data d ", "5a", 16_385, "\narrive d", "refused TooLong\n", 2),
    // An extra half byte isn't valid hex.
    ("data d ", "5a", 16_384, "5", "refused Syntax 1\n", 2),
    ("data d ", "5a", 16_385, "5", "refused Syntax 1\n", 2),
];

/// Checks that each script ends as its row says.
fn end_as_reported(rt: &impl Hand, rows: &[Row<'_>]) -> Result<(), AllocError> {
    for (start, part, count, rest, end, ended) in rows {
        let script = repeated(rt.alloc(), start, part, *count, rest)?;
        holds(rt, rest, ends_so(rt.alloc(), script.as_str(), end, *ended));
    }
    Ok(())
}

/// A program contains at most 4,096 instructions, and a data string at most 16,384 bytes.
#[test]
fn longest_scripts(rt: HostRuntime) -> Result<(), Fail> {
    end_as_reported(&rt, &ROWS)?;
    Ok(())
}

/// Returns a script with this many data strings.
fn data_strings(alloc: Global, count: u32) -> Result<String, AllocError> {
    let mut script = String::new(alloc);
    for number in 0..count {
        write!(script, "data d{number} 00\n")?;
    }
    Ok(script)
}

/// A script contains at most 1,024 data strings.
#[test]
fn most_data_strings(rt: HostRuntime) -> Result<(), Fail> {
    let mut script = data_strings(rt.alloc(), 1024)?;
    script.push_str("arrive d1023\n")?;
    let is_run = ends_so(rt.alloc(), script.as_str(), "0 dropped off\nok 1\n", 0);
    holds(&rt, "as many as there may be", is_run);
    script.push_str("data more 00\n")?;
    let is_refused = ends_so(rt.alloc(), script.as_str(), "refused TooLong\n", 2);
    holds(&rt, "one more", is_refused);
    Ok(())
}

/// Returns an object with this many instructions, each `halt`, and this many data strings of one byte.
fn object(alloc: Global, instructions: u16, strings: u16) -> Result<Vec<u8>, AllocError> {
    let mut bytes = Vec::new(alloc);
    let length = 16 + 12 * u32::from(instructions) + 3 * u32::from(strings);
    bytes.extend_from_slice(b"NBSC\x01\0")?;
    bytes.extend_from_slice(&instructions.to_le_bytes())?;
    bytes.extend_from_slice(&strings.to_le_bytes())?;
    bytes.extend_from_slice(&[0; 2])?;
    bytes.extend_from_slice(&length.to_le_bytes())?;
    for _instruction in 0..instructions {
        bytes.extend_from_slice(&[22, 0, 0, 0, 0, 0, 0, 0, 0, 0, 0, 0])?;
    }
    for _string in 0..strings {
        bytes.extend_from_slice(&[1, 0, 0x5a])?;
    }
    Ok(bytes)
}

/// Whether `nicbench dis` exits with this status for an object and prints output that ends with this string.
fn is_listed(alloc: Global, object: &[u8], end: &str, wanted: u8) -> bool {
    let mut input = object;
    let (written, outcome) = ran(alloc, &["nicbench", "dis"], &mut input);
    outcome == Outcome::Ended(wanted) && written.as_slice().ends_with(end.as_bytes())
}

/// The name of a row, the numbers of instructions and data strings in the object, the end of the output, and the exit
/// status.
const OBJECTS: [(&str, u16, u16, &str, u8); 4] = [
    ("4,096 instructions", 4096, 0, "\nhalt\n", 0),
    ("4,097 instructions", 4097, 0, "refused Length\n", 2),
    ("1,024 data strings", 0, 1024, " 5a\n", 0),
    ("1,025 data strings", 0, 1025, "refused Length\n", 2),
];

/// An object contains at most 4,096 instructions and 1,024 data strings.
#[test]
fn largest_objects(rt: HostRuntime) -> Result<(), Fail> {
    for (name, instructions, strings, end, ended) in &OBJECTS {
        let bytes = object(rt.alloc(), *instructions, *strings)?;
        holds(&rt, name, is_listed(rt.alloc(), &bytes, end, *ended));
    }
    Ok(())
}
