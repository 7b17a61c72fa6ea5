//! Tables of expected results for the lower libraries' public calls, with values taken from the datasheet, taken from
//! published examples, or written by hand.
//!
//! `data/libraries/NAME.cases` is the table of the library NAME. A case is a line `CALL WORDS = ANSWER`; the library's
//! module defines the calls. Empty lines and lines that begin with `#` are ignored. A case needs no proof, so
//! everything that a call can show is tested here rather than in a test.

use crate::call::Call;
use std::alloc::{AllocError, Global};
use std::{fs, io};

/// The libraries that have a table.
const LIBRARIES: [&str; 8] = [
    "text_format",
    "reg_table",
    "dma_ring",
    "vf_map",
    "rss_hash",
    "intr_unit",
    "eeprom_image",
    "program",
];

/// Returns the printed result of a library call.
fn answer(alloc: Global, library: &str, call: Call<'_>) -> Result<String, AllocError> {
    match library {
        "text_format" => crate::texts::answer(alloc, call),
        "reg_table" => crate::registers::answer(alloc, call),
        "dma_ring" => crate::descriptors::answer(alloc, call),
        "vf_map" => crate::pools::answer(alloc, call),
        "rss_hash" => crate::hashing::answer(alloc, call),
        "intr_unit" => crate::interrupts::answer(alloc, call),
        "eeprom_image" => crate::images::answer(alloc, call),
        "program" => crate::objects::answer(alloc, call),
        _ => format!(in alloc; "no such library"),
    }
}

/// Runs the call of a case, and prints the case if the result differs.
fn run_case(rt: &HostRuntime, library: &str, case: &str) -> io::Result<()> {
    let (asked, wanted) = case.split_once(" = ").unwrap_or((case, ""));
    let answered = answer(rt.alloc(), library, Call::of(asked))?;
    if answered.as_str() == wanted {
        return Ok(());
    }
    println!(rt; "FAIL {library}: {asked} = {answered}")
}

/// Runs the cases in a library's table and prints the number of cases.
fn run_table(rt: &HostRuntime, library: &str) -> io::Result<()> {
    let alloc = rt.alloc();
    let path = format!(in alloc; "libraries/{library}.cases")?;
    let text = fs::read_to_string(rt, path.as_str())?;
    let mut count = 0u64;
    for line in text.lines() {
        if !line.is_empty() && !line.starts_with("#") {
            run_case(rt, library, line)?;
            count = count.saturating_add(1);
        }
    }
    println!(rt; "{library}: {count} cases")
}

/// Runs the tables of all libraries.
pub fn run_libraries(rt: &HostRuntime) -> io::Result<()> {
    for library in LIBRARIES {
        run_table(rt, library)?;
    }
    Ok(())
}
