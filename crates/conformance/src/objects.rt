//! `program`: reading objects.
//!
//! `read HEX` reads the bytes, `cut COUNT HEX` reads only the first of them, and `byte AT VALUE HEX` reads them with
//! one byte replaced. Each prints the program as its instructions and its data strings, or the fault. The program that
//! was read is encoded again, and `other` is printed if its object differs from the bytes. Hex may contain blanks.

use crate::call::Call;
use crate::texts::hex_in;
use program::{Program, read};
use std::alloc::{AllocError, Global};
use std::fmt::Write;
use text_format::BytesText;

/// Returns the printed result of a call.
pub fn answer(alloc: Global, call: Call<'_>) -> Result<String, AllocError> {
    let hex = match call.name {
        "read" => call.text,
        "cut" => call.after().text,
        "byte" => call.after().after().text,
        _ => return format!(in alloc; "no such call"),
    };
    let mut bytes = hex_in(alloc, hex)?;
    let at = usize::from(call.half(0));
    if call.name == "cut" {
        bytes.truncate(at);
    } else if call.name == "byte" && at < bytes.len() {
        bytes[at] = call.byte(1);
    }
    match read(alloc, &bytes) {
        Ok(program) => program_text(alloc, &program, &bytes),
        Err(fault) => format!(in alloc; "{fault:?}"),
    }
}

/// Returns the printed form of a program after its object was encoded again.
fn program_text(alloc: Global, program: &Program, bytes: &[u8]) -> Result<String, AllocError> {
    if program.to_bytes(alloc)?.as_slice() != bytes {
        return format!(in alloc; "other");
    }
    let mut text = format!(in alloc; "program")?;
    for instruction in program.code() {
        write!(text, " {instruction:?}")?;
    }
    for string in program.strings() {
        write!(text, " data {}", BytesText(string.bytes()))?;
    }
    Ok(text)
}
