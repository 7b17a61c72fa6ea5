//! `text_format`: lines, words, numbers, names and hex data.
//!
//! In a string, `\n`, `\r` and `\t` stand for a line feed, a carriage return and a tab. `lines` prints a bar, then each
//! line's number, its contents and a bar. `words` prints a bar, then each word and a bar.

use crate::call::Call;
use std::alloc::{AllocError, Global};
use std::fmt::Write;
use text_format::{Lines, NAME_LIMIT, Words, hex_bytes, is_name, number};

/// Returns the printed result of a call.
pub fn answer(alloc: Global, call: Call<'_>) -> Result<String, AllocError> {
    match call.name {
        "lines" => lines_text(alloc, call.text),
        "words" => words_text(alloc, call.text),
        "number" => match number(call.text) {
            Ok(number) => format!(in alloc; "{number}"),
            Err(fault) => format!(in alloc; "{fault:?}"),
        },
        "name" => format!(in alloc; "{}", is_name(call.text)),
        "name_limit" => format!(in alloc; "{NAME_LIMIT}"),
        "hex" => match hex_bytes(alloc, call.text) {
            Ok(bytes) => format!(in alloc; "{:?}", bytes.as_slice()),
            Err(fault) => format!(in alloc; "{fault:?}"),
        },
        _ => format!(in alloc; "no such call"),
    }
}

/// Returns the bytes that a string spells in hex, or no bytes if it isn't hex. The string may contain blanks and line
/// feeds.
pub fn hex_in(alloc: Global, text: &str) -> Result<Vec<u8>, AllocError> {
    let digits = text.replace(alloc, "\n", "")?.replace(alloc, " ", "")?;
    Ok(hex_bytes(alloc, digits.as_str()).unwrap_or(Vec::new(alloc)))
}

/// Returns a table's text with its escapes replaced by line feeds, carriage returns and tabs.
pub fn plain(alloc: Global, text: &str) -> Result<String, AllocError> {
    let text = text.replace(alloc, "\\n", "\n")?;
    let text = text.replace(alloc, "\\r", "\r")?;
    text.replace(alloc, "\\t", "\t")
}

fn lines_text(alloc: Global, text: &str) -> Result<String, AllocError> {
    let text = plain(alloc, text)?;
    let mut answer = format!(in alloc; "|")?;
    for line in Lines::of(text.as_str()) {
        write!(answer, "{} {:?}|", line.number, line.text)?;
    }
    Ok(answer)
}

fn words_text(alloc: Global, text: &str) -> Result<String, AllocError> {
    let text = plain(alloc, text)?;
    let mut answer = format!(in alloc; "|")?;
    for word in Words::of(text.as_str()) {
        write!(answer, "{word}|")?;
    }
    Ok(answer)
}
