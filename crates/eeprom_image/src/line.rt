//! Parses a line of EEPROM source.

ghost use Rattle.std.specs.Prelude.{◌≡◌, ◌^◌};
ghost use Rattle.eeprom_image.specs.Line.{number_in, one_number, two_numbers, size_line, word_line, csr_line, text_line};

use crate::image::is_size;
use text_format::{Words, number};

/// The statement of a line.
#[derive(Clone, Copy)]
pub(crate) enum TextLine {
    /// The line has no words.
    Empty,
    /// `size N`: the image has N words.
    Size(u32),
    /// `word INDEX VALUE`: the word at the index has this value.
    Word(u32, u16),
    /// `csr OFFSET DATA`: a reset writes the data to the register at this byte offset.
    Csr(u32, u32),
    /// The line has none of these forms, or contains a number that is out of range.
    Malformed,
}

/// Returns the number that a word spells, or `None` if the word doesn't spell a number.
fn number_in(word: &str) -> Option<u32>
    ensures { result ≡ number_in word.now }
{
    number(word).ok()
}

/// Returns the number if the words are exactly one number, otherwise `None`.
fn one_number(mut words: Words<'_>) -> Option<u32>
    ensures { result ≡ one_number words.entry }
{
    let number = number_in(words.next()?)?;
    match words.next() {
        None => Some(number),
        Some(_) => None,
    }
}

/// Returns the two numbers if the words are exactly two numbers, otherwise `None`.
fn two_numbers(mut words: Words<'_>) -> Option<(u32, u32)>
    ensures { result ≡ two_numbers words.entry }
{
    let first = number_in(words.next()?)?;
    let second = one_number(words)?;
    Some((first, second))
}

fn size_line(count: Option<u32>) -> TextLine
    ensures { result ≡ size_line count }
{
    match count {
        Some(count) if is_size(count as usize) => TextLine::Size(count),
        Some(_) | None => TextLine::Malformed,
    }
}

/// Returns the statement of a `word` line with these operands.
fn word_line(given: Option<(u32, u32)>) -> TextLine
    ensures { result ≡ word_line given }
{
    match given {
        Some((index, value)) if value < 0x10000 => TextLine::Word(index, value as u16),
        Some(_) | None => TextLine::Malformed,
    }
}

/// Returns the statement of a `csr` line with these operands.
fn csr_line(given: Option<(u32, u32)>) -> TextLine
    ensures { result ≡ csr_line given }
{
    match given {
        Some((offset, value)) if offset % 4 == 0 && offset < 0x40000 => {
            TextLine::Csr(offset, value)
        }
        Some(_) | None => TextLine::Malformed,
    }
}

/// Parses a line as a statement.
#[tactic(auto, unfolding(crate::specs::Line::text_line))]
pub(crate) fn text_line(line: &str) -> TextLine
    ensures { result ≡ text_line line.now }
{
    let mut words = Words::of(line);
    match words.next() {
        None => TextLine::Empty,
        Some("size") => size_line(one_number(words)),
        Some("word") => word_line(two_numbers(words)),
        Some("csr") => csr_line(two_numbers(words)),
        Some(_) => TextLine::Malformed,
    }
}
