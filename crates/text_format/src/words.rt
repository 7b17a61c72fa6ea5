//! Splits a line into words.

ghost use Rattle.std.specs.Prelude.{◌≡◌, ◌∷◌, [], not, take, drop, position, MatchOption};
ghost use Rattle.std.specs.List.{position_or_len};
ghost use Rattle.std.specs.Iterator.{YieldsFirstRef, item_count};
ghost use Rattle.text_format.specs.Words.{is_blank, ends_word, words_of};

use std::marker::Model;

/// An iterator over the words of a line, in order. Spaces and tabs separate words, and the first `#` starts a comment,
/// which contains no words.
///
/// Every other character is part of a word.
#[derive(Debug, Drop)]
pub struct Words<'a> {
    rest: &'a str,
}

impl<'a> Model for Words<'a> {
    ghost use Rattle.std.specs.Prelude.{List, ℕ};
    ghost use Rattle.text_format.specs.Words.{words_of};

    ghost Value = { List (List ℕ) };

    ghost view = { λ words. words_of words.rest.now };
}

#[inline(always)]
fn is_blank(byte: u8) -> bool
    ensures { result ≡ is_blank byte }
{
    byte == b' ' || byte == b'\t'
}

fn ends_word(byte: u8) -> bool
    ensures { result ≡ ends_word byte }
{
    byte == b'#' || is_blank(byte)
}

/// Returns the index of the first byte that isn't a blank.
#[inline(always)]
fn first_unblank(bytes: &[u8]) -> Option<usize>
    ensures { result ≡ position (λ byte. not (is_blank byte)) bytes.now }
{
    bytes.iter().position(|byte| !is_blank(*byte))
}

/// Returns the number of leading blanks.
#[inline(always)]
fn blanks_in_front(bytes: &[u8]) -> usize
    ensures { result ≡ position_or_len (λ byte. not (is_blank byte)) bytes.now }
{
    match first_unblank(bytes) {
        Some(blanks) => blanks,
        None => bytes.len(),
    }
}

/// Returns the index of the first byte that ends a word.
fn first_end(bytes: &[u8]) -> Option<usize>
    ensures { result ≡ position ends_word bytes.now }
{
    bytes.iter().position(|byte| ends_word(*byte))
}

/// Returns the number of bytes before the first one that ends a word.
fn word_length(bytes: &[u8]) -> usize
    ensures { result ≡ position_or_len ends_word bytes.now }
{
    match first_end(bytes) {
        Some(end) => end,
        None => bytes.len(),
    }
}

/// Returns a string without its leading blanks.
fn after_blanks(text: &str) -> &str
    ensures { result.now ≡ drop (position_or_len (λ byte. not (is_blank byte)) text.now) text.now }
{
    let blanks = blanks_in_front(text.as_bytes());
    &text[blanks..]
}

/// Splits a string at the first byte that ends a word.
fn split_at_end(text: &str) -> (&str, &str)
    ensures word { result.0.now ≡ take (position_or_len ends_word text.now) text.now }
    ensures after { result.1.now ≡ drop (position_or_len ends_word text.now) text.now }
{
    let end = word_length(text.as_bytes());
    (&text[..end], &text[end..])
}

/// Returns the first word of a string and the string after that word, or `None` if the string contains no word.
fn split_word(text: &str) -> Option<(&str, &str)>
    ensures { MatchOption result (words_of text.now ≡ [])
        (λ parts. words_of text.now ≡ parts.0.now ∷ words_of parts.1.now) }
{
    let (word, after) = split_at_end(after_blanks(text));
    if word.is_empty() {
        None
    } else {
        Some((word, after))
    }
}

impl<'a> Words<'a> {
    /// Returns an iterator over the words of a line.
    pub fn of(line: &'a str) -> Words<'a>
        ensures { result ≡ words_of line.now }
    {
        Words { rest: line }
    }
}

impl<'a> Iterator for Words<'a> {
    type Item = &'a str;

    ghost next_gives = { YieldsFirstRef (λ words. words) };

    ghost remaining = { item_count (λ words. words) };

    fn next(&mut self) -> Option<&'a str> {
        let (word, rest) = split_word(self.rest)?;
        self.rest = rest;
        Some(word)
    }
}
