//! Splits a text into numbered lines.

ghost use Rattle.std.specs.Prelude.{◌≡◌, ◌<◌, [], ◌∷◌, length, MatchOption, IfSome};
ghost use Rattle.std.specs.Str.Lines.{lines, strip_carriage_return};
ghost use Rattle.std.specs.Iterator.{YieldsFirstBy, item_count};
ghost use Rattle.text_format.specs.Lines.{lines_of};

use std::marker::Model;

/// A line of a text, without its line end.
#[derive(Clone, Copy, Debug, PartialEq, Eq)]
pub struct Line<'a> {
    /// The line's number, counted from 1.
    pub number: usize,
    /// The text of the line, comments included.
    pub text: &'a str,
}

/// An iterator over the lines of a text, in order.
///
/// A line ends in LF or CR LF. The last line may lack a line end, but then that line isn't empty: a text that ends in
/// LF has no empty line after the LF. A carriage return anywhere else is part of the line that contains it.
#[derive(Debug, Drop)]
pub struct Lines<'a> {
    rest: &'a str,
    /// The number of lines before `rest`.
    before: usize,
}

impl<'a> Model for Lines<'a> {
    ghost use Rattle.std.specs.Prelude.{List, length, ◌+◌, ◌<◌, ◌^◌};
    ghost use Rattle.text_format.specs.Lines.{NumberedLine, numbered_from};
    ghost use Rattle.std.specs.Str.Lines.{lines};

    ghost Value = { List NumberedLine };

    ghost view = { λ a. numbered_from (a.before + 1) (lines a.rest.now) };

    // Each line takes at least one byte, so the number of lines fits in a `usize`.
    ghost invariant = { λ a. a.before + length a.rest.now < 2 ^ 64 };
}

impl<'a> Lines<'a> {
    /// Returns an iterator over the lines of a text, numbered from 1.
    #[tactic(auto, unfolding(crate::specs::Lines::lines_of))]
    pub fn of(text: &'a str) -> Lines<'a>
        ensures { result ≡ lines_of text.now }
    {
        Lines {
            rest: text,
            before: 0,
        }
    }
}

/// Returns a line without its final carriage return, if it has one.
fn without_carriage_return(line: &str) -> &str
    ensures { result.now ≡ strip_carriage_return line.now }
{
    match line.strip_suffix('\r') {
        Some(front) => front,
        None => line,
    }
}

/// Returns the first line of a text and the text after that line, or `None` if the text is empty.
fn split_line(text: &str) -> Option<(&str, &str)>
    ensures cases { MatchOption result (lines text.now ≡ [])
        (λ parts. lines text.now ≡ parts.0.now ∷ lines parts.1.now) }
    ensures shorter { IfSome result (λ parts. length parts.1.now < length text.now) }
{
    if text.is_empty() {
        return None;
    }
    match text.split_once('\n') {
        Some((line, after)) => Some((without_carriage_return(line), after)),
        None => Some((text, "")),
    }
}

impl<'a> Iterator for Lines<'a> {
    ghost use Rattle.text_format.specs.Lines.{line_of};

    type Item = Line<'a>;

    ghost next_gives = { YieldsFirstBy line_of (λ lines. lines) };

    ghost remaining = { item_count (λ lines. lines) };

    #[inline(always)]
    fn next(&mut self) -> Option<Line<'a>> {
        let (text, rest) = split_line(self.rest)?;
        self.rest = rest;
        self.before += 1;
        Some(Line {
            number: self.before,
            text,
        })
    }
}
