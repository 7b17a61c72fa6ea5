//! What the lines of EEPROM source define.

ghost use Rattle.std.specs.Prelude.{◌≡◌, IfOk, IfErr};
ghost use Rattle.eeprom_image.specs.Content.{with_line, with_lines, content_of, only_size};
ghost use Rattle.eeprom_image.specs.Line.{text_line};
ghost use Rattle.eeprom_image.specs.Text.{Gives, Fails};
ghost use Rattle.eeprom_image.specs.Draft.{content_in};

use crate::line::{TextLine, text_line};
use crate::text::AsmFault;
use std::alloc::Global;
use text_format::{Line, Lines};

/// The minimum length in bytes of a line that defines a word or a register write. The capacities of the two lists in a
/// `Draft` are computed from this length.
const LINE_LENGTH: usize = 8;

/// What the lines read so far define.
#[derive(Drop)]
pub(crate) struct Draft {
    /// The number of words in the image.
    pub(crate) size: u32,
    /// The defined words, each as its index and its value.
    pub(crate) words: Vec<(u32, u16)>,
    /// The defined register writes, each as the register's byte offset and the data.
    pub(crate) triples: Vec<(u32, u32)>,
}

/// Reads the size, which the first nonempty line must define. Returns the size and the lines after its line.
#[tactic(auto, unfolding(crate::specs::Content::sized))]
fn read_size(text: &str) -> Result<(u32, Lines<'_>), AsmFault>
    ensures ok { IfOk result (λ start. content_of text.now ≡ with_lines (only_size start.0) start.1) }
    ensures err { IfErr result (λ fault. Fails fault (content_of text.now)) }
{
    let mut lines = Lines::of(text);
    let mut count = 0;
    'empty_lines: while let Some(line) = lines.next() {
        match text_line(line.text) {
            TextLine::Empty => count = line.number,
            TextLine::Size(size) => return Ok((size, lines)),
            TextLine::Word(..) | TextLine::Csr(..) | TextLine::Malformed => {
                return Err(AsmFault::Syntax(line.number));
            }
        }
    }
    Err(AsmFault::Syntax(count + 1))
}

impl Draft {
    /// Adds what one line defines.
    fn take_line(&mut self, line: Line<'_>) -> Result<(), AsmFault>
        ensures { Gives (λ _. content_in self.new) result
            (with_line (content_in self.old) line.entry.number (text_line line.entry.text.now)) }
    {
        match text_line(line.text) {
            TextLine::Empty => {}
            TextLine::Word(index, value) => self.words.push((index, value))?,
            TextLine::Csr(offset, value) => self.triples.push((offset, value))?,
            TextLine::Size(_) | TextLine::Malformed => return Err(AsmFault::Syntax(line.number)),
        }
        Ok(())
    }

    /// Adds everything that these lines define.
    #[tactic(auto, unfolding(crate::specs::Content::with_lines))]
    fn take_lines(&mut self, lines: Lines<'_>) -> Result<(), AsmFault>
        ensures { Gives (λ _. content_in self.new) result (with_lines (content_in self.old) lines.entry) }
    {
        for line in lines {
            self.take_line(line)?;
        }
        Ok(())
    }
}

/// Returns what EEPROM source defines, or its first faulty line.
pub(crate) fn read(alloc: Global, text: &str) -> Result<Draft, AsmFault>
    ensures { Gives content_in result (content_of text.now) }
{
    let (size, lines) = read_size(text)?;
    let mut draft = Draft {
        size,
        words: Vec::with_capacity(alloc, text.len() / LINE_LENGTH)?,
        triples: Vec::with_capacity(alloc, text.len() / LINE_LENGTH)?,
    };
    draft.take_lines(lines)?;
    Ok(draft)
}
