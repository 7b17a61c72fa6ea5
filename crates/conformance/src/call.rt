//! The call in a case: the function's name and the words after it.

use text_format::Words;

/// A call in a table's notation. A missing word reads as empty, and a word that isn't a number as 0.
#[derive(Clone, Copy)]
pub struct Call<'a> {
    /// The name of the called function.
    pub name: &'a str,
    /// Everything after the name.
    pub text: &'a str,
}

impl<'a> Call<'a> {
    /// Returns the call on the left of a case's `=`.
    pub fn of(text: &'a str) -> Call<'a> {
        let (name, text) = text.split_once(" ").unwrap_or((text, ""));
        Call { name, text }
    }

    /// Returns the part after the name, parsed as a call.
    pub fn after(self) -> Call<'a> {
        Call::of(self.text)
    }

    /// Returns the word with this number, from 0.
    pub fn word(self, at: usize) -> &'a str {
        Words::of(self.text).nth(at).unwrap_or("")
    }

    /// Returns the word with this number, as a 32-bit number.
    pub fn number(self, at: usize) -> u32 {
        text_format::number(self.word(at)).unwrap_or(0)
    }

    /// Returns the low 16 bits of the word with this number.
    pub fn half(self, at: usize) -> u16 {
        (self.number(at) % 0x1_0000) as u16
    }

    /// Returns the low 8 bits of the word with this number.
    pub fn byte(self, at: usize) -> u8 {
        (self.number(at) % 0x100) as u8
    }

    /// Returns a 64-bit number from two words, the high and the low half.
    pub fn long(self, high: usize, low: usize) -> u64 {
        u64::from(self.number(high)) * 0x1_0000_0000 + u64::from(self.number(low))
    }
}
