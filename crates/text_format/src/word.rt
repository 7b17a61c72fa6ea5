//! Prints register words and addresses.
ghost use Rattle.std.specs.Prelude.{Some};
ghost use Rattle.text_format.specs.Word.{address_text, word_text};

use std::fmt;

/// Displays a register's word as `0x` and eight lower-case hex digits.
#[derive(Clone, Copy, Debug, PartialEq, Eq)]
pub struct WordText(
    /// The word to print.
    pub u32,
);

impl fmt::Display for WordText {
    ghost output = { λ w. Some (word_text w.0) };

    fn fmt<W: fmt::Write>(&self, f: &mut fmt::Formatter<W>) -> fmt::Result {
        let word = self.0;
        write!(f, "0x{word:08x}")
    }
}

/// Displays a bus or register address as `0x` and at least five lower-case hex digits.
#[derive(Clone, Copy, Debug, PartialEq, Eq)]
pub struct AddressText(
    /// The address, in bytes.
    pub u64,
);

impl fmt::Display for AddressText {
    ghost output = { λ a. Some (address_text a.0) };

    fn fmt<W: fmt::Write>(&self, f: &mut fmt::Formatter<W>) -> fmt::Result {
        let address = self.0;
        write!(f, "0x{address:05x}")
    }
}
