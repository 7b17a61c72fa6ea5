//! The register writes in an image's CSR section.

ghost use Rattle.std.specs.Iterator.{YieldsFirst, item_count};

use std::marker::Model;

/// An iterator over the register writes in an image, in order. Each item is the register's byte offset, a multiple of 4
/// below 0x40000, and the data.
#[derive(Debug, Drop)]
pub struct Triples<'a> {
    /// The words of the CSR section that remain to be read, never including the section's first word.
    words: &'a [u16],
}

impl<'a> Model for Triples<'a> {
    ghost use Rattle.std.specs.Prelude.{List, ℕ};
    ghost use Rattle.eeprom_image.specs.Triples.{triples_in};

    ghost Value = { List (ℕ × ℕ) };

    ghost view = { λ a. triples_in a.words.now };
}

impl<'a> Triples<'a> {
    ghost use Rattle.std.specs.Prelude.{◌≡◌};
    ghost use Rattle.eeprom_image.specs.Triples.{triples_in};

    /// Returns the register writes in these words of a CSR section, which must not include the section's first word.
    pub(crate) fn of(words: &'a [u16]) -> Triples<'a>
        ensures { result ≡ triples_in words.now }
    {
        Triples { words }
    }
}

impl Iterator for Triples<'_> {
    type Item = (u32, u32);

    ghost next_gives = { YieldsFirst (λ triples. triples) };

    ghost remaining = { item_count (λ triples. triples) };

    fn next(&mut self) -> Option<(u32, u32)> {
        match self.words {
            [offset, low, high, rest @ ..] => {
                self.words = rest;
                let data = u32::from(*low) + 0x10000 * u32::from(*high);
                Some((4 * u32::from(*offset), data))
            }
            [] | [_] | [_, _] => None,
        }
    }
}
