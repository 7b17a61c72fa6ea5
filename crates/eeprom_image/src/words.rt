//! Words by index, in an image or in the bytes of a file.

ghost use Rattle.std.specs.Prelude.{◌≡◌, ◌+◌, ◌*◌, ◌<◌, ◌%◌, length, List, ℕ};
ghost use Rattle.eeprom_image.specs.Bytes.{word_at};

use byteorder::{ByteOrder, LittleEndian};

/// Words by index, either in an image or in a file that may be an image's file.
pub(crate) trait Words {
    ghost words: { Self → List ℕ };

    /// Returns the number of words.
    fn count(&self) -> usize
        ensures { result ≡ length (words self.now) };

    /// Returns the word at an index, or 0xFFFF if the index is past the last word.
    fn word(&self, index: usize) -> u16
        ensures { result ≡ word_at (words self.now) index };
}

impl Words for &[u16] {
    ghost words = { λ s. s.now };

    fn count(&self) -> usize {
        self.len()
    }

    fn word(&self, index: usize) -> u16 {
        if index < self.len() {
            self[index]
        } else {
            0xFFFF
        }
    }
}

/// The words of a file, read from its bytes in memory.
#[derive(Clone, Copy)]
pub(crate) struct FileWords<'a> {
    pub(crate) bytes: &'a [u8],
}

impl Words for FileWords<'_> {
    ghost use Rattle.std.specs.Prelude.{List, ℕ};
    ghost use Rattle.eeprom_image.specs.Bytes.{words_of};

    ghost words = { λ file. words_of file.bytes.now };

    fn count(&self) -> usize {
        self.bytes.len() / 2
    }

    fn word(&self, index: usize) -> u16 {
        if index < self.bytes.len() / 2 {
            let rest = &self.bytes[2 * index..];
            LittleEndian::read_u16(rest)
        } else {
            0xFFFF
        }
    }
}
