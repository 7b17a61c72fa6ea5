//! EEPROM images: their words, and the register writes in their CSR section.

ghost use Rattle.std.specs.Prelude.{◌≡◌, ◌*◌, ◌^◌, ◌<◌, ◌≤◌, length, slice_get, IfOk};
ghost use Rattle.eeprom_image.specs.Bytes.{word_at, bytes_of};
ghost use Rattle.eeprom_image.specs.Section.{section_at};
ghost use Rattle.eeprom_image.specs.Triples.{triples_of};
ghost use Rattle.eeprom_image.specs.Image.{is_size, doublings, blank, IsImage};
ghost use Rattle.eeprom_image.specs.Content.{only_size};
ghost use Rattle.eeprom_image.specs.Text.{IsImageOf};

use crate::section::{CSR_POINTER, section};
use crate::triples::Triples;
use crate::words::Words;
use byteorder::{ByteOrder, LittleEndian};
use std::alloc::{AllocError, Global};
use std::marker::Model;

/// An EEPROM image. Its size in words is 64 times a power of two, from 64 to 16,384. All of its sections are inside the
/// image, its checksum is correct, and its CSR section consists of whole register writes.
#[derive(Debug, Drop)]
pub struct Image {
    words: Vec<u16>,
}

impl Model for Image {
    ghost use Rattle.std.specs.Prelude.{List, ℕ};
    ghost use Rattle.eeprom_image.specs.Image.{IsImage};

    ghost Value = { List ℕ };

    ghost view = { λ a. a.words.items };

    ghost invariant = { λ a. IsImage a.words.items };
}

/// Whether an image can have this many words.
pub(crate) fn is_size(count: usize) -> bool
    ensures { result ≡ is_size count }
{
    matches!(
        count,
        64 | 128 | 256 | 512 | 1024 | 2048 | 4096 | 8192 | 16384
    )
}

impl Image {
    /// Returns the image with these words.
    pub(crate) fn of(words: Vec<u16>) -> Image
        requires { IsImage words.items }
        ensures { result ≡ words.items }
    {
        Image { words }
    }

    /// Returns the blank image, which the EEPROM source `size 64` describes: 63 words with the value 0xFFFF, then the
    /// checksum. Returns `AllocError` if there isn't enough memory for the image.
    pub fn blank(alloc: Global) -> Result<Image, AllocError>
        ensures words { IfOk result (λ image. image ≡ blank) }
        ensures meant { IfOk result (λ image. IsImageOf (only_size 64) image) }
    {
        let mut words = vec![in alloc; 0xFFFF; 64]?;
        words[63] = 0xBAF9;
        Ok(Image { words })
    }

    /// Returns a copy of the image, or `AllocError` if there isn't enough memory for the copy.
    pub fn copy(&self) -> Result<Image, AllocError>
        ensures { IfOk result (λ image. image ≡ self.now) }
    {
        let words = Vec::from_slice(*self.words.allocator(), &self.words)?;
        Ok(Image { words })
    }

    /// Returns the 16-bit words of the image, in order.
    pub fn words(&self) -> &[u16]
        ensures words { result.now ≡ self.now }
        // The words form an image.
        ensures image { IsImage self.now }
    {
        &self.words
    }

    /// Returns the word at an index, or 0xFFFF if the index is past the last word.
    pub fn word(&self, index: usize) -> u16
        ensures { result ≡ word_at self.now index }
    {
        self.words.as_slice().word(index)
    }

    /// Returns the size as a power of two: s if the image has 64 * 2^s words.
    pub fn doublings(&self) -> u8
        ensures doublings { result ≡ doublings (length self.now) }
        // The image has this many words.
        ensures words { length self.now ≡ 64 * 2 ^ result }
        // The result is 0 to 8.
        ensures range { result ≤ 8 }
    {
        match self.words.len() {
            64 => 0,
            128 => 1,
            256 => 2,
            512 => 3,
            1024 => 4,
            2048 => 5,
            4096 => 6,
            8192 => 7,
            _ => 8,
        }
    }

    /// Returns the register writes in the CSR section, in order. If word 0x0D is unused, the image has no register
    /// writes.
    pub fn triples(&self) -> Triples<'_>
        ensures { result ≡ triples_of self.now }
    {
        Triples::of(self.csr_section())
    }

    /// Returns the number of register writes in the image's CSR section.
    pub fn triple_count(&self) -> usize
        ensures { result ≡ length (triples_of self.now) }
    {
        self.csr_section().len() / 3
    }

    /// Returns the register write with this number, counted from 0: the register's byte offset, and the data. Returns
    /// `None` if the number is past the last register write.
    pub fn triple(&self, index: usize) -> Option<(u32, u32)>
        ensures { result ≡ slice_get (triples_of self.now) index }
    {
        let words = self.csr_section();
        if index < words.len() / 3 {
            Triples::of(&words[3 * index..]).next()
        } else {
            None
        }
    }

    /// Returns the words of the CSR section, without its first word.
    fn csr_section(&self) -> &[u16]
        ensures { result.now ≡ section_at self.now (word_at self.now 13) }
    {
        section(&self.words, self.word(CSR_POINTER))
    }

    /// Returns the bytes of the image's file: the image's words in order, each with its low byte first. Loading these
    /// bytes returns the same words. Returns `AllocError` if there isn't enough memory for the bytes.
    pub fn to_bytes(&self, alloc: Global) -> Result<Vec<u8>, AllocError>
        ensures { IfOk result (λ bytes. bytes.items ≡ bytes_of self.now) }
    {
        let mut bytes = vec![in alloc; 0u8; 2 * self.words.len()]?;
        LittleEndian::write_u16_into(&self.words, &mut bytes);
        Ok(bytes)
    }
}
