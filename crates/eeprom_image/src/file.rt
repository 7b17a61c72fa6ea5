//! Loads an image from a file's bytes.

ghost use Rattle.std.specs.Prelude.{◌≡◌, ◌%◌, ◌*◌, List, ℕ, length, Some, None, IfSome, IfOk, IfErr, OnOk, MatchResult};
ghost use Rattle.eeprom_image.specs.Bytes.{bytes_of, words_of};
ghost use Rattle.eeprom_image.specs.Image.{IsImage};
ghost use Rattle.eeprom_image.specs.File.{file_fault, reported_fault};

use crate::image::{Image, is_size};
use crate::section::{are_inside, has_whole_triples, is_checked};
use crate::words::FileWords;
use byteorder::{ByteOrder, LittleEndian};
use std::alloc::{AllocError, Global};
use thiserror::Error;

/// Why bytes aren't an image's file. If several faults apply, the first in this list is returned.
#[derive(Clone, Copy, Debug, PartialEq, Eq, Error)]
pub enum LoadFault {
    /// The number of bytes is odd.
    #[error("an odd number of bytes")]
    OddLength,
    /// The number of words isn't 64 times a power of two from 1 to 256.
    #[error("no size of an image")]
    BadSize,
    /// A pointer among words 0x03 to 0x0E is used, and points outside the image or to a section that isn't completely
    /// inside the image.
    #[error("a section outside the image")]
    SectionOutside,
    /// Words 0x00 to 0x3F and the sections don't add up to 0xBABA modulo 2^16.
    #[error("a wrong checksum")]
    BadChecksum,
    /// The length of the CSR section isn't a multiple of 3.
    #[error("a CSR section that isn't of whole triples")]
    NotTriples,
    /// The bytes are an image's file, but there isn't enough memory to load the image.
    #[error("out of memory")]
    OutOfMemory,
}

/// Returns the first fault of a file, except lack of memory.
#[tactic(auto, unfolding(crate::specs::File::file_fault))]
fn file_fault(bytes: &[u8]) -> Option<LoadFault>
    ensures first { result ≡ file_fault bytes.now }
    ensures reported { IfSome result (λ fault. reported_fault fault ≡ Some fault) }
{
    if bytes.len() % 2 != 0 {
        return Some(LoadFault::OddLength);
    }
    if !is_size(bytes.len() / 2) {
        return Some(LoadFault::BadSize);
    }
    let words = FileWords { bytes };
    if !are_inside(&words) {
        return Some(LoadFault::SectionOutside);
    }
    if !is_checked(&words) {
        return Some(LoadFault::BadChecksum);
    }
    if !has_whole_triples(&words) {
        return Some(LoadFault::NotTriples);
    }
    None
}

/// Reads the little-endian words of a file.
fn read_words(bytes: &[u8], words: &mut [u16])
    requires { length bytes.now ≡ 2 * length words.old }
    ensures { words.new ≡ words_of bytes.now }
{
    LittleEndian::read_u16_into(bytes, words);
}

/// Returns the words of a file.
fn words_in(alloc: Global, bytes: &[u8]) -> Result<Vec<u16>, AllocError>
    requires { length bytes.now % 2 ≡ 0 }
    ensures { IfOk result (λ words. words.items ≡ words_of bytes.now) }
{
    let mut words = vec![in alloc; 0u16; bytes.len() / 2]?;
    read_words(bytes, &mut words);
    Ok(words)
}

/// Loads an image from the bytes of its file, or returns the first fault in these bytes, in the order of `LoadFault`.
///
/// If the bytes are accepted, they are exactly the file of the returned image. Every image's file is accepted if there
/// is enough memory. `OutOfMemory` is returned only if there is no other fault. The call takes time linear in the
/// number of bytes; the contract doesn't state this.
pub fn load(alloc: Global, bytes: &[u8]) -> Result<Image, LoadFault>
    ensures file { IfOk result (λ image. IsImage image × (bytes.now ≡ bytes_of image)) }
    ensures each_file { (words : List ℕ) → IsImage words → bytes.now ≡ bytes_of words →
        MatchResult result (λ image. image ≡ words) (λ fault. fault ≡ LoadFault.OutOfMemory) }
    ensures ok { OnOk result (file_fault bytes.now ≡ None) }
    ensures fault { IfErr result (λ fault. file_fault bytes.now ≡ reported_fault fault) }
{
    match file_fault(bytes) {
        Some(fault) => Err(fault),
        None => match words_in(alloc, bytes) {
            Ok(words) => Ok(Image::of(words)),
            Err(_) => Err(LoadFault::OutOfMemory),
        },
    }
}
