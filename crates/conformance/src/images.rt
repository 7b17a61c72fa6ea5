//! `eeprom_image`: assembling sources and loading files.
//!
//! `assemble TEXT` and `load BYTES` print an image as its number of words, the words other than 0xFFFF, and its
//! register writes, or print the fault. The file of an assembled image is loaded again, and `other` is printed if the
//! loaded image differs. `load BYTES` creates a file of `BYTES` bytes. All of them are 0xFF, except in the words that
//! follow as pairs of index and value.

use crate::call::Call;
use crate::texts::plain;
use eeprom_image::{Image, assemble, load};
use std::alloc::{AllocError, Global};
use std::fmt::Write;

/// Returns the printed result of a call.
pub fn answer(alloc: Global, call: Call<'_>) -> Result<String, AllocError> {
    match call.name {
        "blank" => again_text(alloc, &Image::blank(alloc)?),
        "assemble" => {
            let text = plain(alloc, call.text)?;
            match assemble(alloc, text.as_str()) {
                Ok(image) => again_text(alloc, &image),
                Err(fault) => format!(in alloc; "{fault:?}"),
            }
        }
        "load" => {
            let file = file_in(alloc, call)?;
            match load(alloc, file.as_slice()) {
                Ok(image) => image_text(alloc, &image),
                Err(fault) => format!(in alloc; "{fault:?}"),
            }
        }
        _ => format!(in alloc; "no such call"),
    }
}

/// Returns the printed form of an image after it was loaded again from its file.
fn again_text(alloc: Global, image: &Image) -> Result<String, AllocError> {
    let file = image.to_bytes(alloc)?;
    match load(alloc, file.as_slice()) {
        Ok(loaded) if loaded.words() == image.words() => image_text(alloc, &loaded),
        _ => format!(in alloc; "other"),
    }
}

fn image_text(alloc: Global, image: &Image) -> Result<String, AllocError> {
    let mut text = format!(in alloc; "{} words", image.words().len())?;
    for (index, word) in image.words().iter().enumerate() {
        if *word != 0xFFFF {
            write!(text, " {index:#04x}:{word:#06x}")?;
        }
    }
    for (offset, data) in image.triples() {
        write!(text, " csr {offset:#07x}:{data:#x}")?;
    }
    Ok(text)
}

/// Returns the file that a case describes. The case sets up to sixteen words.
fn file_in(alloc: Global, call: Call<'_>) -> Result<Vec<u8>, AllocError> {
    let mut bytes = vec![in alloc; 0xFFu8; usize::from(call.half(0))]?;
    for given in 0..16 {
        let [low, high] = call.half(2 * given + 2).to_le_bytes();
        let at = 2 * usize::from(call.half(2 * given + 1));
        if !call.word(2 * given + 2).is_empty() && at + 1 < bytes.len() {
            bytes[at] = low;
            bytes[at + 1] = high;
        }
    }
    Ok(bytes)
}
