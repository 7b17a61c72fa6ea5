//! Assembles EEPROM source into the image that it describes.

ghost use Rattle.std.specs.Prelude.{◌≡◌, ◌≤◌, ◌<◌, List, ℕ, None, Ok, IfOk, IfErr, IsOkAnd};
ghost use Rattle.eeprom_image.specs.Fault.{content_fault};
ghost use Rattle.eeprom_image.specs.Layout.{IsLaidOut};
ghost use Rattle.eeprom_image.specs.Draft.{content_in};
ghost use Rattle.eeprom_image.specs.Text.{sound_content, checked_by, Fails, IsImageOf};
ghost use Rattle.eeprom_image.specs.Content.{Content};

use crate::draft::{Draft, read};
use crate::fault::{fits, lowest_given_again, lowest_reserved, section_end};
use crate::image::Image;
use crate::layout::{are_past, lay_out, with_checksum};
use crate::section::are_inside;
use std::alloc::{AllocError, AllocFailed, Global};
use thiserror::Error;

/// Why EEPROM source describes no image. If several faults apply, the first in this list is returned.
#[derive(Clone, Copy, Debug, PartialEq, Eq, Error)]
pub enum AsmFault {
    /// The line with this number, counted from 1, has none of the allowed forms or isn't allowed at this position. The
    /// first such line is reported. If every line is empty, the number is one past the last line.
    #[error("line {0}: not understood")]
    Syntax(usize),
    /// The lowest index that two `word` lines define.
    #[error("word {0:#x} has two values")]
    TwoValues(u32),
    /// The lowest index of a `word` line that is 0x0D, 0x3F or in the CSR section.
    #[error("word {0:#x} is reserved")]
    Reserved(u32),
    /// An index or the CSR section is beyond the image's size.
    #[error("more than fits the size")]
    DoesNotFit,
    /// A used pointer points below 0x40, or its section isn't inside the image.
    #[error("a pointer below 0x40 or to a section outside the image")]
    PointerOutside,
    /// There isn't enough memory to assemble the source.
    #[error("out of memory")]
    OutOfMemory,
}

impl From<AllocError> for AsmFault {
    ghost use Rattle.std.specs.Prelude.{◌≡◌};
    ghost use Rattle.eeprom_image.specs.declared.text.AsmFault.TheVariants.{OutOfMemory};

    ghost from_gives = { λ _ fault. fault ≡ OutOfMemory };

    fn from(_error: AllocError) -> AsmFault {
        AsmFault::OutOfMemory
    }
}

impl<T: Drop> From<AllocFailed<T>> for AsmFault {
    ghost use Rattle.std.specs.Prelude.{◌≡◌};
    ghost use Rattle.eeprom_image.specs.declared.text.AsmFault.TheVariants.{OutOfMemory};

    ghost from_gives = { λ _ fault. fault ≡ OutOfMemory };

    fn from(_error: AllocFailed<T>) -> AsmFault {
        AsmFault::OutOfMemory
    }
}

impl Draft {
    ghost use Rattle.eeprom_image.specs.Fault.{points_inside};

    /// Whether each pointer is valid, in words that are laid out as the EEPROM source defines them.
    fn points_inside(&self, words: &[u16]) -> bool
        requires long { 64 ≤ self.now.size }
        requires words { IsLaidOut (content_in self.now) words.now }
        ensures { result ≡ points_inside (content_in self.now) }
    {
        are_past(words) && are_inside(&words)
    }
}

/// Returns the words that EEPROM source defines, with 0 as the checksum, or the first fault in the order of `AsmFault`.
#[tactic(auto, unfolding(crate::specs::Fault::content_fault))]
fn plain_words(alloc: Global, draft: &Draft) -> Result<Vec<u16>, AsmFault>
    requires long { 64 ≤ draft.now.size }
    requires short { draft.now.size < 65536 }
    ensures ok { IfOk result (λ words. content_fault (content_in draft.now) ≡ None) }
    ensures words { IfOk result (λ words. IsLaidOut (content_in draft.now) words.items) }
    ensures fault { IfErr result
        (λ fault. Fails fault (checked_by (content_in draft.now) (content_fault (content_in draft.now)))) }
{
    if let Some(index) = lowest_given_again(alloc, &draft.words)? {
        return Err(AsmFault::TwoValues(index));
    }
    if let Some(index) = lowest_reserved(&draft.words, section_end(&draft.triples)) {
        return Err(AsmFault::Reserved(index));
    }
    if !fits(draft) {
        return Err(AsmFault::DoesNotFit);
    }
    let words = lay_out(alloc, draft)?;
    if !draft.points_inside(&words) {
        return Err(AsmFault::PointerOutside);
    }
    Ok(words)
}

/// Assembles the image that EEPROM source describes, or returns the source's first fault.
///
/// EEPROM source consists of a line `size N`, then lines `word INDEX VALUE` and `csr OFFSET DATA` in any order. The
/// result is the only image of N words with the following properties. The image has the defined words, and the register
/// writes in the order of their lines. Word 0x3F is the checksum. Word 0x0D points to the CSR section at 0x40, or is
/// 0xFFFF if no register write is defined. Every other word that isn't defined is 0xFFFF, unless it is in the CSR
/// section. Every other pointer is unused or points to 0x40 or above.
///
/// The first faulty line is reported before any other fault. If no line is faulty, the first other fault in the order
/// of `AsmFault` is reported. `OutOfMemory` may be returned instead of any other result.
#[tactic(auto, unfolding(crate::specs::Text::sound_content))]
pub fn assemble(alloc: Global, text: &str) -> Result<Image, AsmFault>
    ensures image { IfOk result (λ image. IsOkAnd (sound_content text.now) (λ content. IsImageOf content image)) }
    ensures fault { IfErr result (λ fault. Fails fault (sound_content text.now)) }
{
    let draft = read(alloc, text)?;
    let words = plain_words(alloc, &draft)?;
    Ok(Image::of(with_checksum(words)))
}

/// EEPROM source without a fault describes exactly one image. Content with a fault describes no image.
pub fn one_image()
    ensures one { (text : List ℕ) (content : Content) → sound_content text ≡ Ok content →
        (words : List ℕ) × IsImageOf content words
        × ((others : List ℕ) → IsImageOf content others → others ≡ words) }
    ensures none { (content : Content) (words : List ℕ) → IsImageOf content words →
        content_fault content ≡ None }
{}
