//! Lays out the words of an image from what EEPROM source defines.

ghost use Rattle.std.specs.Prelude.{◌≡◌, ◌+◌, ◌*◌, ◌<◌, ◌≤◌, ◌++◌, fold, length, replicate, vec_len, nat_lt, IsTrue, IfOk, OnOk};
ghost use Rattle.std.specs.List.{list_all};
ghost use Rattle.eeprom_image.specs.Section.{pointers};
ghost use Rattle.eeprom_image.specs.Fault.{fits, csr_section, section_end, triple_words};
ghost use Rattle.eeprom_image.specs.Text.{is_past};
ghost use Rattle.eeprom_image.specs.Layout.{put_word, with_section, with_csr, IsLaidOut, with_checksum};
ghost use Rattle.eeprom_image.specs.Draft.{content_in};

use crate::draft::Draft;
use crate::fault::{CHECKSUM_INDEX, CSR_SECTION};
use crate::section::{CHECKSUM, CSR_POINTER, checked_sum, is_unused, pointers};
use std::alloc::{AllocError, Global};

/// Writes the defined words.
fn put_words(words: &mut [u16], given: &[(u32, u16)])
    requires { IsTrue (list_all (λ given. nat_lt given.0 (length words.old)) given.now) }
    ensures { words.new ≡ fold put_word words.old given.now }
{
    for word in given {
        words[word.0 as usize] = word.1;
    }
}

/// Appends the three words of a register write: its offset in words, and its data, the low word first.
fn push_triple(section: &mut Vec<u16>, triple: (u32, u32)) -> Result<(), AllocError>
    ensures { OnOk result (section.new.items ≡ section.old.items ++ triple_words triple) }
{
    let (offset, data) = triple;
    let words = [
        (offset / 4 % 0x10000) as u16,
        (data % 0x10000) as u16,
        (data / 0x10000) as u16,
    ];
    section.extend_from_slice(&words)
}

/// Returns the CSR section: the number of words that follow, then the words of each register write.
fn csr_section(alloc: Global, triples: &[(u32, u32)]) -> Result<Vec<u16>, AllocError>
    requires { 3 * length triples.now < 65536 }
    ensures { IfOk result (λ section. section.items ≡ csr_section triples.now) }
{
    let mut section = Vec::new(alloc);
    section.push((3 * triples.len()) as u16)?;
    for triple in triples {
        push_triple(&mut section, *triple)?;
    }
    Ok(section)
}

/// Writes a section starting at index 0x40.
fn put_section(words: &mut [u16], section: &[u16])
    requires { 64 + length section.now ≤ length words.old }
    ensures { words.new ≡ with_section words.old section.now }
{
    let end = CSR_SECTION + section.len();
    words[CSR_SECTION..end].copy_from_slice(section);
}

/// Writes the CSR section and the pointer to it. If there are no register writes, only sets the pointer to 0xFFFF.
fn put_csr(alloc: Global, words: &mut [u16], triples: &[(u32, u32)]) -> Result<(), AllocError>
    requires long { 64 ≤ length words.old }
    requires short { length words.old < 65536 }
    requires room { section_end triples.now ≤ length words.old }
    ensures { OnOk result (words.new ≡ with_csr words.old triples.now) }
{
    if triples.is_empty() {
        words[CSR_POINTER] = 0xFFFF;
        return Ok(());
    }
    let section = csr_section(alloc, triples)?;
    words[CSR_POINTER] = CSR_SECTION as u16;
    put_section(words, &section);
    Ok(())
}

/// Writes everything that EEPROM source defines over words that are all 0xFFFF, with 0 as the checksum.
fn lay_into(alloc: Global, words: &mut [u16], draft: &Draft) -> Result<(), AllocError>
    requires blank { words.old ≡ replicate draft.now.size 0xFFFF }
    requires long { 64 ≤ draft.now.size }
    requires short { draft.now.size < 65536 }
    requires fits { IsTrue (fits (content_in draft.now)) }
    ensures { OnOk result (IsLaidOut (content_in draft.now) words.new) }
{
    put_words(words, &draft.words);
    put_csr(alloc, words, &draft.triples)?;
    words[CHECKSUM_INDEX] = 0;
    Ok(())
}

/// Returns the words of an image, with 0 as the checksum.
pub(crate) fn lay_out(alloc: Global, draft: &Draft) -> Result<Vec<u16>, AllocError>
    requires long { 64 ≤ draft.now.size }
    requires short { draft.now.size < 65536 }
    requires fits { IsTrue (fits (content_in draft.now)) }
    ensures { IfOk result (λ words. IsLaidOut (content_in draft.now) words.items) }
{
    let mut words = vec![in alloc; 0xFFFFu16; draft.size as usize]?;
    lay_into(alloc, &mut words, draft)?;
    Ok(words)
}

/// Whether each pointer is unused or points past the checksum.
pub(crate) fn are_past(words: &[u16]) -> bool
    ensures { result ≡ list_all is_past (pointers words.now) }
{
    pointers(&words).iter().all(|pointer| is_unused(*pointer)
        || usize::from(*pointer) >= CSR_SECTION)
}

/// Writes the checksum into words whose checksum word is 0.
fn put_checksum(words: &mut [u16])
    requires { 64 ≤ length words.old }
    ensures { words.new ≡ with_checksum words.old }
{
    let sum = checked_sum(&&*words) % 0x10000;
    words[CHECKSUM_INDEX] = ((0x10000 + u64::from(CHECKSUM) - sum) % 0x10000) as u16;
}

/// Returns the words with their checksum, given words whose checksum word is 0.
pub(crate) fn with_checksum(mut words: Vec<u16>) -> Vec<u16>
    requires { 64 ≤ vec_len words }
    ensures { result.items ≡ with_checksum words.items }
{
    put_checksum(&mut words);
    words
}
