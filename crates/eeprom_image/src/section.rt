//! Pointers, the sections that they point to, and the checksum, which covers these sections.

ghost use Rattle.std.specs.Prelude.{◌≡◌, ◌+◌, ◌*◌, ◌<◌, ◌≤◌, ◌^◌, ◌%◌, IsTrue, sum, take, drop};
ghost use Rattle.eeprom_image.specs.Section.{is_unused, word_count, section_at, is_inside, pointers};
ghost use Rattle.eeprom_image.specs.Checksum.{checked_sum, is_checked};
ghost use Rattle.eeprom_image.specs.Triples.{has_whole_triples};
ghost use Rattle.eeprom_image.specs.Image.{are_inside};

use crate::words::Words;

/// The index of the pointer to the CSR section. The triples of words in this section are register writes.
pub(crate) const CSR_POINTER: usize = 0x0D;

/// The number of words at the start of the image that the checksum covers.
const CHECKED_WORDS: u16 = 64;

/// The sum, modulo 2^16, that the covered words must have.
pub(crate) const CHECKSUM: u16 = 0xBABA;

/// Whether the word is 0 or 0xFFFF: a pointer with this value is unused, and a section whose first word has this value
/// is empty.
pub(crate) fn is_unused(word: u16) -> bool
    ensures { result ≡ is_unused word }
{
    word == 0 || word == 0xFFFF
}

/// Returns the number of words after a section's first word, given this first word.
pub(crate) fn word_count(word: u16) -> u16
    ensures { result ≡ word_count word }
{
    if is_unused(word) { 0 } else { word }
}

/// Returns the pointers to sections: words 0x03 to 0x0E.
#[tactic(auto, unfolding(crate::specs::Section::pointers))]
pub(crate) fn pointers<W: Words>(words: &W) -> [u16; 12]
    ensures { result ≡ pointers (W.words words.now) }
{
    [
        words.word(0x03),
        words.word(0x04),
        words.word(0x05),
        words.word(0x06),
        words.word(0x07),
        words.word(0x08),
        words.word(0x09),
        words.word(0x0A),
        words.word(0x0B),
        words.word(0x0C),
        words.word(CSR_POINTER),
        words.word(0x0E),
    ]
}

/// Whether a pointer is unused or its whole section is inside the image.
pub(crate) fn is_inside<W: Words>(words: &W, pointer: u16) -> bool
    ensures { result ≡ is_inside (W.words words.now) pointer }
{
    let first = usize::from(pointer);
    is_unused(pointer) || first + usize::from(word_count(words.word(first))) < words.count()
}

/// Whether each pointer is unused or points to a section that is inside the image.
pub(crate) fn are_inside<W: Words>(words: &W) -> bool
    ensures { result ≡ are_inside (W.words words.now) }
{
    pointers(words)
        .iter()
        .all(|pointer| is_inside(words, *pointer))
}

/// Returns the words of the section that a pointer points to, without its first word.
pub(crate) fn section(words: &[u16], pointer: u16) -> &[u16]
    requires { IsTrue (is_inside words.now pointer) }
    ensures { result.now ≡ section_at words.now pointer }
{
    if is_unused(pointer) {
        return &[];
    }
    let first = usize::from(pointer) + 1;
    let count = usize::from(word_count(words.word(usize::from(pointer))));
    &words[first..first + count]
}

/// Returns the sum of the `count` words starting at index `first`, ignoring indices past the last word.
fn sum_from<W: Words>(words: &W, first: usize, count: u16) -> u64
    requires { first < 2 ^ 32 }
    ensures sum { result ≡ sum (take count (drop first (W.words words.now))) }
    ensures bound { result ≤ 65535 * count }
{
    let mut total = 0u64;
    let end = words.count().min(first + usize::from(count));
    for i in first..end {
        total += u64::from(words.word(i));
    }
    total
}

/// Returns the sum of the words in the section that a pointer points to, without the section's first word.
fn section_sum<W: Words>(words: &W, pointer: u16) -> u64
    ensures sum { result ≡ sum (section_at (W.words words.now) pointer) }
    ensures bound { result < 2 ^ 32 }
{
    if is_unused(pointer) {
        return 0;
    }
    let first = usize::from(pointer);
    sum_from(words, first + 1, word_count(words.word(first)))
}

/// Returns the sum of the words that the checksum covers.
pub(crate) fn checked_sum<W: Words>(words: &W) -> u64
    ensures { result ≡ checked_sum (W.words words.now) }
{
    let mut total = sum_from(words, 0, CHECKED_WORDS);
    for pointer in &pointers(words) {
        total += section_sum(words, *pointer);
    }
    total
}

/// Whether the checksum is correct.
pub(crate) fn is_checked<W: Words>(words: &W) -> bool
    ensures { result ≡ is_checked (W.words words.now) }
{
    checked_sum(words) % 0x10000 == u64::from(CHECKSUM)
}

/// Whether the CSR section consists of whole triples.
pub(crate) fn has_whole_triples<W: Words>(words: &W) -> bool
    ensures { result ≡ has_whole_triples (W.words words.now) }
{
    let pointer = words.word(CSR_POINTER);
    is_unused(pointer) || word_count(words.word(usize::from(pointer))) % 3 == 0
}
