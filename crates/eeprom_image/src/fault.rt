//! Finds faults in what EEPROM source defines, except faults in its pointers.

ghost use Rattle.std.specs.Prelude.{◌≡◌, ℕ, ◌==◌, ◌||◌, nat_lt, filter, IfOk, OnOk};
ghost use Rattle.std.specs.List.{list_all};
ghost use Rattle.std.specs.Ordering.{nat_cmp};
ghost use Rattle.std.specs.BTreeSet.{contains};
ghost use Rattle.eeprom_image.specs.Fault.{lesser, least, given_again, indexes, section_end, is_reserved, fits};
ghost use Rattle.eeprom_image.specs.Draft.{content_in};

use crate::draft::Draft;
use crate::section::CSR_POINTER;
use std::alloc::{AllocError, Global};
use std::collections::BTreeSet;

/// The index of the checksum.
pub(crate) const CHECKSUM_INDEX: usize = 0x3F;

/// The index at which the CSR section of an assembled image begins.
pub(crate) const CSR_SECTION: usize = 0x40;

fn lesser(n: u32, other: Option<u32>) -> Option<u32>
    ensures { result ≡ lesser n other }
{
    match other {
        None => Some(n),
        Some(m) => Some(n.min(m)),
    }
}

/// Adds an index to the set, and returns whether the set already contained the index.
fn comes_again(seen: &mut BTreeSet<u32>, index: u32) -> Result<bool, AllocError>
    ensures again { IfOk result (λ again. again ≡ contains nat_cmp seen.old index) }
    ensures seen { OnOk result ((other : ℕ) →
        contains nat_cmp seen.new other ≡ ((index == other) || contains nat_cmp seen.old other)) }
{
    let is_new = seen.insert(index)?;
    Ok(!is_new)
}

/// Returns the lowest index that is defined more than once, or `None` if no index is.
pub(crate) fn lowest_given_again(
    alloc: Global,
    words: &[(u32, u16)],
) -> Result<Option<u32>, AllocError>
    ensures { IfOk result (λ lowest. lowest ≡ least (given_again (indexes words.now))) }
{
    let mut after = BTreeSet::new(alloc);
    let mut lowest = None;
    for i in (0..words.len()).rev() {
        let index = words[i].0;
        if comes_again(&mut after, index)? {
            lowest = lesser(index, lowest);
        }
    }
    Ok(lowest)
}

/// Returns the index after a CSR section with these register writes; there may be any number of them.
pub(crate) fn section_end(triples: &[(u32, u32)]) -> u128
    ensures { result ≡ section_end triples.now }
{
    match triples {
        [] => 0x40,
        [_, ..] => 0x41 + 3 * triples.len() as u128,
    }
}

fn is_reserved(end: u128, index: u32) -> bool
    ensures { result ≡ is_reserved end index }
{
    index as usize == CSR_POINTER
        || index as usize == CHECKSUM_INDEX
        || (index as usize >= CSR_SECTION && u128::from(index) < end)
}

/// Returns the lowest reserved index that is defined, or `None` if no reserved index is.
pub(crate) fn lowest_reserved(words: &[(u32, u16)], end: u128) -> Option<u32>
    ensures { result ≡ least (filter (is_reserved end) (indexes words.now)) }
{
    let mut lowest = None;
    for i in (0..words.len()).rev() {
        let index = words[i].0;
        if is_reserved(end, index) {
            lowest = lesser(index, lowest);
        }
    }
    lowest
}

/// Whether each defined word is inside the image.
fn are_below(words: &[(u32, u16)], size: u32) -> bool
    ensures { result ≡ list_all (λ given. nat_lt given.0 size) words.now }
{
    words.iter().all(|given| given.0 < size)
}

/// Whether each defined word and the CSR section are inside the image.
pub(crate) fn fits(draft: &Draft) -> bool
    ensures { result ≡ fits (content_in draft.now) }
{
    are_below(&draft.words, draft.size) && section_end(&draft.triples) <= u128::from(draft.size)
}
