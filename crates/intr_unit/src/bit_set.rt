//! Sets of register bits. Only this module treats words as sets.

ghost use Rattle.std.specs.Prelude.{◌≡◌, ◌<◌, IfSome};
ghost use Rattle.intr_unit.specs.BitSet.{contains, union, intersection, difference, when, only, lowest_of};

use std::marker::Model;

/// A set of bits 0 to 31 of a register.
#[derive(Clone, Copy, PartialEq, Eq, Debug)]
pub(crate) struct BitSet {
    word: u32,
}

impl Model for BitSet {
    ghost use Rattle.intr_unit.specs.BitSet.{BitSet};

    ghost Value = { BitSet };

    ghost view = { λ a. a.word };

    ghost inverse = { λ word. record { word = word } };
}

#[tactic(auto, using(crate::proofs::WordLaws::word_operations), unfolding(crate::specs::BitSet::when))]
impl BitSet {
    /// The empty set.
    pub(crate) const EMPTY: BitSet = BitSet { word: 0 };

    /// Returns the set of the bits that are 1 in the word.
    #[inline(always)]
    pub(crate) fn of_word(word: u32) -> Self
        ensures { result ≡ word }
    {
        BitSet { word }
    }

    /// Returns the word whose bits with value 1 are the members of the set.
    #[inline(always)]
    pub(crate) fn word(self) -> u32
        ensures { result ≡ self }
    {
        self.word
    }

    /// Returns the bits in at least one of the two sets.
    #[inline(always)]
    pub(crate) fn union(self, other: BitSet) -> Self
        ensures { result ≡ union self other }
    {
        BitSet {
            word: self.word | other.word,
        }
    }

    /// Returns the bits in both sets.
    #[inline(always)]
    pub(crate) fn intersection(self, other: BitSet) -> Self
        ensures { result ≡ intersection self other }
    {
        BitSet {
            word: self.word & other.word,
        }
    }

    /// Returns the bits of this set that aren't in the other set.
    #[inline(always)]
    pub(crate) fn difference(self, other: BitSet) -> Self
        ensures { result ≡ difference self other }
    {
        BitSet {
            word: self.word & !other.word,
        }
    }

    /// Returns the set if the condition holds, otherwise the empty set.
    #[inline(always)]
    pub(crate) fn when(self, condition: bool) -> Self
        ensures { result ≡ when condition self }
    {
        if condition { self } else { BitSet::EMPTY }
    }

    /// Whether the bit is in the set.
    #[inline(always)]
    pub(crate) fn contains(self, bit: u8) -> bool
        requires { bit < 32 }
        ensures { result ≡ contains self bit }
    {
        (self.word >> bit) & 1 == 1
    }

    /// Returns the set that contains only this bit.
    #[inline(always)]
    pub(crate) fn only(bit: u8) -> Self
        requires { bit < 32 }
        ensures { result ≡ only bit }
    {
        BitSet { word: 1 << bit }
    }

    /// Returns the lowest bit of the set, or `None` if the set is empty.
    #[inline(always)]
    pub(crate) fn lowest(self) -> Option<u8>
        ensures bit { result ≡ lowest_of self }
        ensures within { IfSome result (λ bit. bit < 32) }
    {
        if self.word == 0 {
            return None;
        }
        Some(self.word.trailing_zeros() as u8)
    }
}
