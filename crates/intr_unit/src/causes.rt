//! The registers of one interrupt group: causes, masks, auto-clear and auto-mask, and the bits that messages have
//! reported.

ghost use Rattle.std.specs.Prelude.{◌≡◌, ◌<◌, IfSome};
ghost use Rattle.intr_unit.specs.BitSet.{IsSubset};
ghost use Rattle.intr_unit.specs.Group.{group_bits};
ghost use Rattle.intr_unit.specs.Interrupts.{IsConsistent, reset_of, of_words, settled, auto_masked, raised, after_read, after_write_one, after_mask_set, after_mask_clear, with_auto_clear, with_auto_mask, next_bit, next_vector, after_message};

use crate::bit_set::BitSet;
use crate::group::Group;
use std::marker::Model;

/// The interrupts of one group, which belongs to the physical function or to a virtual function.
///
/// A message reports a bit only once; the bit is reported again only after its cause or its mask has been 0. Contracts
/// view a `Causes` as the group, the words of its registers as sets of bits, and the set of reported bits. The cause
/// and the mask of each reported bit are 1.
///
/// Intel 82599 datasheet, sections on interrupt registers and on clearing interrupt causes. This project's profile
/// defines what a read of EICR clears and what the auto-mask does.
#[derive(Clone, Copy, PartialEq, Eq, Debug)]
pub struct Causes {
    group: Group,
    causes: BitSet,
    enabled: BitSet,
    auto_clear: BitSet,
    auto_mask: BitSet,
    reported: BitSet,
}

impl Model for Causes {
    ghost use Rattle.intr_unit.specs.Interrupts.{Interrupts, IsConsistent};

    ghost Value = { Interrupts };

    ghost view = { λ a. record {
      group = a.group;
      causes = a.causes;
      enabled = a.enabled;
      auto_clear = a.auto_clear;
      auto_mask = a.auto_mask;
      reported = a.reported;
    } };

    ghost invariant = { λ a. IsConsistent (record {
      group = a.group;
      causes = a.causes;
      enabled = a.enabled;
      auto_clear = a.auto_clear;
      auto_mask = a.auto_mask;
      reported = a.reported;
    }) };

    ghost inverse = { λ s. record {
      group = s.group;
      causes = s.causes;
      enabled = s.enabled;
      auto_clear = s.auto_clear;
      auto_mask = s.auto_mask;
      reported = s.reported;
    } };
}

#[tactic(auto, using(crate::proofs::Subsets::subsets))]
impl Causes {
    /// Returns a group after a reset: all words are 0, and nothing is reported. A device reset resets all groups; a
    /// pool reset resets the group of its virtual function.
    pub fn new(group: Group) -> Self
        ensures { result ≡ reset_of group }
    {
        Causes {
            group,
            causes: BitSet::EMPTY,
            enabled: BitSet::EMPTY,
            auto_clear: BitSet::EMPTY,
            auto_mask: BitSet::EMPTY,
            reported: BitSet::EMPTY,
        }
    }

    /// Returns a group with the given register words and reported bits, as [`Causes::causes`], [`Causes::enabled`],
    /// [`Causes::auto_clear`], [`Causes::auto_mask`] and [`Causes::reported`] return them. Bits that the group doesn't
    /// have are dropped. Reported bits whose cause or mask is 0 are dropped too.
    pub fn of_words(
        group: Group,
        causes: u32,
        enabled: u32,
        auto_clear: u32,
        auto_mask: u32,
        reported: u32,
    ) -> Self
        ensures { result ≡ of_words group causes enabled auto_clear auto_mask reported }
    {
        let existing = BitSet::of_word(group.bits());
        let causes = BitSet::of_word(causes).intersection(existing);
        let enabled = BitSet::of_word(enabled).intersection(existing);
        Causes {
            group,
            causes,
            enabled,
            auto_clear: BitSet::of_word(auto_clear).intersection(existing),
            auto_mask: BitSet::of_word(auto_mask).intersection(existing),
            reported: BitSet::of_word(reported).intersection(causes.intersection(enabled)),
        }
    }

    /// Returns the function that these interrupts belong to.
    #[inline(always)]
    pub fn group(&self) -> Group
        ensures { result ≡ self.now.group }
    {
        self.group
    }

    /// Returns the word of the cause register (EICR, PVTEICR), without the side effects of a read.
    #[inline(always)]
    pub fn causes(&self) -> u32
        ensures word { result ≡ self.now.causes }
        ensures consistent { IsConsistent self.now }
    {
        self.causes.word()
    }

    /// Returns the word of the mask register (EIMS, PVTEIMS). A 1 means that the cause can be reported.
    #[inline(always)]
    pub fn enabled(&self) -> u32
        ensures { result ≡ self.now.enabled }
    {
        self.enabled.word()
    }

    /// Returns the word of the auto-clear register (EIAC, PVTEIAC).
    #[inline(always)]
    pub fn auto_clear(&self) -> u32
        ensures { result ≡ self.now.auto_clear }
    {
        self.auto_clear.word()
    }

    /// Returns the word of the auto-mask register (EIAM, PVTEIAM).
    #[inline(always)]
    pub fn auto_mask(&self) -> u32
        ensures { result ≡ self.now.auto_mask }
    {
        self.auto_mask.word()
    }

    /// Returns the bits that messages have reported. The cause and the mask of each of these bits are 1. A bit isn't
    /// reported again until its cause or its mask has been 0.
    #[inline(always)]
    pub fn reported(&self) -> u32
        ensures { result ≡ self.now.reported }
    {
        self.reported.word()
    }

    /// Raises causes, for the device (`auto` is false) or for a write to the set register (EICS, PVTEICS). For a write
    /// to the set register, `bits` is the written word without the bits that the address doesn't show, and `auto` comes
    /// from [`Group::auto_mask_acts`]. If `auto` is true, the masks of the raised bits that are in the auto-mask become
    /// 1. Bits that the group doesn't have are dropped.
    #[inline]
    pub fn raise(&mut self, bits: u32, auto: bool)
        ensures { self.new ≡ raised self.old bits auto }
    {
        let bits = BitSet::of_word(bits);
        let causes = self.causes.union(bits.intersection(self.existing()));
        let enabled = self.enabled.union(self.auto_masked(bits, auto));
        self.settle(causes, enabled, self.reported);
    }

    /// Reads the cause register: returns the register's word and clears the register. For the PF, if GPIE bit 5 (`ocd`)
    /// is 1, the read clears only bits 29 to 16. For a VF, `ocd` has no effect. If `auto`, from
    /// [`Group::auto_mask_acts`], is true, the masks of all bits in the auto-mask become 0, regardless of which causes
    /// were set.
    #[inline]
    pub fn read(&mut self, ocd: bool, auto: bool) -> u32
        ensures word { result ≡ self.old.causes }
        ensures state { self.new ≡ after_read self.old ocd auto }
    {
        let word = self.causes();
        let causes = self.causes.difference(self.group.bits_cleared_by_read(ocd));
        let enabled = self.enabled.difference(self.auto_mask.when(auto));
        self.settle(causes, enabled, self.reported);
        word
    }

    /// Writes the cause register: the causes that are 1 in `bits` become 0. If `auto`, from [`Group::auto_mask_acts`],
    /// is true, the masks of the bits that are 1 in `bits` and in the auto-mask become 0. `bits` is the written word
    /// without the bits that the address doesn't show.
    #[inline]
    pub fn write_one(&mut self, bits: u32, auto: bool)
        ensures { self.new ≡ after_write_one self.old bits auto }
    {
        let bits = BitSet::of_word(bits);
        let causes = self.causes.difference(bits);
        let enabled = self.enabled.difference(self.auto_masked(bits, auto));
        self.settle(causes, enabled, self.reported);
    }

    /// Writes the mask register (EIMS, PVTEIMS): the masks that are 1 in `bits` become 1. `bits` is the written word
    /// without the bits that the address doesn't show.
    #[inline]
    pub fn mask_set(&mut self, bits: u32)
        ensures { self.new ≡ after_mask_set self.old bits }
    {
        let bits = BitSet::of_word(bits).intersection(self.existing());
        self.settle(self.causes, self.enabled.union(bits), self.reported);
    }

    /// Writes the mask clear register (EIMC, PVTEIMC): the masks that are 1 in `bits` become 0. `bits` is the written
    /// word without the bits that the address doesn't show.
    #[inline]
    pub fn mask_clear(&mut self, bits: u32)
        ensures { self.new ≡ after_mask_clear self.old bits }
    {
        let enabled = self.enabled.difference(BitSet::of_word(bits));
        self.settle(self.causes, enabled, self.reported);
    }

    /// Sets the auto-clear register (EIAC, PVTEIAC) to a word, dropping bits that the group doesn't have. For a write
    /// at an address that doesn't show all bits, `word` must contain the hidden bits unchanged.
    #[inline]
    pub fn set_auto_clear(&mut self, word: u32)
        ensures { self.new ≡ with_auto_clear self.old word }
    {
        self.auto_clear = BitSet::of_word(word).intersection(self.existing());
    }

    /// Sets the auto-mask register (EIAM, PVTEIAM) to a word, dropping bits that the group doesn't have. For a write at
    /// an address that doesn't show all bits, `word` must contain the hidden bits unchanged.
    #[inline]
    pub fn set_auto_mask(&mut self, word: u32)
        ensures { self.new ≡ with_auto_mask self.old word }
    {
        self.auto_mask = BitSet::of_word(word).intersection(self.existing());
    }

    /// Sends the next message: reports the lowest due bit and returns the bit's vector, 0 to 15. If no bit is due,
    /// returns `None` and changes nothing. A bit is due if its cause and its mask are 1, the bit isn't reported, and
    /// [`Group::vector_of`] returns a vector for the bit. If the bit that the message reports is in the auto-clear, its
    /// cause becomes 0. If GPIE bit 30 (`eiame`) is 1 and the bit is in the auto-mask, its mask becomes 0. `misc` is
    /// the word of IVAR_MISC.
    pub fn message(&mut self, eiame: bool, misc: u32) -> Option<u8>
        ensures vector { result ≡ next_vector self.old misc }
        ensures state { self.new ≡ after_message self.old eiame misc }
    {
        let bit = self.next_bit(misc)?;
        let one = BitSet::only(bit);
        let causes = self.causes.difference(one.intersection(self.auto_clear));
        let enabled = self.enabled.difference(self.auto_masked(one, eiame));
        self.settle(causes, enabled, self.reported.union(one));
        self.group.vector_of(bit, misc)
    }

    /// Returns the bit that the next message reports.
    fn next_bit(&self, misc: u32) -> Option<u8>
        ensures bit { result ≡ next_bit self.now misc }
        ensures within { IfSome result (λ bit. bit < 32) }
    {
        self.causes
            .intersection(self.enabled)
            .difference(self.reported)
            .intersection(self.group.routed_bits(misc))
            .lowest()
    }

    /// Returns the bits that the group's registers have.
    #[inline(always)]
    fn existing(&self) -> BitSet
        ensures { result ≡ group_bits self.now.group }
    {
        BitSet::of_word(self.group.bits())
    }

    /// Returns the given bits that are in the auto-mask, if the auto-mask acts; otherwise returns no bits.
    #[inline(always)]
    fn auto_masked(&self, bits: BitSet, auto: bool) -> BitSet
        ensures { result ≡ auto_masked self.now bits auto }
    {
        bits.intersection(self.auto_mask).when(auto)
    }

    /// Stores these causes and masks. Keeps only the reported bits whose cause and mask are 1.
    #[inline(always)]
    fn settle(&mut self, causes: BitSet, enabled: BitSet, reported: BitSet)
        requires causes { IsSubset causes (group_bits self.old.group) }
        requires enabled { IsSubset enabled (group_bits self.old.group) }
        ensures { self.new ≡ settled self.old causes enabled reported }
    {
        self.causes = causes;
        self.enabled = enabled;
        self.reported = reported.intersection(causes.intersection(enabled));
    }
}
