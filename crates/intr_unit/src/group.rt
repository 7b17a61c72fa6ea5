//! The two kinds of groups, and everything that differs between them.

ghost use Rattle.std.specs.Prelude.{◌≡◌};
ghost use Rattle.intr_unit.specs.Group.{group_bits, bits_cleared_by_read, auto_mask_acts, vector_if, other_vector, timer_vector, vector_of, routed_bits, last_queue_cause, queue_causes};

use crate::bit_set::BitSet;

/// The bits of EICR and the PF's other cause and mask registers.
const PF_BITS: u32 = 0x7FFF_FFFF;

/// The bits of PVTEICR and a VF's other cause and mask registers.
const VF_BITS: u32 = 7;

/// The causes of queues: bits 15:0 of EICR.
const QUEUE_CAUSES: u32 = 0xFFFF;

/// The other causes, for example a link status change: bits 29:16 of EICR.
const OTHER_CAUSES: u32 = 0x3FFF_0000;

/// The cause of the TCP timer in EICR.
const TIMER_BIT: u8 = 30;

/// The bit of IVAR_MISC that makes its vector for the other causes valid.
const OTHER_VALID: u8 = 15;

/// The bit of IVAR_MISC that makes its vector for the TCP timer valid.
const TIMER_VALID: u8 = 7;

/// The bit of a byte of IVAR or PVTIVAR that makes its cause valid.
const ENTRY_VALID: u8 = 7;

/// The bits of a vector number, or of the cause in a byte of IVAR or PVTIVAR.
const NUMBER_BITS: u32 = 0x3F;

/// The number of vectors. Every vector is below this number.
const VECTORS: u8 = 16;

/// A group of interrupts with its own registers.
#[derive(Clone, Copy, PartialEq, Eq, Debug)]
pub enum Group {
    /// The group of the physical function: EICR, EICS, EIMS, EIMC, EIAC and EIAM.
    Pf,
    /// The group of the virtual function with this number: PVTEICR, PVTEICS, PVTEIMS, PVTEIMC, PVTEIAC and PVTEIAM.
    Vf(u8),
}

impl Group {
    /// Returns the bits of the group's registers: 30 to 0 for the PF, 2 to 0 for a VF.
    ///
    /// Intel 82599 datasheet, section on interrupt registers.
    #[tactic(auto, using(crate::proofs::Groups::group_words))]
    #[inline(always)]
    pub fn bits(self) -> u32
        ensures { result ≡ group_bits self }
    {
        match self {
            Group::Pf => PF_BITS,
            Group::Vf(_) => VF_BITS,
        }
    }

    /// Whether the auto-mask acts on reads of and writes to the cause register, and on writes to the set register. For
    /// the PF, the auto-mask acts while GPIE bit 30 (EIAME, the argument `eiame`) is 0. For a VF, the auto-mask always
    /// acts, as this project's profile defines.
    #[inline(always)]
    pub fn auto_mask_acts(self, eiame: bool) -> bool
        ensures { result ≡ auto_mask_acts self eiame }
    {
        match self {
            Group::Pf => !eiame,
            Group::Vf(_) => true,
        }
    }

    /// Returns the causes that a queue raises through its byte of IVAR (for the PF) or PVTIVAR (for a VF), as a word
    /// with at most one bit. If bit 7 of the byte is 1, bits 5:0 of the byte name the cause. If bit 7 is 0, or if the
    /// cause is above bit 15 for the PF or above bit 2 for a VF, the word is 0.
    ///
    /// Intel 82599 datasheet, section on interrupt causes and their allocation.
    #[tactic(auto, unfolding(crate::specs::Group::queue_causes))]
    pub fn queue_causes(self, entry: u8) -> u32
        ensures { result ≡ queue_causes self entry }
    {
        let entry = u32::from(entry);
        let cause = (entry & NUMBER_BITS) as u8;
        let valid = BitSet::of_word(entry).contains(ENTRY_VALID);
        if valid && cause <= self.last_queue_cause() {
            BitSet::only(cause).word()
        } else {
            0
        }
    }

    /// Returns the vector (0 to 15) that reports a bit, or `None` if the bit isn't routed. `misc` is the word of
    /// IVAR_MISC, which routes bits 29 to 16 and bit 30 for the PF. `misc` has no effect for a VF.
    ///
    /// Intel 82599 datasheet, section on MSI-X vectors.
    #[tactic(auto, unfolding(crate::specs::Group::vector_of))]
    pub fn vector_of(self, bit: u8, misc: u32) -> Option<u8>
        ensures { result ≡ vector_of self misc bit }
    {
        match self {
            Group::Pf if bit <= 15 => Some(bit),
            Group::Pf if bit <= 29 => other_vector(misc),
            Group::Pf if bit == TIMER_BIT => timer_vector(misc),
            Group::Vf(_) if bit <= 2 => Some(bit),
            _ => None,
        }
    }

    /// Returns the bits that have a vector.
    #[tactic(auto, using(crate::proofs::Routing::routed))]
    pub(crate) fn routed_bits(self, misc: u32) -> BitSet
        ensures { result ≡ routed_bits self misc }
    {
        match self {
            Group::Pf => {
                let other = BitSet::of_word(OTHER_CAUSES).when(other_vector(misc).is_some());
                let timer = BitSet::only(TIMER_BIT).when(timer_vector(misc).is_some());
                BitSet::of_word(QUEUE_CAUSES).union(other).union(timer)
            }
            Group::Vf(_) => BitSet::of_word(VF_BITS),
        }
    }

    /// Returns the bits that a read of the cause register clears: all bits of the group, or only the other causes for
    /// the PF with other-cause clearing (`ocd`).
    #[tactic(auto, using(crate::proofs::Groups::group_words))]
    pub(crate) fn bits_cleared_by_read(self, ocd: bool) -> BitSet
        ensures { result ≡ bits_cleared_by_read self ocd }
    {
        match self {
            Group::Pf => {
                if ocd {
                    BitSet::of_word(OTHER_CAUSES)
                } else {
                    BitSet::of_word(PF_BITS)
                }
            }
            Group::Vf(_) => BitSet::of_word(VF_BITS),
        }
    }

    /// Returns the highest bit that a queue can raise.
    #[inline(always)]
    fn last_queue_cause(self) -> u8
        ensures { result ≡ last_queue_cause self }
    {
        match self {
            Group::Pf => 15,
            Group::Vf(_) => 2,
        }
    }
}

/// Returns the vector of the other causes: bits 13:8 of IVAR_MISC.
fn other_vector(misc: u32) -> Option<u8>
    ensures { result ≡ other_vector misc }
{
    let vector = (misc >> 8) & NUMBER_BITS;
    vector_if(BitSet::of_word(misc).contains(OTHER_VALID), vector as u8)
}

/// Returns the vector of the TCP timer: bits 5:0 of IVAR_MISC.
fn timer_vector(misc: u32) -> Option<u8>
    ensures { result ≡ timer_vector misc }
{
    vector_if(
        BitSet::of_word(misc).contains(TIMER_VALID),
        (misc & NUMBER_BITS) as u8,
    )
}

/// Returns the vector if it is marked valid and is below 16.
fn vector_if(valid: bool, vector: u8) -> Option<u8>
    ensures { result ≡ vector_if valid vector }
{
    if valid && vector < VECTORS {
        Some(vector)
    } else {
        None
    }
}
