//! Bits of a descriptor's halves, numbered as in the datasheet: bit 0 is the lowest.

ghost use Rattle.std.specs.Prelude.{◌≡◌, ◌<◌};
ghost use Rattle.dma_ring.specs.Bits.{has_bit};

/// Whether a bit of the word is 1.
#[tactic(auto, using(std::proofs::lemmas::Nat::Bits::shr_and_one))]
pub(crate) fn has_bit(word: u64, bit: u32) -> bool
    requires { bit < 64 }
    ensures { result ≡ has_bit bit word }
{
    (word >> bit) & 1 == 1
}
