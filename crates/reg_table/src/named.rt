//! Tests and changes bits of a word, by name or by number.

ghost use Rattle.std.specs.Prelude.{◌≡◌, ◌<◌, ◌^◌};
ghost use Rattle.reg_table.specs.Single.{IsSingle, has_flag, with_flag, without_flag};

use bitflags::Flags;

/// Whether the bit with this number, counted from bit 0 as the lowest, is 1 in a word.
#[inline(always)]
pub fn has_bit(word: u32, bit: u32) -> bool
    requires { bit < 32 }
    ensures { result ≡ has_flag (2 ^ bit) word }
{
    (word >> bit) % 2 == 1
}

/// Whether a named bit is 1 in its register's word.
#[inline(always)]
#[tactic(auto, using(crate::proofs::Masks::contains_single))]
pub fn has_flag<F: Flags<Bits = u32>>(word: u32, flag: F) -> bool
    requires exact { F.exact }
    requires single { IsSingle (F.set_of flag) }
    ensures { result ≡ has_flag (F.set_of flag) word }
{
    F::from_bits_retain(word).contains(flag)
}

/// Returns the word with a named bit set and every other bit unchanged.
#[inline(always)]
#[tactic(auto, using(crate::proofs::Masks::or_single))]
pub fn with_flag<F: Flags<Bits = u32>>(word: u32, flag: F) -> u32
    requires exact { F.exact }
    requires single { IsSingle (F.set_of flag) }
    ensures { result ≡ with_flag (F.set_of flag) word }
{
    F::from_bits_retain(word).union(flag).bits()
}

/// Returns the word with a named bit cleared and every other bit unchanged.
#[inline(always)]
#[tactic(auto, using(crate::proofs::Masks::without_single))]
pub fn without_flag<F: Flags<Bits = u32>>(word: u32, flag: F) -> u32
    requires exact { F.exact }
    requires single { IsSingle (F.set_of flag) }
    requires small { F.set_of flag < 2 ^ 32 }
    ensures { result ≡ without_flag (F.set_of flag) word }
{
    F::from_bits_retain(word).difference(flag).bits()
}
