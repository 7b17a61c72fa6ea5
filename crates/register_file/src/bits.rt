//! Single bits of words.

ghost use Rattle.std.specs.Prelude.{◌≡◌, ◌<◌};
ghost use Rattle.register_file.specs.Bits.{bit_set};
ghost use Rattle.register_file.specs.PoolReset.{mixed};

/// Returns the word with this bit set. The bit's number is below 32.
#[inline(always)]
pub(crate) fn bit_set(word: u32, bit: u32) -> u32
    requires { bit < 32 }
    ensures { result ≡ bit_set bit word }
{
    word | (1 << bit)
}

/// Returns `old` with the bits of `mask` taken from `new`.
#[inline(always)]
pub(crate) fn mixed(mask: u32, old: u32, new: u32) -> u32
    ensures { result ≡ mixed mask old new }
{
    old ^ ((old ^ new) & mask)
}
