ghost use Rattle.std.specs.Prelude.{◌≡◌, ◌*◌, ◌<◌, ◌≤◌, length};
ghost use Rattle.rss_hash.specs.Bits.{bit_of};
ghost use Rattle.rss_hash.specs.Toeplitz.{toeplitz_hash, HasParityBits, IsLinear, IgnoresTrailingZeros};

use crate::key::Key;

/// Returns bit `k` of a byte string, 0 or 1. Bit 0 is the most significant bit of the first byte.
pub(crate) fn bit(bytes: &[u8], k: usize) -> u8
    requires { k < 8 * length bytes.now }
    ensures value { result ≡ bit_of bytes.now k }
    ensures range { result < 2 }
{
    bytes[k / 8] >> (7 - k % 8) & 1
}

/// Returns the Toeplitz hash of an input of at most 36 bytes: the exclusive or, over the input bits `k` that are 1, of
/// the 32 key bits starting at bit `k`.
///
/// Intel 82599 datasheet, section on the RSS hash function.
pub fn hash(key: &Key, input: &[u8]) -> u32
    requires { length input.now ≤ 36 }
    ensures { result ≡ toeplitz_hash key.now.0 input.now }
{
    let mut hash = 0;
    for k in 0..8 * input.len() {
        if bit(input, k) == 1 {
            hash ^= key.window(k);
        }
    }
    hash
}

/// Bit `j` of the hash, counted from the hash's highest bit, is a parity. It is the parity of the number of input bits
/// `k` that are 1 and for which key bit `k + j` is 1.
pub fn hash_bits_are_parities(key: &Key)
    ensures { HasParityBits key.now.0 (toeplitz_hash key.now.0) }
{}

/// The hash of the exclusive or of two inputs of the same length is the exclusive or of their hashes.
pub fn hash_is_linear(key: &Key)
    ensures { IsLinear (toeplitz_hash key.now.0) }
{}

/// Zero bytes at an input's end don't change the hash.
pub fn hash_ignores_trailing_zeros(key: &Key)
    ensures { IgnoresTrailingZeros (toeplitz_hash key.now.0) }
{}
