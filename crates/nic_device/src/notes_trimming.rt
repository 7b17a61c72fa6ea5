//! The length of a byte sequence without its trailing zeros.

ghost use Rattle.std.specs.Prelude.{◌≡◌, ℕ, ◌+◌, ◌<◌, ◌≤◌, length, slice_index, true};
ghost use Rattle.nic_device.specs.NotesTrimming.{kept_len};

use rx_ring::Buf;
use std::simd::prelude::*;

/// The number of bytes compared with 0 at a time.
const TOGETHER: usize = 64;

/// Returns the length of a block's bytes without the trailing zeros.
pub(crate) fn kept_in(buf: &Buf) -> usize
    ensures { result ≡ kept_len buf.now.bytes }
{
    let bytes: &[u8] = buf.bytes();
    kept_before(bytes, buf.zeros_from())
}

/// Returns the length of the bytes without the trailing zeros. All bytes at and after `from` must be 0.
fn kept_before(bytes: &[u8], from: usize) -> usize
    requires within { from ≤ length bytes.now }
    requires zeros { (k : ℕ) → from ≤ k → slice_index bytes.now k ≡ 0 }
    ensures { result ≡ kept_len bytes.now }
{
    let mut end = zeros_begin(bytes, from);
    while end > 0 && bytes[end - 1] == 0 {
        end -= 1;
    }
    end
}

/// Returns an index, at most `from`, such that all bytes at and after the index are 0. The search goes back from `from`
/// in whole groups of `TOGETHER` bytes.
fn zeros_begin(bytes: &[u8], from: usize) -> usize
    requires within { from ≤ length bytes.now }
    requires zeros { (k : ℕ) → from ≤ k → slice_index bytes.now k ≡ 0 }
    ensures within { result ≤ length bytes.now }
    ensures zeros { (k : ℕ) → result ≤ k → slice_index bytes.now k ≡ 0 }
{
    let mut end = from;
    while end >= TOGETHER && are_zeros(bytes, end - TOGETHER) {
        end -= TOGETHER;
    }
    end
}

/// Whether the 64 bytes starting at index `first` are all 0.
fn are_zeros(bytes: &[u8], first: usize) -> bool
    requires { first + 64 ≤ length bytes.now }
    ensures { result ≡ true → (k : ℕ) → first ≤ k → k < first + 64 → slice_index bytes.now k ≡ 0 }
{
    u8x64::from_slice(&bytes[first..])
        .simd_ne(u8x64::splat(0))
        .to_bitmask()
        == 0
}
