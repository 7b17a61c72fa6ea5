//! The RSS hash function for C.

ghost use Rattle.std.specs.Prelude.{◌≡◌, ◌<◌, ◌≤◌, length};
ghost use Rattle.nic_device.specs.RssHash.Toeplitz.{toeplitz_hash};

use crate::status::{DONE, NO_ROOM};
use nic_device::{Key, hash};

/// The maximum number of bytes that can be hashed.
const INPUT_BYTES: usize = 36;

/// The 40 bytes of an RSS key, as stored in RSSRK.
#[repr(C)]
#[derive(Drop)]
pub struct KeyBytes {
    /// The bytes of the key, in order.
    pub bytes: [u8; 40],
}

/// Computes the RSS hash of an input of at most 36 bytes, using the key, and stores the hash in `word`. Returns DONE,
/// or NO_ROOM if the input is longer; in that case `word` is unchanged.
#[unsafe(no_mangle)]
pub extern "C" fn nic_hash(key: &KeyBytes, input: &[u8], word: &mut u32) -> u8
    ensures done { length input.now ≤ 36 → result ≡ DONE }
    ensures hash { length input.now ≤ 36 → word.new ≡ toeplitz_hash key.now.bytes input.now }
    ensures no_room { 36 < length input.now → (result ≡ NO_ROOM) × (word.new ≡ word.old) }
{
    if input.len() > INPUT_BYTES {
        return NO_ROOM;
    }
    *word = hash(&Key(key.bytes), input);
    DONE
}
