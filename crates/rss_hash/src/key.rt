ghost use Rattle.std.specs.Prelude.{◌≡◌, ◌+◌, ◌<◌, ◌≤◌};
ghost use Rattle.rss_hash.specs.Bits.{bits_from};
ghost use Rattle.rss_hash.specs.Registers.{bytes_of_registers};

use crate::redirection::register_byte;
use crate::toeplitz::bit;

/// The hash key: 40 bytes. Bit 0 is the most significant bit of the first byte.
///
/// Intel 82599 datasheet, section on receive side scaling.
#[derive(Clone, Copy, PartialEq, Eq, Debug)]
pub struct Key(pub [u8; 40]);

impl Key {
    /// Returns the key that the words of RSSRK contain. Byte 4i + j of the key is bits 8j+7:8j of word i.
    pub fn from_words(words: &[u32; 10]) -> Key
        ensures { result.0 ≡ bytes_of_registers words.now }
    {
        let mut bytes = [0; 40];
        for n in 0..40 {
            bytes[n] = register_byte(words, n);
        }
        Key(bytes)
    }

    /// Returns the 32 key bits starting at bit `first`, with bit `first` as the highest.
    pub(crate) fn window(&self, first: usize) -> u32
        requires { first + 32 ≤ 320 }
        ensures { result ≡ bits_from self.now.0 first 32 }
    {
        let mut window = 0;
        for k in 0..32 {
            window = 2 * window + u32::from(bit(&self.0, first + k));
        }
        window
    }

    /// Returns the window of 32 key bits starting at bit `first + 1`, given the window starting at bit `first`.
    #[tactic(auto, using(crate::proofs::Sliding::bits_from_next))]
    pub(crate) fn next_window(&self, first: usize, window: u32) -> u32
        requires room { first + 32 < 320 }
        requires window { window ≡ bits_from self.now.0 first 32 }
        ensures { result ≡ bits_from self.now.0 (first + 1) 32 }
    {
        2 * (window % 0x8000_0000) + u32::from(bit(&self.0, first + 32))
    }
}
