ghost use Rattle.std.specs.Prelude.{◌≡◌, ◌<◌, ◌≤◌, length, replicate, slice_set};
ghost use Rattle.rss_hash.specs.Registers.{bytes_of_registers};
ghost use Rattle.rss_hash.specs.Toeplitz.{toeplitz_hash};

use crate::tables::{refill_tables, shares};
use std::marker::Model;

/// The hash key in the registers RSSRK, with tables. For each half byte `k` of an input and each value `v` of that half
/// byte, the tables contain one number. The number is the exclusive or, over the bits `j` of `v` that are 1, of the 32
/// key bits starting at bit `4k + j`. Computing a hash therefore combines only two numbers for each byte. Contracts
/// view a hash key as the list of its ten words.
///
/// Intel 82599 datasheet, section on receive side scaling.
#[derive(Drop)]
pub struct HashKey {
    words: [u32; 10],
    tables: [[u32; 16]; 72],
}

impl Model for HashKey {
    ghost use Rattle.std.specs.Prelude.{ℕ, List};

    ghost Value = { List ℕ };

    ghost use Rattle.rss_hash.specs.HashKeys.{HasItsTables};

    ghost view = { λ key. key.words };

    ghost invariant = { HasItsTables };
}

impl HashKey {
    /// Returns the key with all bits 0.
    pub fn zero() -> HashKey
        ensures { result ≡ replicate 10 0 }
    {
        HashKey {
            words: [0; 10],
            tables: [[0; 16]; 72],
        }
    }

    /// Returns a copy of the key.
    pub fn copy(&self) -> HashKey
        ensures { result ≡ self.now }
    {
        HashKey {
            words: self.words,
            tables: self.tables,
        }
    }

    /// Makes this key a copy of another.
    pub fn copy_from(&mut self, other: &HashKey)
        ensures { self.new ≡ other.now }
    {
        self.words = other.words;
        self.tables = other.tables;
    }

    /// Returns the words of RSSRK.
    pub fn words(&self) -> &[u32; 10]
        ensures { result.now ≡ self.now }
    {
        &self.words
    }

    /// Stores a word of RSSRK. If the word is unchanged, the tables are unchanged too.
    pub fn set_word(&mut self, index: usize, word: u32)
        requires { index < 10 }
        ensures { self.new ≡ slice_set self.old index word }
    {
        if self.words[index] == word {
            return;
        }
        self.words[index] = word;
        refill_tables(&mut self.tables, &self.words, index);
    }

    /// Returns the Toeplitz hash of an input of at most 36 bytes, without branching on its bits. The contributions of
    /// high and low half bytes are combined separately, so neither chain of operations waits for the other.
    pub fn hash(&self, input: &[u8]) -> u32
        requires { length input.now ≤ 36 }
        ensures { result ≡ toeplitz_hash (bytes_of_registers self.now) input.now }
    {
        let mut high = 0;
        let mut low = 0;
        for i in 0..input.len() {
            let (high_share, low_share) = shares(&self.tables, i, input[i]);
            high ^= high_share;
            low ^= low_share;
        }
        high ^ low
    }
}
