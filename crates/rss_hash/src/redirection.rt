ghost use Rattle.std.specs.Prelude.{◌≡◌, ◌*◌, ◌<◌, length, slice_index};
ghost use Rattle.std.specs.Int.{to_le_bytes, w32};
ghost use Rattle.rss_hash.specs.Registers.{bytes_of_registers, entry_of, IsEntryIn};

/// Returns the entry of the redirection table, 0 to 15, that the low seven bits of a hash select. `table` contains the
/// words of RETA, with four entries in each: entry 4i + j is in bits 8j+3:8j of word i.
///
/// Intel 82599 datasheet, section on the register RETA.
#[tactic(auto, unfolding(crate::specs::Registers::entry_of))]
pub fn entry(table: &[u32; 32], hash: u32) -> u8
    ensures value { result ≡ entry_of table.now hash }
    ensures range { result < 16 }
{
    register_byte(table, (hash % 128) as usize) % 16
}

/// Returns the entry of the redirection table, 0 to 15, that a hash selects, given only the word of RETA that contains
/// the entry, word `hash % 128 / 4`.
pub fn entry_in(word: u32, hash: u32) -> u8
    ensures value { IsEntryIn word hash result }
    ensures range { result < 16 }
{
    byte_of(word, (hash % 4) as usize) % 16
}

/// Returns byte `n` of consecutive registers. In each register, the byte with the lowest bits comes first.
#[tactic(auto, using(crate::proofs::RegisterBytes::register_byte_at))]
pub(crate) fn register_byte(words: &[u32], n: usize) -> u8
    requires { n < 4 * length words.now }
    ensures { result ≡ slice_index (bytes_of_registers words.now) n }
{
    byte_of(words[n / 4], n % 4)
}

/// Returns byte `j` of a register. Byte 0 has the lowest bits.
fn byte_of(word: u32, j: usize) -> u8
    requires { j < 4 }
    ensures { result ≡ slice_index (to_le_bytes w32 word) j }
{
    word.to_le_bytes()[j]
}
