ghost use Rattle.std.specs.Prelude.{◌≡◌};
ghost use Rattle.reg_table.specs.Counter.{bumped};

/// Returns a counter's word plus one, or 0xFFFFFFFF if the word is already 0xFFFFFFFF.
pub fn bump(word: u32) -> u32
    ensures { result ≡ bumped word }
{
    word.saturating_add(1)
}
