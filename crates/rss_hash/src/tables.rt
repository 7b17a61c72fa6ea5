//! Tables of the numbers that each half byte of an input adds to the input's hash. The numbers combine windows of the
//! key, and the tables are filled in when a key is written.

ghost use Rattle.std.specs.Prelude.{◌≡◌, ◌<◌, map};
ghost use Rattle.std.specs.List.{range_with_len};
ghost use Rattle.rss_hash.specs.Tables.{joined, high_share, low_share, AreItsWindows, FitBeyond};

use crate::key::Key;

/// Refills the tables of the half bytes that use a bit of the key's written word. Row `n` has, for each value of half
/// byte `n`, the exclusive or of that value's windows. This function isn't inlined, to keep its code out of the writes
/// to other registers.
#[inline(never)]
pub(crate) fn refill_tables(tables: &mut [[u32; 16]; 72], words: &[u32; 10], index: usize)
    requires index { index < 10 }
    requires beyond { FitBeyond tables.old words.now index }
    ensures { AreItsWindows tables.new words.now }
{
    let key = Key::from_words(words);
    let first_row = (8 * index).saturating_sub(8);
    let end = (8 * index + 8).min(72);
    let mut window = key.window(4 * first_row);
    for n in first_row..end {
        let first = window;
        let second = key.next_window(4 * n, first);
        let third = key.next_window(4 * n + 1, second);
        let fourth = key.next_window(4 * n + 2, third);
        window = key.next_window(4 * n + 3, fourth);
        tables[n] = choices(first, second, third, fourth);
    }
}

/// Returns the exclusive or of each subset of four numbers: entry `v` combines the numbers at which bits 3 to 0 of `v`
/// are 1.
#[inline(always)]
fn choices(a: u32, b: u32, c: u32, d: u32) -> [u32; 16]
    ensures { result ≡ map (joined a b c d) (range_with_len 0 16) }
{
    let (ab, cd) = (a ^ b, c ^ d);
    [
        0,
        d,
        c,
        cd,
        b,
        b ^ d,
        b ^ c,
        b ^ cd,
        a,
        a ^ d,
        a ^ c,
        a ^ cd,
        ab,
        ab ^ d,
        ab ^ c,
        ab ^ cd,
    ]
}

/// Returns the numbers that the high and the low half of byte `i` of an input add to the input's hash.
#[inline(always)]
pub(crate) fn shares(tables: &[[u32; 16]; 72], i: usize, byte: u8) -> (u32, u32)
    requires { i < 36 }
    ensures high { result.0 ≡ high_share tables.now i byte }
    ensures low { result.1 ≡ low_share tables.now i byte }
{
    let high = tables[2 * i][usize::from(byte / 16)];
    let low = tables[2 * i + 1][usize::from(byte % 16)];
    (high, low)
}
