//! Whether nobody else lends a driver's blocks, according to the entries of a history: no other pass lends any of the
//! blocks, and none of them is lent when the driver starts.

ghost use Rattle.std.specs.Prelude.{◌≡◌, ◌↔◌, ◌==◌, ◌&&◌, ◌||◌, not, nat_lt, ℕ, IsTrue, if◌then◌else◌};
ghost use Rattle.pmd_driver.specs.DeviceLock.Watching.{marked, none_of};
ghost use Rattle.pmd.specs.Before.{holds_of, known_before};
ghost use Rattle.pmd.specs.Lending.{OthersLendNone, are_from, lends_none, lent_after, no_block, only_pass_lends};

use crate::before::{is_first, still_left};
use pmd_driver::{BLOCK_NUMBERS, Entry, Event, EventNote, Reply, Watched};

/// For each block number, whether that block is lent.
type Lent = [bool; BLOCK_NUMBERS as usize];

/// Returns whether a number is one of the `count` blocks starting at `first`.
fn is_from(first: u32, count: u32, number: u32) -> bool
    ensures { result ≡ are_from first count number }
{
    first <= number && u64::from(number) < u64::from(first) + u64::from(count)
}

/// Returns whether an event lends none of these blocks.
fn lends_none(first: u32, count: u32, event: &EventNote) -> bool
    ensures { result ≡ lends_none (are_from first count) event.now }
{
    match event {
        Event::Lend(note) => !is_from(first, count, note.number()),
        _ => true,
    }
}

/// Returns whether no other pass lends any of these blocks.
fn only_pass_lends(pass: u8, first: u32, count: u32, history: &[Entry]) -> bool
    ensures { result ≡ only_pass_lends pass (are_from first count) history.now }
{
    for entry in history {
        if entry.pass != pass && !lends_none(first, count, &entry.event) {
            return false;
        }
    }
    true
}

/// Records whether a block is lent.
fn note(lent: &mut Lent, block: u32, is: bool)
    ensures { (number : ℕ) → marked lent.new number
        ≡ (if nat_lt number 65536 && (block == number) then is else marked lent.old number) }
{
    if block < BLOCK_NUMBERS {
        lent[block as usize] = is;
    }
}

/// Records the blocks that an entry lends and takes back.
fn note_lent(lent: &mut Lent, entry: &Entry)
    ensures { (number : ℕ) → marked lent.new number ≡ lent_after (marked lent.old) entry.now number }
{
    match (&entry.event, &entry.reply) {
        (Event::Lend(block), Reply::Done) => note(lent, block.number(), true),
        (Event::Take(number), Reply::Buf(_)) => note(lent, *number, false),
        _ => {}
    }
}

/// Returns whether a block is lent.
fn is_lent(lent: &Lent, number: u64) -> bool
    ensures { result ≡ marked lent.now number }
{
    number < u64::from(BLOCK_NUMBERS) && lent[number as usize]
}

/// Returns whether none of these blocks is lent.
fn none_lent(lent: &Lent, first: u32, count: u32) -> bool
    ensures { result ≡ none_of (marked lent.now) first count }
{
    let first = u64::from(first);
    for after in 0..u64::from(count) {
        if is_lent(lent, first + after) {
            return false;
        }
    }
    true
}

/// Returns whether none of these blocks is lent just before the driver's first entry. Returns true if there is no such
/// entry.
fn none_lent_before(
    watched: Watched,
    from: usize,
    first: u32,
    count: u32,
    history: &[Entry],
) -> bool
    ensures { result ≡ holds_of (λ lent. none_of lent first count)
        (known_before lent_after watched no_block from history.now) }
{
    let mut lent = [false; BLOCK_NUMBERS as usize];
    let mut left = from;
    for entry in history {
        if is_first(watched, left, entry) {
            return none_lent(&lent, first, count);
        }
        note_lent(&mut lent, entry);
        left = still_left(watched, left, entry);
    }
    true
}

/// Returns whether nobody else lends a driver's blocks in a history of a new device. The blocks are the `count` blocks
/// starting at `first`, as in the driver's arena. No entry of another pass may try to lend any of these blocks,
/// whatever the reply, and none of them may be lent just before the driver's first event. That event comes after `from`
/// calls made by the driver's pass and isn't a device step. A block is lent if an earlier entry lent it and no entry
/// since then took it back. This function allocates nothing.
pub fn others_lend_none(
    watched: Watched,
    from: usize,
    first: u32,
    count: u32,
    history: &[Entry],
) -> bool
    ensures { IsTrue result ↔ OthersLendNone watched from (are_from first count) history.now }
{
    only_pass_lends(watched.pass, first, count, history)
        && none_lent_before(watched, from, first, count, history)
}
