//! Whether the frames accepted before a driver's start fit its packets, according to the entries of a history.

ghost use Rattle.std.specs.Prelude.{◌≡◌, ◌↔◌, ◌*◌, IsTrue};
ghost use Rattle.pmd_driver.specs.PmdAccess.Frames.{most_blocks};
ghost use Rattle.pmd.specs.Before.{known_before};
ghost use Rattle.pmd.specs.Fitting.{FramesFit, let_in_by, longest_after};

use crate::before::{is_first, still_left};
use crate::beginning::FRAME_CHECK;
use pmd_driver::{BLOCK_BYTES, Entry, Event, Reply, Watched};

/// Returns the length in bytes of the frame that arrived in this entry and was accepted, or 0 if there is no such
/// frame.
fn let_in_by(entry: &Entry) -> usize
    ensures { result ≡ let_in_by entry.now.event entry.now.reply }
{
    match (&entry.event, &entry.reply) {
        (Event::Arrive(frame), Reply::Done) => frame.bytes().len(),
        _ => 0,
    }
}

/// Returns the length in bytes of the longest frame accepted before the driver's first entry, or `None` if there is no
/// such entry.
fn longest_before(watched: Watched, from: usize, history: &[Entry]) -> Option<usize>
    ensures { result ≡ known_before longest_after watched 0 from history.now }
{
    let mut longest = 0usize;
    let mut left = from;
    for entry in history {
        if is_first(watched, left, entry) {
            return Some(longest);
        }
        longest = longest.max(let_in_by(entry));
        left = still_left(watched, left, entry);
    }
    None
}

/// Returns the maximum capacity in bytes of a driver's packet, whose blocks have 2,048 bytes each. Frames have at most
/// `frame` bytes, including their check sequence.
fn room_of(frame: u16) -> usize
    ensures { result ≡ 2048 * most_blocks frame }
{
    let packet = usize::from(frame.saturating_sub(FRAME_CHECK));
    BLOCK_BYTES * ((packet + BLOCK_BYTES - 1) / BLOCK_BYTES)
}

/// Returns whether the frames accepted before a driver's start fit its packets, in a history of a new device. A
/// driver's packet has at most as many blocks of 2,048 bytes as a frame of `frame` bytes needs without its check
/// sequence. A frame fits if it isn't longer than these blocks together; dropped frames don't count. The check covers
/// the entries before the driver's first event, which comes after `from` calls made by its pass and isn't a device
/// step. Returns true if there is no such event. This function allocates nothing.
pub fn frames_fit(watched: Watched, from: usize, frame: u16, history: &[Entry]) -> bool
    ensures { IsTrue result ↔ FramesFit watched from (2048 * most_blocks frame) history.now }
{
    match longest_before(watched, from, history) {
        Some(longest) => longest <= room_of(frame),
        None => true,
    }
}
