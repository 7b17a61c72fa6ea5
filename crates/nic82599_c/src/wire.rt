//! Frames that arrive from the link or leave on it, without their frame check sequence.

ghost use Rattle.std.specs.Prelude.{◌≡◌, ◌≢◌, ◌<◌, ◌≤◌, length};
ghost use Rattle.nic_device.specs.Link.{next_out_of};
ghost use Rattle.nic_device.specs.Step.{reply_to};
ghost use Rattle.card.specs.Card.{made};
ghost use Rattle.nic82599_c.specs.Outcome.{status_of, outcome_of, with_frame};

use crate::handle::Handle;
use crate::outcome::{Outcome, outcome_of, status_of};
use crate::status::{NO_ROOM, OUT_OF_MEMORY};
use crate::steps::tell;
use card::Card;
use nic_device::{Event, Octets, Reply};
use std::alloc::Global;

/// Delivers a frame from the link, without its frame check sequence. Returns DONE if the frame joins the receive list,
/// otherwise DROPPED; `outcome` contains the details. Or returns OUT_OF_MEMORY, which changes nothing; the contract
/// doesn't specify when this happens.
#[unsafe(no_mangle)]
pub extern "C" fn nic_arrive(
    alloc: Global,
    nic: &mut Handle,
    frame: &[u8],
    outcome: &mut Outcome,
) -> u8
    ensures status { result ≢ OUT_OF_MEMORY
        → result ≡ status_of (reply_to nic.old.card.device (Event.Arrive frame.now)) }
    ensures outcome { result ≢ OUT_OF_MEMORY
        → outcome.new ≡ outcome_of (reply_to nic.old.card.device (Event.Arrive frame.now)) }
    ensures card { result ≢ OUT_OF_MEMORY → nic.new.card ≡ made nic.old.card (Event.Arrive frame.now) }
    ensures unchanged { result ≡ OUT_OF_MEMORY → (nic.new.card ≡ nic.old.card) × (outcome.new ≡ outcome.old) }
{
    let mut bytes = Vec::new(alloc);
    match bytes.extend_from_slice(frame) {
        Ok(()) => tell(nic.get_mut(), Event::Arrive(Octets::of(bytes)), outcome),
        Err(_) => OUT_OF_MEMORY,
    }
}

/// Returns the length in bytes of the frame that `nic_collect` would return, or 0 if there is no such frame. The card
/// is unchanged.
#[unsafe(no_mangle)]
pub extern "C" fn nic_next_out(nic: &mut Handle) -> usize
    ensures next { result ≡ next_out_of nic.old.card.device.out }
    ensures unchanged { nic.new.card ≡ nic.old.card }
{
    nic.get_mut().next_out()
}

/// Collects the oldest transmitted frame, if `room` is large enough.
#[tactic(auto, using(crate::proofs::Frames::frame_fits))]
fn collect(card: &mut Card, room: &mut [u8], outcome: &mut Outcome) -> u8
    ensures fits { next_out_of card.old.device.out ≤ length room.old
        → result ≡ status_of (reply_to card.old.device Event.Collect) }
    ensures outcome { next_out_of card.old.device.out ≤ length room.old
        → outcome.new ≡ outcome_of (reply_to card.old.device Event.Collect) }
    ensures card { next_out_of card.old.device.out ≤ length room.old → card.new ≡ made card.old Event.Collect }
    ensures room { next_out_of card.old.device.out ≤ length room.old
        → room.new ≡ with_frame room.old (reply_to card.old.device Event.Collect) }
    ensures no_room { length room.old < next_out_of card.old.device.out → result ≡ NO_ROOM }
    ensures unchanged { length room.old < next_out_of card.old.device.out
        → (card.new ≡ card.old) × (room.new ≡ room.old) × (outcome.new ≡ outcome.old) }
{
    if card.next_out() > room.len() {
        return NO_ROOM;
    }
    match card.make(Event::Collect) {
        Ok(reply) => {
            *outcome = outcome_of(&reply);
            if let Reply::Frame { queue: _, bytes } = &reply {
                let all = bytes.bytes();
                room[..all.len()].copy_from_slice(all);
            }
            status_of(&reply)
        }
        Err(_) => unreachable!(),
    }
}

/// Collects the oldest transmitted frame. Returns FRAME, with the frame's bytes at the start of `room` and the other
/// details in `outcome`; IDLE if there is no frame; or NO_ROOM if `room` is shorter than the frame: the frame isn't
/// removed, and nothing changes.
#[unsafe(no_mangle)]
pub extern "C" fn nic_collect(nic: &mut Handle, room: &mut [u8], outcome: &mut Outcome) -> u8
    ensures fits { next_out_of nic.old.card.device.out ≤ length room.old
        → result ≡ status_of (reply_to nic.old.card.device Event.Collect) }
    ensures outcome { next_out_of nic.old.card.device.out ≤ length room.old
        → outcome.new ≡ outcome_of (reply_to nic.old.card.device Event.Collect) }
    ensures card { next_out_of nic.old.card.device.out ≤ length room.old
        → nic.new.card ≡ made nic.old.card Event.Collect }
    ensures room { next_out_of nic.old.card.device.out ≤ length room.old
        → room.new ≡ with_frame room.old (reply_to nic.old.card.device Event.Collect) }
    ensures no_room { length room.old < next_out_of nic.old.card.device.out → result ≡ NO_ROOM }
    ensures unchanged { length room.old < next_out_of nic.old.card.device.out
        → (nic.new.card ≡ nic.old.card) × (room.new ≡ room.old) × (outcome.new ≡ outcome.old) }
{
    collect(nic.get_mut(), room, outcome)
}

/// Sets the link up or down. Returns DONE, or IDLE if the link is already in that state.
#[unsafe(no_mangle)]
pub extern "C" fn nic_link(nic: &mut Handle, up: bool) -> u8
    ensures status { result ≡ status_of (reply_to nic.old.card.device (Event.Link up)) }
    ensures card { nic.new.card ≡ made nic.old.card (Event.Link up) }
{
    match nic.get_mut().make(Event::Link(up)) {
        Ok(reply) => status_of(&reply),
        Err(_) => unreachable!(),
    }
}
