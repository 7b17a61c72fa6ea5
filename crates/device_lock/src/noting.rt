//! Notes of events and of their replies. A list of calls keeps a spare vector with room for anything that a reply may
//! return. A note therefore takes only the memory that its bytes need, and the device's reply can always be noted.

ghost use Rattle.std.specs.Prelude.{◌≡◌, ◌<◌, ◌≤◌, [], true, IfOk, OnOk};
ghost use Rattle.std.specs.Vec.{vec_len, vec_capacity};
ghost use Rattle.nic_device.specs.Answering.{note_length};
ghost use Rattle.nic_device.specs.Step.{step_of};

use nic_device::{Device, Event, EventNote, Notes, Reply, ReplyNote};
use std::alloc::{AllocError, Global};
use std::mem;

/// Allocates what a list of calls needs for the next event: room for one more entry, the event's note, and a spare
/// vector with room for the reply's note.
pub(crate) fn ready<T>(
    alloc: Global,
    device: &Device,
    calls: &mut Vec<T>,
    spare: &mut Vec<u8>,
    notes: &mut Notes,
    event: &Event,
) -> Result<EventNote, AllocError>
    ensures same { calls.new.items ≡ calls.old.items }
    ensures room { OnOk result (vec_len calls.new < vec_capacity calls.new) }
    ensures note { IfOk result (λ note. note ≡ event.now) }
    ensures empty { OnOk result (spare.new.items ≡ []) }
    ensures spare { OnOk result (note_length (step_of device.now event.now).reply ≤ vec_capacity spare.new) }
{
    calls.reserve(1)?;
    spare.clear();
    spare.reserve(device.note_room(event))?;
    note_event(alloc, notes, event)
}

/// Returns the note of an event. A block's note shares its bytes with the block's previous note if they are unchanged.
fn note_event(alloc: Global, notes: &mut Notes, event: &Event) -> Result<EventNote, AllocError>
    ensures { IfOk result (λ note. note ≡ event.now) }
{
    match event {
        Event::Lend(buf) => match notes.of(alloc, buf) {
            Ok(note) => Ok(Event::Lend(note)),
            Err(refused) => Err(refused),
        },
        _ => event.note(alloc),
    }
}

/// Returns the note of a reply. The note of a block is made as for an event. If there is no memory for a new note, the
/// note goes into the spare vector, which has room for it.
#[inline(always)]
pub(crate) fn note_of(
    alloc: Global,
    reply: &Reply,
    spare: &mut Vec<u8>,
    notes: &mut Notes,
) -> ReplyNote
    requires empty { spare.old.items ≡ [] }
    requires room { note_length reply.now ≤ vec_capacity spare.old }
    ensures { result ≡ reply.now }
{
    if let Reply::Buf(buf) = reply {
        if let Ok(note) = notes.of(alloc, buf) {
            return Reply::Buf(note);
        }
    }
    note_alone(alloc, reply, spare)
}

/// Returns the note of a reply in a new vector, or in the spare vector if there is no memory for a new one. The spare
/// vector has room for the note.
#[inline(always)]
fn note_alone(alloc: Global, reply: &Reply, spare: &mut Vec<u8>) -> ReplyNote
    requires empty { spare.old.items ≡ [] }
    requires room { note_length reply.now ≤ vec_capacity spare.old }
    ensures { result ≡ reply.now }
{
    let length = reply.note_length();
    match Vec::with_capacity(alloc, length) {
        Ok(room) => reply.note_of_length(length, room),
        Err(_) => reply.note_of_length(length, mem::replace(spare, Vec::new(alloc))),
    }
}
