//! Notes: copies of events and replies that a program can keep, with a note in place of each packet buffer. Contracts
//! treat an event as equal to its note, and a reply as equal to its note.

ghost use Rattle.std.specs.Prelude.{◌≡◌, ◌-◌, ◌≤◌, ◌↔◌, IsTrue, IfOk, [], length, take, false, true};
ghost use Rattle.std.specs.Vec.{vec_capacity};
ghost use Rattle.std.specs.Result.{result_err};
ghost use Rattle.nic_device.specs.Answering.{is_plain, note_length};
ghost use Rattle.nic_device.specs.Step.{handed_block};
ghost use Rattle.nic_device.specs.NotesTrimming.{kept_len};

use crate::event::{Event, EventNote, Note, Reply, ReplyNote};
use crate::notes_holding::Holding;
use crate::notes_trimming::kept_in;
use rx_ring::{Buf, Octets};
use std::alloc::{AllocError, Global};
use std::sync::Arc;

impl Note {
    /// Returns the note of a block of packet memory. The stored bytes are copied into the vector, which must be empty
    /// and have a capacity of at least 2,048 bytes. Spare capacity is freed, but no clause states this.
    pub fn of(buf: &Buf, room: Vec<u8>) -> Note
        requires empty { room.items ≡ [] }
        requires room { 2048 ≤ vec_capacity room }
        ensures { result ≡ buf.now }
    {
        let _whole = buf.bytes();
        Note::with_kept(buf, kept_in(buf), room)
    }

    /// Returns a block's note, which stores the block's first `kept` bytes. The vector must be empty and have room for
    /// these bytes.
    pub(crate) fn with_kept(buf: &Buf, kept: usize, room: Vec<u8>) -> Note
        requires kept { kept ≡ kept_len buf.now.bytes }
        requires empty { room.items ≡ [] }
        requires room { kept ≤ vec_capacity room }
        ensures { result ≡ buf.now }
    {
        let bytes: &[u8] = buf.bytes();
        Note::with_own(buf, kept, fitted(&bytes[..kept], room))
    }

    /// Returns a block's note, which owns these bytes: the block's first `kept` bytes.
    pub(crate) fn with_own(buf: &Buf, kept: usize, bytes: Octets) -> Note
        requires kept { kept ≡ kept_len buf.now.bytes }
        requires bytes { bytes ≡ take kept buf.now.bytes }
        ensures { result ≡ buf.now }
    {
        let zeros = zeros_after(buf, kept);
        Note::new(Holding::own(buf.block() as u16, bytes, zeros))
    }

    /// Returns a block's note, which stores these bytes. Other notes may share the bytes.
    pub(crate) fn with_common(buf: &Buf, kept: usize, bytes: Arc<Octets>) -> Note
        requires kept { kept ≡ kept_len buf.now.bytes }
        requires bytes { bytes.value ≡ take kept buf.now.bytes }
        ensures { result ≡ buf.now }
    {
        let zeros = zeros_after(buf, kept);
        Note::new(Holding::common(buf.block() as u16, bytes, zeros))
    }
}

/// Returns how many zero bytes of a block follow the bytes that its note stores.
fn zeros_after(buf: &Buf, kept: usize) -> u16
    requires { kept ≡ kept_len buf.now.bytes }
    ensures { result ≡ length buf.now.bytes - kept }
{
    let bytes: &[u8] = buf.bytes();
    (bytes.len() - kept) as u16
}

/// Copies the bytes into this vector, which must have room for them. Spare capacity is freed.
fn fitted(bytes: &[u8], room: Vec<u8>) -> Octets
    requires empty { room.items ≡ [] }
    requires room { length bytes.now ≤ vec_capacity room }
    ensures { result ≡ bytes.now }
{
    let mut copy = Octets::copied(bytes, room).into_vec();
    copy.shrink_to_fit();
    Octets::of(copy)
}

impl Event {
    /// Returns the note of an event. Fails with `AllocError` if there isn't enough memory for the copy of a block or a
    /// frame.
    pub fn note(&self, alloc: Global) -> Result<EventNote, AllocError>
        ensures { IfOk result (λ note. note ≡ self.now) }
    {
        match self {
            Event::Read(port, address) => Ok(Event::Read(*port, *address)),
            Event::Write(port, address, word) => Ok(Event::Write(*port, *address, *word)),
            Event::Lend(buf) => {
                let kept = kept_in(buf);
                let room = Vec::with_capacity(alloc, kept)?;
                Ok(Event::Lend(Note::with_kept(buf, kept, room)))
            }
            Event::Take(number) => Ok(Event::Take(*number)),
            Event::Peek16(address) => Ok(Event::Peek16(*address)),
            Event::Poke16(address, bytes) => Ok(Event::Poke16(*address, *bytes)),
            Event::Arrive(frame) => {
                let room = Vec::with_capacity(alloc, frame.bytes().len())?;
                Ok(Event::Arrive(Octets::copied(frame.bytes(), room)))
            }
            Event::RxStep => Ok(Event::RxStep),
            Event::TxStep(queue) => Ok(Event::TxStep(*queue)),
            Event::IntStep(group) => Ok(Event::IntStep(*group)),
            Event::QueueStep(dir, queue) => Ok(Event::QueueStep(*dir, *queue)),
            Event::EepromStep => Ok(Event::EepromStep),
            Event::Link(up) => Ok(Event::Link(*up)),
            Event::Collect => Ok(Event::Collect),
        }
    }
}

impl Event<Note> {
    /// Whether this note and `other` are notes of equal events.
    pub fn same(&self, other: &EventNote) -> bool
        ensures { IsTrue result ↔ (self.now ≡ other.now) }
    {
        *self == *other
    }
}

impl Reply {
    /// Returns how many bytes the note of the reply copies: a block's bytes without the trailing zeros, or a frame's
    /// bytes. Returns 0 for other replies.
    pub fn note_length(&self) -> usize
        ensures { result ≡ note_length self.now }
    {
        match self {
            Reply::Buf(buf) | Reply::Twice(buf) => kept_in(buf),
            Reply::Frame { queue: _, bytes } => bytes.bytes().len(),
            _ => 0,
        }
    }

    /// Returns the note of a reply. Fails with `AllocError` if there isn't enough memory for the copy of a block or a
    /// frame.
    pub fn note(&self, alloc: Global) -> Result<ReplyNote, AllocError>
        ensures { IfOk result (λ note. note ≡ self.now) }
    {
        let room = Vec::with_capacity(alloc, self.note_length())?;
        Ok(self.note_in(room))
    }

    /// Returns the note of a reply. The copied bytes go into the vector, which must be empty and have room for them.
    /// The call allocates nothing, but no clause states this.
    pub fn note_in(&self, room: Vec<u8>) -> ReplyNote
        requires empty { room.items ≡ [] }
        requires room { note_length self.now ≤ vec_capacity room }
        ensures { result ≡ self.now }
    {
        self.note_of_length(self.note_length(), room)
    }

    /// Returns the note of a reply, like `note_in`, for a caller that already has the result of `note_length`.
    #[inline(always)]
    pub fn note_of_length(&self, length: usize, room: Vec<u8>) -> ReplyNote
        requires length { length ≡ note_length self.now }
        requires empty { room.items ≡ [] }
        requires room { length ≤ vec_capacity room }
        ensures { result ≡ self.now }
    {
        match self {
            Reply::Buf(buf) => Reply::Buf(Note::with_kept(buf, length, room)),
            Reply::Twice(buf) => Reply::Twice(Note::with_kept(buf, length, room)),
            Reply::Frame { queue, bytes } => Reply::Frame {
                queue: *queue,
                bytes: Octets::copied(bytes.bytes(), room),
            },
            _ => self.plain_note(),
        }
    }

    /// Returns the note of a reply that contains neither a block nor a frame.
    #[inline(always)]
    fn plain_note(&self) -> ReplyNote
        requires { is_plain self.now ≡ true }
        ensures { result ≡ self.now }
    {
        match *self {
            Reply::Word(read) => Reply::Word(read),
            Reply::Stray(word) => Reply::Stray(word),
            Reply::Done => Reply::Done,
            Reply::Bytes(bytes) => Reply::Bytes(bytes),
            Reply::NotLent => Reply::NotLent,
            Reply::Misaligned => Reply::Misaligned,
            Reply::NoQueue => Reply::NoQueue,
            Reply::NoGroup => Reply::NoGroup,
            Reply::Idle => Reply::Idle,
            Reply::Dropped(why) => Reply::Dropped(why),
            Reply::Wrote {
                queue,
                slot,
                end,
                desc,
                at,
                len,
            } => Reply::Wrote {
                queue,
                slot,
                end,
                desc,
                at,
                len,
            },
            Reply::Advanced { queue, slot, back } => Reply::Advanced { queue, slot, back },
            Reply::Sent { queue, len, back } => Reply::Sent { queue, len, back },
            Reply::Fault { queue, fault } => Reply::Fault { queue, fault },
            Reply::Message { group, vector } => Reply::Message { group, vector },
            Reply::Buf(_) | Reply::Twice(_) | Reply::Frame { .. } => unreachable!(),
        }
    }

    /// Turns a reply without a block into its note. If the reply contains a block, returns the block as the error. The
    /// call copies nothing, but no clause states this.
    pub fn into_note(self) -> Result<ReplyNote, Buf>
        ensures note { IfOk result (λ note. note ≡ self) }
        ensures block { result_err result ≡ handed_block self }
    {
        Ok(match self {
            Reply::Word(word) => Reply::Word(word),
            Reply::Stray(word) => Reply::Stray(word),
            Reply::Done => Reply::Done,
            Reply::Bytes(bytes) => Reply::Bytes(bytes),
            Reply::Buf(buf) | Reply::Twice(buf) => return Err(buf),
            Reply::NotLent => Reply::NotLent,
            Reply::Misaligned => Reply::Misaligned,
            Reply::NoQueue => Reply::NoQueue,
            Reply::NoGroup => Reply::NoGroup,
            Reply::Idle => Reply::Idle,
            Reply::Dropped(why) => Reply::Dropped(why),
            Reply::Wrote {
                queue,
                slot,
                end,
                desc,
                at,
                len,
            } => Reply::Wrote {
                queue,
                slot,
                end,
                desc,
                at,
                len,
            },
            Reply::Advanced { queue, slot, back } => Reply::Advanced { queue, slot, back },
            Reply::Sent { queue, len, back } => Reply::Sent { queue, len, back },
            Reply::Fault { queue, fault } => Reply::Fault { queue, fault },
            Reply::Message { group, vector } => Reply::Message { group, vector },
            Reply::Frame { queue, bytes } => Reply::Frame { queue, bytes },
        })
    }

    /// Drops a reply. If it is a `Buf` or a `Twice`, returns the block that it contains.
    pub fn into_buf(self) -> Option<Buf>
        ensures { result ≡ handed_block self }
    {
        self.into_note().err()
    }
}

impl Reply<Note> {
    /// Whether this note and `other` are notes of equal replies.
    pub fn same(&self, other: &ReplyNote) -> bool
        ensures { IsTrue result ↔ (self.now ≡ other.now) }
    {
        *self == *other
    }
}
