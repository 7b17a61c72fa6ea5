//! Prints the device's replies.
ghost use Rattle.std.specs.Prelude.{◌≡◌, Some};
ghost use Rattle.bench_commands.specs.Line.{line_text, part_text};
ghost use Rattle.bench_commands.specs.Reply.{end_text, fault_text, group_text, queue_text, reply_text, why_text};

use self::Part::{Bytes, Named, NotLent, Number, Numbered, Slot, Word};
use self::Parts::{One, Two, Zero};
use nic_device::{Group, Reply, ReplyNote, Why};
use program::RingFault;
use std::fmt;
use text_format::{AddressText, BytesText, WordText};

/// A part of a printed reply, after its name.
#[derive(Clone, Copy)]
enum Part<'a> {
    /// A keyword by itself.
    Named(&'static str),
    /// A decimal number by itself.
    Number(usize),
    /// A decimal number after the name of its unit.
    Numbered(&'static str, usize),
    /// A register's value in hex.
    Word(u32),
    /// The bytes of a frame or of memory in hex.
    Bytes(&'a [u8]),
    /// A descriptor's slot in a queue's ring.
    Slot {
        /// The queue, 0 to 127.
        queue: u16,
        /// The index of the descriptor in the ring.
        slot: u16,
    },
    /// A bus address that isn't in lent memory.
    NotLent(u64),
}

impl fmt::Display for Part<'_> {
    ghost output = { λ p. Some (part_text p) };

    fn fmt<W: fmt::Write>(&self, f: &mut fmt::Formatter<W>) -> fmt::Result {
        match *self {
            Named(name) => write!(f, "{name}"),
            Number(number) => write!(f, "{number}"),
            Numbered(name, number) => write!(f, "{name} {number}"),
            Word(word) => write!(f, "{}", WordText(word)),
            Bytes(bytes) => write!(f, "{}", BytesText(bytes)),
            Slot { queue, slot } => write!(f, "queue {queue} slot {slot}"),
            NotLent(address) => write!(f, "not lent {}", AddressText(address)),
        }
    }
}

/// The parts of a printed reply, after its name.
#[derive(Clone, Copy)]
enum Parts<'a> {
    /// A reply without parts.
    Zero,
    /// A reply with one part.
    One(Part<'a>),
    /// A reply with two parts.
    Two(Part<'a>, Part<'a>),
}

/// The printed line for a reply: the reply's name and its parts.
#[derive(Clone, Copy)]
struct Line<'a>(&'static str, Parts<'a>);

impl fmt::Display for Line<'_> {
    ghost output = { λ l. Some (line_text l) };

    fn fmt<W: fmt::Write>(&self, f: &mut fmt::Formatter<W>) -> fmt::Result {
        let Line(name, parts) = *self;
        match parts {
            Zero => write!(f, "{name}"),
            One(a) => write!(f, "{name} {a}"),
            Two(a, b) => write!(f, "{name} {a} {b}"),
        }
    }
}

/// Returns the printed reason why a frame was dropped.
fn why(why: Why) -> &'static str
    ensures { result.now ≡ why_text why }
{
    match why {
        Why::LinkDown => "link down",
        Why::Off => "off",
        Why::Short => "short",
        Why::Long => "long",
        Why::Filter => "filter",
        Why::NoPool => "no pool",
        Why::PoolOff => "pool off",
        Why::Full => "full",
        Why::QueueOff => "queue off",
        Why::NoSlot => "no slot",
    }
}

/// Returns the printed reason why a descriptor couldn't be processed.
fn fault(fault: RingFault) -> Part<'static>
    ensures { part_text result ≡ fault_text fault }
{
    match fault {
        RingFault::Outside => Named("outside"),
        RingFault::NotLent(address) => NotLent(address),
        RingFault::DescType => Named("type"),
        RingFault::NoBufferSize => Named("no buffer size"),
        RingFault::Offload => Named("offload"),
        RingFault::Legacy => Named("legacy"),
        RingFault::TooLong => Named("too long"),
        RingFault::UnknownType => Named("unknown type"),
    }
}

/// Returns a queue's number as a printed part.
fn queue(queue: u16) -> Part<'static>
    ensures { part_text result ≡ queue_text queue }
{
    Numbered("queue", usize::from(queue))
}

/// Returns the keyword that says whether a frame ended.
fn end(end: bool) -> &'static str
    ensures { result.now ≡ end_text end }
{
    if end { "end" } else { "more" }
}

/// Returns an interrupt group as a printed part.
fn group(group: Group) -> Part<'static>
    ensures { part_text result ≡ group_text group }
{
    match group {
        Group::Pf => Named("pf"),
        Group::Vf(number) => Numbered("vf", usize::from(number)),
    }
}

/// Returns the parts of a reply's line, ready to print.
fn line_of(reply: &ReplyNote) -> Line<'_>
    ensures { line_text result ≡ reply_text reply.now }
{
    match reply {
        Reply::Word(word) => Line("word", One(Word(*word))),
        Reply::Stray(word) => Line("stray", One(Word(*word))),
        Reply::Done => Line("done", Zero),
        Reply::Bytes(bytes) => Line("bytes", One(Bytes(bytes))),
        Reply::Buf(block) => Line("taken", One(Number(block.number() as usize))),
        Reply::Twice(_) => Line("twice", Zero),
        Reply::NotLent => Line("not lent", Zero),
        Reply::Misaligned => Line("misaligned", Zero),
        Reply::NoQueue => Line("no queue", Zero),
        Reply::NoGroup => Line("no group", Zero),
        Reply::Idle => Line("idle", Zero),
        Reply::Dropped(of) => Line("dropped", One(Named(why(*of)))),
        Reply::Wrote {
            queue,
            slot,
            end: has_ended,
            ..
        } => {
            let slot = Slot {
                queue: *queue,
                slot: *slot,
            };
            Line("wrote", Two(slot, Named(end(*has_ended))))
        }
        Reply::Advanced {
            queue: of,
            slot,
            ..
        } => {
            let slot = Slot {
                queue: *of,
                slot: *slot,
            };
            Line("advanced", One(slot))
        }
        Reply::Sent { queue: of, len, .. } => Line("sent", Two(queue(*of), Numbered("len", *len))),
        Reply::Fault {
            queue: of,
            fault: met,
        } => Line("fault", Two(queue(*of), fault(*met))),
        Reply::Message { group: of, vector } => {
            let vector = Numbered("vector", usize::from(*vector));
            Line("message", Two(group(*of), vector))
        }
        Reply::Frame { queue: of, bytes } => {
            Line("frame", Two(queue(*of), Bytes(bytes.bytes())))
        }
    }
}

/// A device's reply, printed by `Display`.
#[derive(Clone, Copy)]
pub(crate) struct ReplyText<'a>(pub(crate) &'a ReplyNote);

impl fmt::Display for ReplyText<'_> {
    ghost output = { λ r. Some (reply_text r.0.now) };

    fn fmt<W: fmt::Write>(&self, f: &mut fmt::Formatter<W>) -> fmt::Result {
        write!(f, "{}", line_of(self.0))
    }
}
