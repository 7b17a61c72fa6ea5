//! The report on an event, as a C struct.

ghost use Rattle.std.specs.Prelude.{◌≡◌};
ghost use Rattle.nic82599_c.specs.Outcome.{status_of, nothing, number_of_why, number_of_fault, bus_of_fault};
ghost use Rattle.nic82599_c.specs.Outcome.{number_of_group, group_of, with_back, bit_of, fields_of, outcome_of};

use crate::status;
use dma_ring::RingFault;
use nic_device::{Group, Reply, ReplyNote, Why};

/// The report on an event. Fields that don't apply to the event are 0.
#[repr(C)]
#[derive(Clone, Copy, Debug, PartialEq, Eq)]
pub struct Outcome {
    /// The bus address of the descriptor that was written back.
    pub desc: u64,
    /// The bus address of the first byte that was written, or of the write-back.
    pub at: u64,
    /// The number of bytes written, or the frame's length in bytes.
    pub len: u64,
    /// For a fault, the bus address that isn't lent.
    pub bus: u64,
    /// The number of the queue, 0 to 127.
    pub queue: u16,
    /// The index of the descriptor in the queue's ring.
    pub slot: u16,
    /// The interrupt group of the message: 0 for the physical function, v + 1 for virtual function v.
    pub group: u16,
    /// In a report from `nic_settle`, the number of the queue or interrupt group that the step served.
    pub of: u16,
    /// The status that the call for this single event would return.
    pub status: u8,
    /// In a report from `nic_settle`, the kind of step: 0 receive enable, 1 transmit enable, 2 EEPROM, 3 transmit, 4
    /// receive, 5 interrupt.
    pub step: u8,
    /// 1 if the frame ends with the bytes that this step wrote.
    pub end: u8,
    /// 1 if a transmit step did a write-back; `at` is its address.
    pub back: u8,
    /// Why a frame was dropped or a descriptor couldn't be processed, numbered from 1.
    pub why: u8,
    /// The MSI-X vector of the message.
    pub vector: u8,
}

/// A report with all fields 0.
const NOTHING: Outcome = Outcome {
    desc: 0,
    at: 0,
    len: 0,
    bus: 0,
    queue: 0,
    slot: 0,
    group: 0,
    of: 0,
    status: 0,
    step: 0,
    end: 0,
    back: 0,
    why: 0,
    vector: 0,
};

/// Returns the number for the reason why a frame was dropped.
fn number_of_why(why: Why) -> u8
    ensures { result ≡ number_of_why why }
{
    match why {
        Why::LinkDown => 1,
        Why::Off => 2,
        Why::Short => 3,
        Why::Long => 4,
        Why::Filter => 5,
        Why::NoPool => 6,
        Why::PoolOff => 7,
        Why::Full => 8,
        Why::QueueOff => 9,
        Why::NoSlot => 10,
    }
}

/// Returns the number for the reason why a descriptor couldn't be processed.
fn number_of_fault(fault: RingFault) -> u8
    ensures { result ≡ number_of_fault fault }
{
    match fault {
        RingFault::Outside => 1,
        RingFault::NotLent(_) => 2,
        RingFault::DescType => 3,
        RingFault::NoBufferSize => 4,
        RingFault::Offload => 5,
        RingFault::Legacy => 6,
        RingFault::TooLong => 7,
        RingFault::UnknownType => 8,
    }
}

/// Returns the bus address that a fault reports, or 0 if the fault reports none.
fn bus_of_fault(fault: RingFault) -> u64
    ensures { result ≡ bus_of_fault fault }
{
    match fault {
        RingFault::NotLent(bus) => bus,
        RingFault::Outside | RingFault::DescType | RingFault::NoBufferSize => 0,
        RingFault::Offload | RingFault::Legacy | RingFault::TooLong | RingFault::UnknownType => 0,
    }
}

/// Returns the number of an interrupt group: 0 for the physical function, v + 1 for virtual function v.
fn number_of_group(group: Group) -> u16
    ensures { result ≡ number_of_group group }
{
    match group {
        Group::Pf => 0,
        Group::Vf(v) => u16::from(v) + 1,
    }
}

/// Returns the interrupt group with this number.
pub(crate) fn group_of(number: u8) -> Group
    ensures { result ≡ group_of number }
{
    if number == 0 {
        Group::Pf
    } else {
        Group::Vf(number - 1)
    }
}

/// Returns the report, with a write-back's address added if there was a write-back.
fn with_back(outcome: Outcome, back: Option<u64>) -> Outcome
    ensures { result ≡ with_back outcome back }
{
    match back {
        Some(at) => Outcome {
            at,
            back: 1,
            ..outcome
        },
        None => outcome,
    }
}

/// Returns the status for a reply.
pub(crate) fn status_of(reply: &ReplyNote) -> u8
    ensures { result ≡ status_of reply.now }
{
    match reply {
        Reply::Word(_) | Reply::Done | Reply::Bytes(_) | Reply::Buf(_) => status::DONE,
        Reply::Stray(_) => status::STRAY,
        Reply::Twice(_) => status::TWICE,
        Reply::NotLent => status::NOT_LENT,
        Reply::Misaligned => status::MISALIGNED,
        Reply::NoQueue => status::NO_QUEUE,
        Reply::NoGroup => status::NO_GROUP,
        Reply::Idle => status::IDLE,
        Reply::Dropped(_) => status::DROPPED,
        Reply::Wrote { .. } => status::WROTE,
        Reply::Advanced { .. } => status::ADVANCED,
        Reply::Sent { .. } => status::SENT,
        Reply::Fault { .. } => status::FAULT,
        Reply::Message { .. } => status::MESSAGE,
        Reply::Frame { .. } => status::FRAME,
    }
}

/// Returns a report with a queue's number, the index of a descriptor in the queue's ring, and a length.
fn placed(queue: u16, slot: u16, len: usize) -> Outcome
    ensures { result ≡ record nothing { queue = queue; slot = slot; len = len } }
{
    Outcome {
        queue,
        slot,
        len: len as u64,
        ..NOTHING
    }
}

/// Returns the report for a reply, without the status.
fn fields_of(reply: &ReplyNote) -> Outcome
    ensures { result ≡ fields_of reply.now }
{
    match reply {
        Reply::Dropped(why) => Outcome {
            why: number_of_why(*why),
            ..NOTHING
        },
        Reply::Wrote {
            queue,
            slot,
            end,
            desc,
            at,
            len,
        } => Outcome {
            end: u8::from(*end),
            desc: *desc,
            at: *at,
            ..placed(*queue, *slot, *len)
        },
        Reply::Advanced { queue, slot, back } => with_back(placed(*queue, *slot, 0), *back),
        Reply::Sent { queue, len, back } => with_back(placed(*queue, 0, *len), *back),
        Reply::Fault { queue, fault } => Outcome {
            why: number_of_fault(*fault),
            bus: bus_of_fault(*fault),
            ..placed(*queue, 0, 0)
        },
        Reply::Message { group, vector } => Outcome {
            group: number_of_group(*group),
            vector: *vector,
            ..NOTHING
        },
        Reply::Frame { queue, bytes } => placed(*queue, 0, bytes.bytes().len()),
        Reply::Word(_) | Reply::Stray(_) | Reply::Done | Reply::Bytes(_) | Reply::Buf(_) => NOTHING,
        Reply::Twice(_) | Reply::NotLent | Reply::Misaligned => NOTHING,
        Reply::NoQueue | Reply::NoGroup | Reply::Idle => NOTHING,
    }
}

/// Returns the report for a reply, with the status.
pub(crate) fn outcome_of(reply: &ReplyNote) -> Outcome
    ensures { result ≡ outcome_of reply.now }
{
    Outcome {
        status: status_of(reply),
        ..fields_of(reply)
    }
}
