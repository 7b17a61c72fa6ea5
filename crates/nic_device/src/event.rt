ghost use Rattle.std.specs.Prelude.{◌≡◌, ◌↔◌, ◌-◌, ◌++◌, IsTrue, length, replicate, take};
ghost use Rattle.nic_device.specs.Step.{lent_block};
ghost use Rattle.nic_device.specs.NotesTrimming.{kept_len};

use crate::notes_holding::Holding;
use register_file::Group;
use rx_ring::{Buf, Dir, Octets, RingFault};
use std::marker::Model;

/// The PCI function through which a driver accesses a register.
#[derive(Clone, Copy, PartialEq, Eq, Debug)]
pub enum Port {
    /// The physical function. A register's number is its byte offset in the register table.
    Pf,
    /// A virtual function, numbered from 0. A register's number is its byte offset in the function's own register
    /// space.
    Vf(u8),
}

impl Port {
    ghost use Rattle.nic_device.specs.Sound.{IsPort};

    /// States that this port is one that a driver can use. The call does nothing.
    fn is_of_a_driver(&self)
        ensures { IsPort self.now }
    {
        match self {
            Port::Pf => {}
            Port::Vf(v) => {
                let _function = *v;
            }
        }
    }
}

/// Something that happens at the device: an access by the driver, or a step of the device itself. Registers are 32-bit
/// words at byte offsets into the register space. A bus address refers to one byte of packet memory. While CTRL bit 2
/// disables bus mastering, the device's own steps reply `Idle`, or `NoQueue` or `NoGroup` for a queue or group that
/// doesn't exist.
///
/// `B` is the type of a packet buffer: the buffer itself, which can't be dropped, or, in a note, a copy of its
/// contents.
#[derive(PartialEq, Debug, Drop)]
pub enum Event<B = Buf> {
    /// Reads a register, by its number at the port. The reply is `Word`, or `Stray` if there is no register.
    Read(Port, u32),
    /// Writes a register: the port, the register's number there, and the 32-bit value. The reply is `Done`, or `Stray`
    /// if there is no register.
    Write(Port, u32, u32),
    /// Lends a block of packet memory to the device, under the block's number. The reply is `Done`, or `Twice` with the
    /// block if a block with this number is already lent.
    Lend(B),
    /// Takes back the lent block with this number. The reply is `Buf`, or `NotLent` if no such block is lent.
    Take(u32),
    /// A driver reads 16 bytes of lent memory at a bus address. The reply is `Bytes`, `Misaligned` if the address isn't
    /// a multiple of 16, or `NotLent`.
    Peek16(u32),
    /// A driver writes 16 bytes of lent memory at a bus address. The reply is `Done`, `Misaligned` if the address isn't
    /// a multiple of 16, or `NotLent`.
    Poke16(u32, [u8; 16]),
    /// A frame, without its frame check sequence, arrives from the link. The reply is `Done` if the frame joins the
    /// receive list, otherwise `Dropped`.
    Arrive(Octets),
    /// A receive step: the device writes one piece of the oldest frame in the receive list, using one descriptor of the
    /// frame's queue. The reply is `Wrote`, `Dropped` or `Fault`. The reply is `Idle` if the list is empty, or if the
    /// queue has no free descriptor and doesn't drop the frame for this reason.
    RxStep,
    /// A transmit step of a queue, 0 to 127: the device fetches one descriptor. The reply is `Advanced`, `Sent`,
    /// `Fault`, `Idle` if the queue can't send, or `NoQueue`.
    TxStep(u16),
    /// An interrupt step: the device sends the next due MSI-X message of an interrupt group. The reply is `Message`,
    /// `Idle` if none is due, or `NoGroup`.
    IntStep(Group),
    /// An enable step: the device enables or disables one side of a queue, 0 to 127, as the side's enable bit in RXDCTL
    /// or TXDCTL requests. The reply is `Done`, `Idle` if the side is already in that state, or `NoQueue`.
    QueueStep(Dir, u16),
    /// An EEPROM step: the device puts the word that EERD requests into EERD. The reply is `Done`, or `Idle` if no word
    /// is requested.
    EepromStep,
    /// The link goes up (`true`) or down (`false`). The reply is `Done`, or `Idle` if the link is already in that
    /// state.
    Link(bool),
    /// Collects the oldest transmitted frame. The reply is `Frame`, or `Idle` if there is none.
    Collect,
}

impl Event {
    ghost use Rattle.nic_device.specs.Sound.{AreBytes, IsEvent};

    /// States that this event is one that a driver can cause: its numbers, words and bytes are in the ranges of their
    /// types, and a block that it lends is whole. The call does nothing.
    pub fn is_of_a_driver(&self)
        ensures { IsEvent self.now }
    {
        match self {
            Event::Read(port, number) => {
                port.is_of_a_driver();
                let _number = *number;
            }
            Event::Write(port, number, word) => {
                port.is_of_a_driver();
                let (_number, _word) = (*number, *word);
            }
            Event::Lend(buf) => {
                let _number = buf.block();
                Self::are_bytes(buf.bytes());
            }
            Event::Take(number) | Event::Peek16(number) => {
                let _number = *number;
            }
            Event::Poke16(address, bytes) => {
                let _address = *address;
                let all: &[u8] = bytes;
                prove!(all.len() == 16);
                Self::are_bytes(all);
            }
            Event::Arrive(frame) => Self::are_bytes(frame.bytes()),
            Event::TxStep(queue) | Event::QueueStep(_, queue) => {
                let _queue = *queue;
            }
            Event::IntStep(Group::Vf(function)) => {
                let _function = *function;
            }
            Event::RxStep
            | Event::IntStep(Group::Pf)
            | Event::EepromStep
            | Event::Link(_)
            | Event::Collect => {}
        }
    }

    /// Drops an event. If it is a `Lend`, returns the block that it would have lent.
    pub fn into_buf(self) -> Option<Buf>
        ensures { result ≡ lent_block self }
    {
        match self {
            Event::Lend(buf) => Some(buf),
            Event::Read(_, _) | Event::Write(_, _, _) | Event::Take(_) => None,
            Event::Peek16(_) | Event::Poke16(_, _) => None,
            Event::Arrive(_frame) => None,
            Event::RxStep | Event::TxStep(_) | Event::IntStep(_) | Event::QueueStep(_, _) => None,
            Event::EepromStep | Event::Link(_) | Event::Collect => None,
        }
    }

    /// States that each byte is below 256. The call does nothing.
    pub(crate) fn are_bytes(bytes: &[u8])
        ensures { AreBytes bytes.now }
    {
        let _all = bytes;
    }
}

/// Why a received frame is dropped.
///
/// Intel 82599 datasheet, sections on packet filtering and on receive queue assignment.
#[derive(Clone, Copy, PartialEq, Eq, Debug)]
pub enum Why {
    /// The link is down.
    LinkDown,
    /// Reception is disabled: RXCTRL bit 0, receive enable, is 0.
    Off,
    /// The frame is shorter than 60 bytes without its frame check sequence. RUC counts it.
    Short,
    /// The frame is longer than the limit that MAXFRS and HLREG0 set. ROC counts it.
    Long,
    /// No filter accepts the frame's destination address.
    Filter,
    /// No pool is selected for the frame, or the selected pool has no queues.
    NoPool,
    /// Reception is disabled for the frame's pool: the pool's VFRE bit is 0.
    PoolOff,
    /// The receive list is full. MPC counts the frame.
    Full,
    /// The frame's receive queue is disabled.
    QueueOff,
    /// The frame's receive queue has no free descriptor, and drop enable is set in SRRCTL. QPRDC counts the frame.
    NoSlot,
}

/// The device's reply to an event.
#[derive(PartialEq, Debug, Drop)]
pub enum Reply<B = Buf> {
    /// The 32-bit value that a read returned.
    Word(u32),
    /// No register is at the accessed address. A read returns this value.
    Stray(u32),
    /// The event is complete and has nothing more to report.
    Done,
    /// The 16 bytes that `Peek16` read.
    Bytes([u8; 16]),
    /// The block that was taken back, with its current bytes.
    Buf(B),
    /// A block with this number is already lent. The block that was to be lent is returned unchanged.
    Twice(B),
    /// The access needs a block that isn't lent. Nothing changed.
    NotLent,
    /// The bus address isn't a multiple of 16. Nothing changed.
    Misaligned,
    /// No queue has this number: it isn't below 128. Nothing changed.
    NoQueue,
    /// The device or its mode has no interrupt group for this virtual function. Nothing changed.
    NoGroup,
    /// There was nothing to do, and nothing changed.
    Idle,
    /// A frame was dropped for this reason.
    Dropped(Why),
    /// A receive step wrote one piece of a frame and wrote back its descriptor.
    Wrote {
        /// The receive queue, 0 to 127.
        queue: u16,
        /// The index of the descriptor in the queue's ring.
        slot: u16,
        /// Whether the frame ends with this piece.
        end: bool,
        /// The bus address of the 16-byte descriptor.
        desc: u64,
        /// The bus address of the first byte written for this piece.
        at: u64,
        /// The number of frame bytes written for this piece.
        len: usize,
    },
    /// A transmit step fetched one descriptor and moved the queue's head. No frame was sent.
    Advanced {
        /// The transmit queue, 0 to 127.
        queue: u16,
        /// The index of the fetched descriptor in the queue's ring.
        slot: u16,
        /// The bus address of the descriptor or head write-back. `None` if nothing was written back.
        back: Option<u64>,
    },
    /// A transmit step fetched the last descriptor of a frame and sent the frame.
    Sent {
        /// The transmit queue, 0 to 127.
        queue: u16,
        /// The frame's length in bytes, padding included.
        len: usize,
        /// The bus address of the descriptor or head write-back. `None` if nothing was written back.
        back: Option<u64>,
    },
    /// A descriptor couldn't be processed. Its side of the queue is disabled and must be enabled again.
    Fault {
        /// The queue, 0 to 127.
        queue: u16,
        /// The fault in the ring or the descriptor.
        fault: RingFault,
    },
    /// An MSI-X message was sent.
    Message {
        /// The interrupt group that sent the message.
        group: Group,
        /// The MSI-X vector within the group, below 16.
        vector: u8,
    },
    /// The oldest transmitted frame, which is now collected.
    Frame {
        /// The transmit queue that sent it, 0 to 127.
        queue: u16,
        /// The frame's bytes, including padding but not the frame check sequence.
        bytes: Octets,
    },
}

/// A droppable copy of a packet buffer's contents. In contracts, a note and its buffer are the same value, a number and
/// bytes, so an event equals its note. A note stores the bytes without the trailing zeros, and the number of those
/// zeros.
#[derive(Debug, Drop)]
pub struct Note {
    holding: Holding,
}

impl Model for Note {
    ghost use Rattle.std.specs.Prelude.{◌≡◌, ◌++◌, length, replicate};
    ghost use Rattle.rx_ring.specs.DmaArena.Block.{Block};
    ghost use Rattle.nic_device.specs.NotesTrimming.{kept_len};

    ghost Value = { Block };

    ghost view = { λ n. record {
      number = n.holding.number;
      bytes = n.holding.kept ++ replicate n.holding.zeros 0;
    } };

    ghost invariant = { λ n. kept_len n.holding.kept ≡ length n.holding.kept };
}

impl Note {
    /// Creates a note with these contents. The last stored byte must not be 0.
    pub(crate) fn new(holding: Holding) -> Note
        requires { kept_len holding.kept ≡ length holding.kept }
        ensures { result
            ≡ record { number = holding.number; bytes = holding.kept ++ replicate holding.zeros 0 } }
    {
        Note { holding }
    }

    /// Returns the number of the noted block.
    pub fn number(&self) -> u32
        ensures { result ≡ self.now.number }
    {
        u32::from(self.holding.number())
    }

    /// Returns the block's bytes without the trailing zeros.
    pub fn kept(&self) -> &[u8]
        ensures { result.now ≡ take (kept_len self.now.bytes) self.now.bytes }
    {
        self.holding.kept()
    }

    /// Returns the number of the block's trailing zero bytes.
    pub fn zeros(&self) -> u32
        ensures { result ≡ length self.now.bytes - kept_len self.now.bytes }
    {
        u32::from(self.holding.zeros())
    }

    /// Whether this note and `other` are notes of blocks with equal numbers and equal bytes.
    pub fn same(&self, other: &Note) -> bool
        ensures { IsTrue result ↔ (self.now ≡ other.now) }
    {
        self.holding.same(&other.holding)
    }
}

impl PartialEq for Note {
    ghost use Rattle.std.specs.Prelude.{◌==◌};
    ghost use Rattle.std.specs.Cmp.Rules.{comparing};
    ghost use Rattle.std.specs.Ordering.{on, eq_of_both};
    ghost use Rattle.std.proofs.Common.{rules};
    ghost use lib.Pointwise.{pointwise};

    // Two notes are equal if their blocks have equal numbers and equal bytes.
    ghost eq = { eq_of_both (on (λ b. b.number) ◌==◌) (on (λ b. b.bytes) (pointwise ◌==◌)) };

    ghost laws = { Prim.search (comparing, rules) };

    fn eq(&self, other: &Note) -> bool {
        self.same(other)
    }
}

/// A copy of an event that a program can keep and drop. It contains a note instead of a packet buffer.
pub type EventNote = Event<Note>;

/// A copy of a reply that a program can keep and drop. It contains a note instead of a packet buffer.
pub type ReplyNote = Reply<Note>;

/// An event that didn't run because memory ran out. It is returned unchanged.
#[derive(Debug, Drop)]
pub struct OutOfMemory<E>(pub E);
