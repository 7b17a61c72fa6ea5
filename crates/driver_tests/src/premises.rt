//! The premises of the laws about a driver's packets and blocks, tested with pairs of histories. One history just
//! satisfies a premise, and the other doesn't because a single entry differs slightly. The entries are written out
//! here, so each row shows the premise itself, regardless of what a device would have replied.

use crate::outcome::{Hand, done, empty, holds, push, some};
use device_lock::{Entry, Watched, left_alone};
use nic_device::{Arena, Buf, Event, EventNote, Octets, Port, Reply, ReplyNote};
use pmd::{Doubt, Driven, Given, begins_well, judge, never_asked_on, others_lend_none};

/// The driver's pass. `OTHER` is the pass of all other programs.
const DRIVER: u8 = 0;

const OTHER: u8 = 1;

/// The address of CTRL.
const CTRL: u32 = 0x00000;

const PVFCTRL_0: u32 = 0x00300;

const PVFCTRL_1: u32 = 0x00304;

const RDT_0: u32 = 0x01018;

const RXDCTL_0: u32 = 0x01028;

const RDT_1: u32 = 0x01058;

const RXDCTL_1: u32 = 0x01068;

const SRRCTL_0_AGAIN: u32 = 0x02100;

const SRRCTL_1_AGAIN: u32 = 0x02104;

const RXCTRL: u32 = 0x03000;

const HLREG0: u32 = 0x04240;

const MAXFRS: u32 = 0x04268;

const AUTOC: u32 = 0x042A0;

const FCTRL: u32 = 0x05080;

const TXDCTL_0: u32 = 0x06028;

const TDWBAH_0: u32 = 0x0603C;

const TXDCTL_1: u32 = 0x06068;

const TDWBAH_1: u32 = 0x0607C;

const GCR_EXT: u32 = 0x11050;

/// The event and the reply of an entry.
#[derive(Clone, Copy)]
enum Deed {
    Reads,
    Writes(Port, u32, u32),
    /// A write through the physical function.
    Sets(u32, u32),
    Lends(u32),
    LendsTwice(u32),
    Takes(u32),
    TakesNone(u32),
    Peeks(u32),
    Pokes(u32),
    Steps,
    /// A receive step of this queue wrote a descriptor at the first address, and this many bytes starting at the second
    /// address.
    Wrote(u16, u64, u64, usize),
    /// A transmit step of this queue sent a frame. If an address is given, the step reported the frame there.
    Sent(u16, Option<u64>),
    Advanced(u16, Option<u64>),
    /// A frame with this length in bytes arrives and is accepted.
    Arrives(u16),
}

/// The driver's device and queue.
const WATCHED: Watched = Watched {
    vfs: 1,
    pass: DRIVER,
    queue: 0,
};

/// The arguments of the driver's start: queue 0 of the physical function, or of virtual function 0, and frames of up to
/// 1,518 bytes including their check sequence.
const PHYSICAL: Given = Given {
    port: Port::Pf,
    queue: 0,
    frame: 1518,
};

const FUNCTION: Given = Given {
    port: Port::Vf(0),
    queue: 0,
    frame: 1518,
};

/// An arena with one block, and that block, filled with zeros and taken out.
fn taken(rt: &impl Hand, number: u32) -> (Arena, Buf) {
    let mut arena = done(rt, Arena::new(rt.alloc(), number, 1));
    let buf = some(rt, arena.take());
    (arena, buf)
}

/// Gives a block back to its arena, and closes the arena.
fn close(rt: &impl Hand, arena: Arena, buf: Buf) {
    let mut arena = arena;
    done(rt, arena.give(buf));
    done(rt, arena.close());
}

/// The event that lends this block, as a note.
fn lent(rt: &impl Hand, number: u32) -> EventNote {
    let (arena, buf) = taken(rt, number);
    let event = Event::Lend(buf);
    let note = done(rt, event.note(rt.alloc()));
    close(rt, arena, some(rt, event.into_buf()));
    note
}

/// The reply that returns this block, as a note.
fn given_back(rt: &impl Hand, number: u32) -> ReplyNote {
    let (arena, buf) = taken(rt, number);
    let reply = Reply::Buf(buf);
    let note = done(rt, reply.note(rt.alloc()));
    close(rt, arena, some(rt, reply.into_buf()));
    note
}

/// The reply that this block is already lent, as a note.
fn refused_twice(rt: &impl Hand, number: u32) -> ReplyNote {
    let (arena, buf) = taken(rt, number);
    let reply = Reply::Twice(buf);
    let note = done(rt, reply.note(rt.alloc()));
    close(rt, arena, some(rt, reply.into_buf()));
    note
}

/// A frame of `len` bytes.
fn frame(rt: &impl Hand, len: u16) -> Octets {
    let mut bytes = empty(rt);
    for _byte in 0..len {
        push(rt, &mut bytes, 0xFF);
    }
    Octets::of(bytes)
}

/// The event of an entry.
fn event(rt: &impl Hand, deed: Deed) -> EventNote {
    match deed {
        Deed::Reads => Event::Read(Port::Pf, RXCTRL),
        Deed::Writes(port, number, word) => Event::Write(port, number, word),
        Deed::Sets(number, word) => Event::Write(Port::Pf, number, word),
        Deed::Lends(number) | Deed::LendsTwice(number) => lent(rt, number),
        Deed::Takes(number) | Deed::TakesNone(number) => Event::Take(number),
        Deed::Peeks(address) => Event::Peek16(address),
        Deed::Pokes(address) => Event::Poke16(address, [0; 16]),
        Deed::Steps | Deed::Wrote(..) => Event::RxStep,
        Deed::Sent(queue, _) | Deed::Advanced(queue, _) => Event::TxStep(queue),
        Deed::Arrives(len) => Event::Arrive(frame(rt, len)),
    }
}

/// The reply of an entry.
fn reply(rt: &impl Hand, deed: Deed) -> ReplyNote {
    match deed {
        Deed::Reads => Reply::Word(0),
        Deed::Writes(..) | Deed::Sets(..) | Deed::Lends(_) | Deed::Pokes(_) | Deed::Arrives(_) =>
            Reply::Done,
        Deed::LendsTwice(number) => refused_twice(rt, number),
        Deed::Takes(number) => given_back(rt, number),
        Deed::TakesNone(_) => Reply::NotLent,
        Deed::Peeks(_) => Reply::Bytes([0; 16]),
        Deed::Steps => Reply::Idle,
        Deed::Wrote(queue, desc, at, len) => Reply::Wrote {
            queue,
            slot: 0,
            end: true,
            desc,
            at,
            len,
        },
        Deed::Sent(queue, back) => Reply::Sent {
            queue,
            len: 60,
            back,
        },
        Deed::Advanced(queue, back) => Reply::Advanced {
            queue,
            slot: 0,
            back,
        },
    }
}

/// Appends an entry.
fn add(rt: &impl Hand, history: &mut Vec<Entry>, (pass, deed): (u8, Deed)) {
    let entry = Entry {
        pass,
        event: event(rt, deed),
        reply: reply(rt, deed),
    };
    push(rt, history, entry);
}

/// Returns a history with these entries.
fn written(rt: &impl Hand, made: &[(u8, Deed)]) -> Vec<Entry> {
    let mut history = empty(rt);
    for entry in made {
        add(rt, &mut history, *entry);
    }
    history
}

/// The calls of the driver of queue 0: it reads a register, lends block 5 (addresses 0x2800 to 0x2FFF), and takes it
/// back.
const OWN: [(u8, Deed); 3] = [
    (DRIVER, Deed::Reads),
    (DRIVER, Deed::Lends(5)),
    (DRIVER, Deed::Takes(5)),
];

/// The initial value of GCR_EXT, an additional entry, the number of driver entries before it, and whether the queue is
/// left alone.
type Beside<'a> = (&'a str, u32, (u8, Deed), usize, bool);

#[rattlefmt::skip]
const BESIDE: [Beside<'static>; 68] = [
    // Only entries after the driver's first one count.
    ("CTRL before all", 0, (OTHER, Deed::Sets(CTRL, 0)), 0, true),
    ("CTRL", 0, (OTHER, Deed::Sets(CTRL, 0)), 1, false),
    ("CTRL by the driver", 0, (DRIVER, Deed::Sets(CTRL, 0)), 1, true),
    ("CTRL after all", 0, (OTHER, Deed::Sets(CTRL, 0)), 3, false),
    // Settings.
    ("FCTRL", 0, (OTHER, Deed::Sets(FCTRL, 0)), 1, true),
    ("HLREG0", 0, (OTHER, Deed::Sets(HLREG0, 0x403)), 1, false),
    ("AUTOC", 0, (OTHER, Deed::Sets(AUTOC, 0)), 1, true),
    ("MAXFRS", 0, (OTHER, Deed::Sets(MAXFRS, 0)), 1, false),
    ("no register before MAXFRS", 0, (OTHER, Deed::Sets(MAXFRS - 4, 0)), 1, true),
    ("GCR_EXT", 0, (OTHER, Deed::Sets(GCR_EXT, 0)), 1, false),
    ("no register after GCR_EXT", 0, (OTHER, Deed::Sets(GCR_EXT + 4, 0)), 1, true),
    // The queue's registers, at each of their addresses.
    ("RDT of queue 1", 0, (OTHER, Deed::Sets(RDT_1, 0)), 1, true),
    ("RDT of queue 0", 0, (OTHER, Deed::Sets(RDT_0, 0)), 1, false),
    ("SRRCTL of queue 1 again", 0, (OTHER, Deed::Sets(SRRCTL_1_AGAIN, 0)), 1, true),
    ("SRRCTL of queue 0 again", 0, (OTHER, Deed::Sets(SRRCTL_0_AGAIN, 0)), 1, false),
    ("TDWBAH of queue 1", 0, (OTHER, Deed::Sets(TDWBAH_1, 0)), 1, true),
    ("TDWBAH of queue 0", 0, (OTHER, Deed::Sets(TDWBAH_0, 0)), 1, false),
    ("the function's second queue", 3, (OTHER, Deed::Writes(Port::Vf(0), RDT_1, 0)), 1, true),
    ("the function's first queue", 3, (OTHER, Deed::Writes(Port::Vf(0), RDT_0, 0)), 1, false),
    ("the first queue of no function", 0, (OTHER, Deed::Writes(Port::Vf(0), RDT_0, 0)), 1, true),
    ("the first queue of function 1, which isn't there", 3, (OTHER, Deed::Writes(Port::Vf(1), RDT_0, 0)), 1, true),
    // Resets of the pool.
    ("PVFCTRL of pool 0 with bit 25", 3, (OTHER, Deed::Sets(PVFCTRL_0, 0x0200_0000)), 1, true),
    ("PVFCTRL of pool 0 with bit 26", 3, (OTHER, Deed::Sets(PVFCTRL_0, 0x0400_0000)), 1, false),
    ("PVFCTRL of pool 1 with bit 26", 3, (OTHER, Deed::Sets(PVFCTRL_1, 0x0400_0000)), 1, true),
    ("PVFCTRL of pool 0 of 16 with bit 26", 1, (OTHER, Deed::Sets(PVFCTRL_0, 0x0400_0000)), 1, false),
    ("PVFCTRL of pool 1 of 16 with bit 26", 1, (OTHER, Deed::Sets(PVFCTRL_1, 0x0400_0000)), 1, true),
    ("PVFCTRL of no pool with bit 26", 0, (OTHER, Deed::Sets(PVFCTRL_0, 0x0400_0000)), 1, true),
    ("the function's control with bit 25", 2, (OTHER, Deed::Writes(Port::Vf(0), 0, 0x0200_0000)), 1, true),
    ("the function's control with bit 26", 2, (OTHER, Deed::Writes(Port::Vf(0), 0, 0x0400_0000)), 1, false),
    // Blocks that the driver's pass lends anywhere in the history, whatever the reply.
    ("block 6 lent", 0, (OTHER, Deed::Lends(6)), 2, true),
    ("block 5 lent twice", 0, (OTHER, Deed::LendsTwice(5)), 2, false),
    ("block 5 lent by another before all", 0, (OTHER, Deed::Lends(5)), 0, true),
    ("block 5 lent by another first", 0, (OTHER, Deed::Lends(5)), 1, false),
    ("block 4 taken", 0, (OTHER, Deed::Takes(4)), 2, true),
    ("block 5 taken", 0, (OTHER, Deed::Takes(5)), 2, false),
    ("block 6 taken", 0, (OTHER, Deed::Takes(6)), 2, true),
    ("block 5 asked for before all", 0, (OTHER, Deed::TakesNone(5)), 0, true),
    ("block 5 asked for before it is lent", 0, (OTHER, Deed::TakesNone(5)), 1, false),
    ("block 5 asked for after it was taken", 0, (OTHER, Deed::TakesNone(5)), 3, false),
    ("the last 16 bytes before block 5 poked", 0, (OTHER, Deed::Pokes(0x27F0)), 2, true),
    ("the first 16 bytes of block 5 poked", 0, (OTHER, Deed::Pokes(0x2800)), 2, false),
    ("the last 16 bytes of block 5 poked", 0, (OTHER, Deed::Pokes(0x2FF0)), 2, false),
    ("the first 16 bytes after block 5 poked", 0, (OTHER, Deed::Pokes(0x3000)), 2, true),
    ("block 5 looked at", 0, (OTHER, Deed::Peeks(0x2800)), 2, true),
    // Steps of other queues, run by any pass.
    ("64 bytes up to block 5", 0, (OTHER, Deed::Wrote(1, 0x8000, 0x27C0, 64)), 2, true),
    ("65 bytes into block 5", 0, (OTHER, Deed::Wrote(1, 0x8000, 0x27C0, 65)), 2, false),
    ("4,096 bytes over blocks 4 to 6", 0, (OTHER, Deed::Wrote(1, 0x8000, 0x27FF, 4096)), 2, false),
    ("one byte at the end of block 5", 0, (OTHER, Deed::Wrote(1, 0x8000, 0x2FFF, 1)), 2, false),
    ("one byte after block 5", 0, (OTHER, Deed::Wrote(1, 0x8000, 0x3000, 1)), 2, true),
    ("no bytes at block 5", 0, (OTHER, Deed::Wrote(1, 0x8000, 0x2800, 0)), 2, true),
    ("a descriptor up to block 5", 0, (OTHER, Deed::Wrote(1, 0x27F0, 0x8000, 64)), 2, true),
    ("a descriptor into block 5", 0, (OTHER, Deed::Wrote(1, 0x27F1, 0x8000, 64)), 2, false),
    ("a descriptor at the end of block 5", 0, (OTHER, Deed::Wrote(1, 0x2FF0, 0x8000, 64)), 2, false),
    ("a descriptor after block 5", 0, (OTHER, Deed::Wrote(1, 0x3000, 0x8000, 64)), 2, true),
    ("the own queue's descriptor and bytes", 0, (OTHER, Deed::Wrote(0, 0x2800, 0x2810, 64)), 2, true),
    ("65 bytes into block 5, by the driver's step", 0, (DRIVER, Deed::Wrote(1, 0x8000, 0x27C0, 65)), 2, false),
    ("the own queue's, by the driver's step", 0, (DRIVER, Deed::Wrote(0, 0x2800, 0x2810, 64)), 2, true),
    ("a frame sent, reported in block 4", 0, (OTHER, Deed::Sent(1, Some(0x27FC))), 2, true),
    ("a frame sent, reported in block 5", 0, (OTHER, Deed::Sent(1, Some(0x2800))), 2, false),
    ("a frame sent, reported at the end of block 5", 0, (OTHER, Deed::Sent(1, Some(0x2FFC))), 2, false),
    ("a frame sent, not reported", 0, (OTHER, Deed::Sent(1, None)), 2, true),
    ("a frame of the own queue, reported", 0, (OTHER, Deed::Sent(0, Some(0x2800))), 2, true),
    ("a descriptor done, reported after block 5", 0, (OTHER, Deed::Advanced(1, Some(0x3000))), 2, true),
    ("a descriptor done, reported in block 5", 0, (OTHER, Deed::Advanced(1, Some(0x2800))), 2, false),
    ("a descriptor done, not reported", 0, (OTHER, Deed::Advanced(1, None)), 2, true),
    ("a descriptor of the own queue, reported", 0, (OTHER, Deed::Advanced(0, Some(0x2800))), 2, true),
    ("an idle step", 0, (OTHER, Deed::Steps), 2, true),
    ("a frame that arrives", 0, (OTHER, Deed::Arrives(60)), 2, true),
];

/// The driver's entries, with one more entry inserted after the first `after` of them, and a write of GCR_EXT before
/// all entries.
fn beside(rt: &impl Hand, mode: u32, more: (u8, Deed), after: usize) -> Vec<Entry> {
    let mut history = written(rt, &[(OTHER, Deed::Sets(GCR_EXT, mode))]);
    for (place, own) in OWN.into_iter().enumerate() {
        if place == after {
            add(rt, &mut history, more);
        }
        add(rt, &mut history, own);
    }
    if after == OWN.len() {
        add(rt, &mut history, more);
    }
    history
}

/// Checks that each row's history is judged as the row says.
fn check_beside(rt: &impl Hand, rows: &[Beside<'_>]) {
    for (name, mode, more, after, wanted) in rows {
        let history = beside(rt, *mode, *more, *after);
        let is_alone = left_alone(WATCHED, history.as_slice());
        holds(rt, name, "left alone", is_alone == *wanted);
    }
}

#[test]
fn entries_leave_a_queue_alone_or_not(rt: HostRuntime) {
    check_beside(&rt, &BESIDE);
}

/// Three entries before the driver's first read, and one after it.
type Made = [(u8, Deed); 4];

/// A read by another pass.
const NOTHING: (u8, Deed) = (OTHER, Deed::Reads);

/// A history of the first three entries, a read by the driver, and the last entry.
fn around(rt: &impl Hand, made: Made) -> Vec<Entry> {
    let [first, second, third, last] = made;
    written(rt, &[first, second, third, (DRIVER, Deed::Reads), last])
}

/// A case: its name, its entries, and the number of entries of the driver's pass before the driver's own first entry.
/// The last two fields are the arguments of the driver's start, and whether the driver begins well.
type Begins<'a> = (&'a str, Made, usize, Given, bool);

/// Enables jumbo frames.
const JUMBO: (u8, Deed) = (OTHER, Deed::Sets(HLREG0, 0x407));

#[rattlefmt::skip]
const BEGINS: [Begins<'static>; 23] = [
    ("as reset leaves it", [NOTHING, NOTHING, NOTHING, NOTHING], 0, PHYSICAL, true),
    ("for frames of 1,519 bytes", [NOTHING, NOTHING, NOTHING, NOTHING], 0, Given { frame: 1519, ..PHYSICAL }, false),
    ("jumbo frames of 1,518 bytes", [NOTHING, JUMBO, NOTHING, NOTHING], 0, PHYSICAL, true),
    ("MAXFRS of 1,519 without jumbo frames", [NOTHING, (OTHER, Deed::Sets(MAXFRS, 0x05EF_0000)), NOTHING, NOTHING],
     0, PHYSICAL, true),
    ("jumbo frames of 1,519 bytes", [JUMBO, (OTHER, Deed::Sets(MAXFRS, 0x05EF_0000)), NOTHING, NOTHING],
     0, PHYSICAL, false),
    ("and a driver of such", [JUMBO, (OTHER, Deed::Sets(MAXFRS, 0x05EF_0000)), NOTHING, NOTHING],
     0, Given { frame: 1519, ..PHYSICAL }, true),
    ("MAXFRS's low bits", [JUMBO, (OTHER, Deed::Sets(MAXFRS, 0x05EE_FFFF)), NOTHING, NOTHING], 0, PHYSICAL, true),
    ("a reset afterwards", [JUMBO, (OTHER, Deed::Sets(MAXFRS, 0x05EF_0000)), (OTHER, Deed::Sets(CTRL, 8)), NOTHING],
     0, PHYSICAL, true),
    ("CTRL without a reset afterwards",
     [JUMBO, (OTHER, Deed::Sets(MAXFRS, 0x05EF_0000)), (OTHER, Deed::Sets(CTRL, 4)), NOTHING], 0, PHYSICAL, false),
    ("jumbo frames of 1,519 bytes too late", [NOTHING, (OTHER, Deed::Sets(MAXFRS, 0x05EF_0000)), NOTHING, JUMBO],
     0, PHYSICAL, true),
    ("after a call of the pass", [(DRIVER, Deed::Reads), JUMBO, (OTHER, Deed::Sets(MAXFRS, 0x05EF_0000)), NOTHING],
     0, PHYSICAL, true),
    ("after one that isn't its driver's",
     [(DRIVER, Deed::Reads), JUMBO, (OTHER, Deed::Sets(MAXFRS, 0x05EF_0000)), NOTHING], 1, PHYSICAL, false),
    ("after a step by the pass", [(DRIVER, Deed::Steps), JUMBO, (OTHER, Deed::Sets(MAXFRS, 0x05EF_0000)), NOTHING],
     0, PHYSICAL, false),
    ("no entry of its own", [JUMBO, (OTHER, Deed::Sets(MAXFRS, 0x05EF_0000)), NOTHING, NOTHING], 2, PHYSICAL, true),
    ("queue 1", [NOTHING, NOTHING, NOTHING, NOTHING], 0, Given { queue: 1, ..PHYSICAL }, false),
    ("queue 128", [NOTHING, NOTHING, NOTHING, NOTHING], 0, Given { queue: 128, ..PHYSICAL }, false),
    ("a function without pools", [NOTHING, NOTHING, NOTHING, NOTHING], 0, FUNCTION, false),
    ("a function with 64 pools", [NOTHING, (OTHER, Deed::Sets(GCR_EXT, 3)), NOTHING, NOTHING], 0, FUNCTION, true),
    ("its second queue", [NOTHING, (OTHER, Deed::Sets(GCR_EXT, 3)), NOTHING, NOTHING],
     0, Given { queue: 1, ..FUNCTION }, false),
    ("a function with 32 pools", [NOTHING, (OTHER, Deed::Sets(GCR_EXT, 2)), NOTHING, NOTHING], 0, FUNCTION, true),
    ("a function with 16 pools", [NOTHING, (OTHER, Deed::Sets(GCR_EXT, 1)), NOTHING, NOTHING], 0, FUNCTION, true),
    ("one that isn't there", [NOTHING, (OTHER, Deed::Sets(GCR_EXT, 3)), NOTHING, NOTHING],
     0, Given { port: Port::Vf(1), ..FUNCTION }, false),
    ("pools too late", [NOTHING, NOTHING, NOTHING, (OTHER, Deed::Sets(GCR_EXT, 3))], 0, FUNCTION, false),
];

/// Checks that each row's history is judged as the row says.
fn check_begins(rt: &impl Hand, rows: &[Begins<'_>]) {
    for (name, made, from, given, wanted) in rows {
        let history = around(rt, *made);
        let is_well = begins_well(WATCHED, *from, *given, history.as_slice());
        holds(rt, name, "begins well", is_well == *wanted);
    }
}

#[test]
fn a_driver_begins_well_or_not(rt: HostRuntime) {
    check_begins(&rt, &BEGINS);
}

/// A case: its name, its entries, and the number of entries of the driver's pass before the driver's own first entry.
/// The last field says whether no one requested before that entry that the queue be enabled.
type Asked<'a> = (&'a str, Made, usize, bool);

/// The value that requests that a side be enabled.
const ON: u32 = 0x0200_0000;

#[rattlefmt::skip]
const ASKED: [Asked<'static>; 15] = [
    ("RXDCTL of queue 0 with bit 25", [NOTHING, (OTHER, Deed::Sets(RXDCTL_0, ON)), NOTHING, NOTHING], 0, false),
    ("RXDCTL of queue 0 with bits 24 and 26", [NOTHING, (OTHER, Deed::Sets(RXDCTL_0, 0x0500_0000)), NOTHING, NOTHING],
     0, true),
    ("RXDCTL of queue 1 with bit 25", [NOTHING, (OTHER, Deed::Sets(RXDCTL_1, ON)), NOTHING, NOTHING], 0, true),
    ("TXDCTL of queue 0 with bit 25", [NOTHING, (OTHER, Deed::Sets(TXDCTL_0, ON)), NOTHING, NOTHING], 0, false),
    ("TXDCTL of queue 1 with bit 25", [NOTHING, (OTHER, Deed::Sets(TXDCTL_1, ON)), NOTHING, NOTHING], 0, true),
    ("RDT of queue 0 with bit 25", [NOTHING, (OTHER, Deed::Sets(RDT_0, ON)), NOTHING, NOTHING], 0, true),
    ("on, and off again", [(OTHER, Deed::Sets(RXDCTL_0, ON)), (OTHER, Deed::Sets(RXDCTL_0, 0)), NOTHING, NOTHING],
     0, false),
    ("on, and a reset", [(OTHER, Deed::Sets(RXDCTL_0, ON)), (OTHER, Deed::Sets(CTRL, 8)), NOTHING, NOTHING], 0, false),
    ("on, after the driver's first", [NOTHING, NOTHING, NOTHING, (OTHER, Deed::Sets(RXDCTL_0, ON))], 0, true),
    ("the function's first queue",
     [(OTHER, Deed::Sets(GCR_EXT, 3)), (OTHER, Deed::Writes(Port::Vf(0), RXDCTL_0, ON)), NOTHING, NOTHING], 0, false),
    ("the function's second queue",
     [(OTHER, Deed::Sets(GCR_EXT, 3)), (OTHER, Deed::Writes(Port::Vf(0), RXDCTL_1, ON)), NOTHING, NOTHING], 0, true),
    ("without pools", [NOTHING, (OTHER, Deed::Writes(Port::Vf(0), RXDCTL_0, ON)), NOTHING, NOTHING], 0, true),
    ("by its pass, before its driver's first", [NOTHING, NOTHING, (DRIVER, Deed::Sets(RXDCTL_0, ON)), NOTHING],
     1, false),
    ("by its driver", [NOTHING, NOTHING, (DRIVER, Deed::Sets(RXDCTL_0, ON)), NOTHING], 0, true),
    ("by others, and no entry of its own", [NOTHING, (OTHER, Deed::Sets(RXDCTL_0, ON)), NOTHING, NOTHING], 2, true),
];

/// Checks that each row's history is judged as the row says.
fn check_asked(rt: &impl Hand, rows: &[Asked<'_>]) {
    for (name, made, from, wanted) in rows {
        let history = around(rt, *made);
        let never = never_asked_on(WATCHED, *from, history.as_slice());
        holds(rt, name, "never asked on", never == *wanted);
    }
}

#[test]
fn a_queue_was_never_asked_on_or_was(rt: HostRuntime) {
    check_asked(&rt, &ASKED);
}

/// Entries around the first entry of a driver with blocks 4 to 11, and the number of entries of its pass before the
/// driver's own first entry. The last field says whether others lend none of these blocks.
#[rattlefmt::skip]
const LENT: [Asked<'static>; 14] = [
    ("block 3", [(OTHER, Deed::Lends(3)), NOTHING, NOTHING, NOTHING], 0, true),
    ("block 4", [(OTHER, Deed::Lends(4)), NOTHING, NOTHING, NOTHING], 0, false),
    ("block 11", [(OTHER, Deed::Lends(11)), NOTHING, NOTHING, NOTHING], 0, false),
    ("block 12", [(OTHER, Deed::Lends(12)), NOTHING, NOTHING, NOTHING], 0, true),
    ("block 4, twice", [(OTHER, Deed::LendsTwice(4)), NOTHING, NOTHING, NOTHING], 0, false),
    ("block 4, after the driver's first", [NOTHING, NOTHING, NOTHING, (OTHER, Deed::Lends(4))], 0, false),
    ("block 12, after it", [NOTHING, NOTHING, NOTHING, (OTHER, Deed::Lends(12))], 0, true),
    ("block 4 by the driver, after it", [NOTHING, NOTHING, NOTHING, (DRIVER, Deed::Lends(4))], 0, true),
    ("block 4 by its pass, before it", [NOTHING, NOTHING, (DRIVER, Deed::Lends(4)), NOTHING], 1, false),
    ("block 12 by its pass, before it", [NOTHING, NOTHING, (DRIVER, Deed::Lends(12)), NOTHING], 1, true),
    ("block 4 by its pass, and taken", [NOTHING, (DRIVER, Deed::Lends(4)), (DRIVER, Deed::Takes(4)), NOTHING], 2, true),
    ("block 4 by its pass, and another taken", [NOTHING, (DRIVER, Deed::Lends(4)), (DRIVER, Deed::Takes(5)), NOTHING],
     2, false),
    ("block 4 by its pass, which is there already", [NOTHING, NOTHING, (DRIVER, Deed::LendsTwice(4)), NOTHING],
     1, true),
    ("block 4 taken by others", [NOTHING, NOTHING, (OTHER, Deed::Takes(4)), NOTHING], 0, true),
];

/// Checks that each row's history is judged as the row says.
fn check_lent(rt: &impl Hand, rows: &[Asked<'_>]) {
    for (name, made, from, wanted) in rows {
        let history = around(rt, *made);
        let none = others_lend_none(WATCHED, *from, 4, 8, history.as_slice());
        holds(rt, name, "others lend none", none == *wanted);
    }
}

#[test]
fn others_lend_blocks_or_none(rt: HostRuntime) {
    check_lent(&rt, &LENT);
}

/// Entries that raise doubts about a history. Only the first doubt is reported.
const TOO_LONG: (u8, Deed) = (OTHER, Deed::Arrives(2049));

const FITS: (u8, Deed) = (OTHER, Deed::Arrives(2048));

const LENDS: (u8, Deed) = (OTHER, Deed::Lends(4));

const ASKS_ON: (u8, Deed) = (OTHER, Deed::Sets(TXDCTL_0, ON));

const DISTURBS: (u8, Deed) = (OTHER, Deed::Sets(CTRL, 0));

/// A case: its name, its entries, the arguments of the driver's start, and the first doubt.
type Judged<'a> = (&'a str, Made, Given, Option<Doubt>);

#[rattlefmt::skip]
const JUDGED: [Judged<'static>; 6] = [
    ("nothing wrong", [FITS, NOTHING, NOTHING, NOTHING], PHYSICAL, None),
    ("a long frame", [TOO_LONG, NOTHING, NOTHING, NOTHING], PHYSICAL, Some(Doubt::TooLong)),
    ("a block lent too", [TOO_LONG, LENDS, NOTHING, NOTHING], PHYSICAL, Some(Doubt::LentByOthers)),
    ("asked on too", [TOO_LONG, LENDS, ASKS_ON, NOTHING], PHYSICAL, Some(Doubt::AskedOnBefore)),
    ("another queue too", [TOO_LONG, LENDS, ASKS_ON, NOTHING], FUNCTION, Some(Doubt::BeganOtherwise)),
    ("disturbed too", [TOO_LONG, LENDS, ASKS_ON, DISTURBS], FUNCTION, Some(Doubt::Disturbed)),
];

/// The first doubt about the history of a driver with blocks 4 to 11.
fn doubt(given: Given, history: &[Entry]) -> Option<Doubt> {
    let driven = Driven {
        watched: WATCHED,
        from: 0,
        given,
        first: 4,
        count: 8,
    };
    match judge(&driven, history) {
        Ok(()) => None,
        Err(doubt) => Some(doubt),
    }
}

/// Checks that each row's history is judged as the row says.
fn check_judged(rt: &impl Hand, rows: &[Judged<'_>]) {
    for (name, made, given, wanted) in rows {
        let history = around(rt, *made);
        holds(
            rt,
            name,
            "doubt",
            doubt(*given, history.as_slice()) == *wanted,
        );
    }
}

#[test]
fn the_first_doubt_is_named(rt: HostRuntime) {
    check_judged(&rt, &JUDGED);
}
