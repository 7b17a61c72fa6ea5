//! A driver with a queue that other programs don't leave alone. Nothing is promised about its packets, but it can still
//! be stopped.

use crate::bench::{
    PLAIN, frame_of, in_hand, left_by, make, release, set_up, started, stepped, stopped,
    taken_apart,
};
use crate::deeds::At::{self, Buffer, Free, Receive, Ring, Transmit, Zero};
use crate::deeds::Deed::{self, Fills, Lends, Names, Receives, Sends, Takes, Writes};
use crate::deeds::{Doing, Rings};
use crate::history::{DRIVER, OTHERS, add_entries, finished, is_left_alone};
use crate::interleaved::during;
use crate::outcome::{Hand, done, empty, holds, push, same, some};
use crate::schedule::{Left, Schedule, all_home, finish, push_steps, take_all};
use device_lock::Entry;
use nic_device::{Arena, Buf, Device, Event, Mode, Octets, Port, Reply};
use pmd::{Direct, Home, Nic, Packet, Pmd, Setup, StopRefused, TxAnswer, TxFault};

/// Foreign writes, by address and value, that affect a driver's queue 0 or the whole device, and whether each of them
/// still leaves the queue alone.
#[rattlefmt::skip]
pub const WRITES: [(u32, u32, bool); 24] = [
    (0x01018, 5, false),            // RDT, a slot of the ring
    (0x01018, 200, false),          // RDT, a slot outside the ring
    (0x01010, 3, false),            // RDH
    (0x01000, 0x0010_0000, false),  // RDBAL
    (0x01004, 1, false),            // RDBAH
    (0x01008, 0, false),            // RDLEN
    (0x01014, 0x0400_0002, false),  // SRRCTL, another descriptor type
    (0x02100, 0, false),            // SRRCTL at its other address, no buffer size
    (0x01028, 0, false),            // RXDCTL, off
    (0x06018, 7, false),            // TDT, a slot of the ring
    (0x06018, 99, false),           // TDT, a slot outside the ring
    (0x06010, 3, false),            // TDH
    (0x06000, 0x0010_0000, false),  // TDBAL
    (0x06008, 0, false),            // TDLEN
    (0x06028, 0, false),            // TXDCTL, off
    (0x06038, 0x0010_0001, false),  // TDWBAL, head write-back to memory that isn't lent
    (0x00000, 0x0400_0000, false),  // CTRL, a reset
    (0x00004, 0x0000_0008, false),  // CTRL at its other address, a reset
    (0x00000, 0x0000_0004, false),  // CTRL, stops all steps
    (0x04240, 0x0000_0407, false),  // HLREG0, long frames
    (0x04268, 0, false),            // MAXFRS
    (0x11050, 0x0000_0003, false),  // GCR_EXT, 64 pools
    (0x03000, 0, true),             // RXCTRL, reception disabled
    (0x04A80, 0, true),             // DMATXCTL, transmission disabled
];

/// How others set the device up: without pools and hashing, with queue 0 as the virtual function's, or with hashing.
/// Hashing sends TCP segments over IPv4 to queue 3, and all other frames to queue 0.
#[derive(Clone, Copy)]
enum On {
    Plain,
    Pools,
    Hashed,
}

impl On {
    fn setup(self) -> Setup {
        match self {
            On::Plain => PLAIN,
            On::Pools => Setup {
                mode: Mode::Pools64,
                ..PLAIN
            },
            On::Hashed => Setup {
                mrqc: 0x0001_0001,
                key: [0x6D; 40],
                reta: [3; 128],
                ..PLAIN
            },
        }
    }
}

/// The kind of write that queue 3 made, according to the reply to its step.
#[derive(Clone, Copy, PartialEq, Eq)]
enum What {
    Nothing,
    Frame,
    Sent,
    Advanced,
}

/// The kind of write, and its locations: where a frame and its descriptor were written, or where a sent packet or a
/// fetched descriptor was reported.
type Reported<P> = (What, P, P);

const NO_WRITE: Reported<At> = (What::Nothing, Zero, Zero);

/// Three actions of others, in order. (A table of lists can't be a constant, and proving such a table would need a step
/// for each element.)
type Deeds = (Deed, Deed, Deed);

/// No action: no block is taken.
const NONE: Deed = Takes(0, 0);

/// Actions of others while a driver runs: the name of the case, the device, the others' blocks as first and count, and
/// the actions. The last two fields are whether the driver's queue is left alone, and the first write that a step of
/// queue 3 reports.
type Row<'a> = (&'a str, On, (u32, u32), Deeds, bool, Reported<At>);

/// Blocks with the same numbers as the driver's.
const SAME: (u32, u32) = (4, 32);

/// Two blocks, for a ring and a buffer.
const TWO: (u32, u32) = (100, 2);

/// Turns queue 0 into a virtual function's queue.
const POOLS: Deed = Writes(Port::Pf, 0x11050, 3);

/// Writes of the virtual function, by its register numbers: RDT, RXDCTL, and VFCTRL with a reset.
const VF_RDT: Deed = Writes(Port::Vf(0), 0x1018, 5);

const VF_RXDCTL: Deed = Writes(Port::Vf(0), 0x1028, 0);

const VF_RESET: Deed = Writes(Port::Vf(0), 0x0000, 0x0400_0000);

/// Resets the pool through PVFCTRL.
const POOL_RESET: Deed = Writes(Port::Pf, 0x00300, 0x0400_0000);

/// The virtual function writes RDT of its queue 1.
const OTHER_RDT: Deed = Writes(Port::Vf(0), 0x1058, 5);

/// The second halves of descriptors: for a frame's buffer, and for 60 bytes of a packet that continues after them or
/// ends with them.
const FRAME: u64 = 0;

const GOES_ON: u64 = 0x000F_0000_2A30_003C;

const ENDS: u64 = 0x000F_0000_2B30_003C;

/// In the first rows, other programs write registers, take and lend blocks, and write descriptors. In the last rows, a
/// step of queue 3 writes to memory, and in some of these rows into the driver's blocks. Only the reply shows this
/// write, whichever pass runs the step. The ring of queue 3 may be in one of the driver's blocks. All bytes of that
/// ring are 0, so its descriptors name block 0. Or the ring may be the driver's own ring.
#[rattlefmt::skip]
const ROWS: [Row<'static>; 28] = [
    ("nothing is done", On::Plain, SAME, (NONE, NONE, NONE), true, NO_WRITE),
    ("it becomes a function's, which writes RDT", On::Plain, SAME, (POOLS, VF_RDT, NONE), false, NO_WRITE),
    ("it becomes a function's, which writes RXDCTL", On::Plain, SAME, (POOLS, VF_RXDCTL, NONE), false, NO_WRITE),
    ("it becomes a function's, which is reset", On::Plain, SAME, (POOLS, VF_RESET, NONE), false, NO_WRITE),
    ("the function writes RDT", On::Pools, SAME, (VF_RDT, NONE, NONE), false, NO_WRITE),
    ("the function writes RXDCTL", On::Pools, SAME, (VF_RXDCTL, NONE, NONE), false, NO_WRITE),
    ("the function is reset", On::Pools, SAME, (VF_RESET, NONE, NONE), false, NO_WRITE),
    ("the pool is reset", On::Pools, SAME, (POOL_RESET, NONE, NONE), false, NO_WRITE),
    ("the function writes RDT of its other queue", On::Pools, SAME, (OTHER_RDT, NONE, NONE), true, NO_WRITE),
    ("the receive ring's block is taken", On::Plain, SAME, (Takes(4, 1), NONE, NONE), false, NO_WRITE),
    ("the transmit ring's block is taken", On::Plain, SAME, (Takes(5, 1), NONE, NONE), false, NO_WRITE),
    ("a posted block is taken", On::Plain, SAME, (Takes(9, 1), NONE, NONE), false, NO_WRITE),
    ("all blocks are taken", On::Plain, SAME, (Takes(4, 32), NONE, NONE), false, NO_WRITE),
    ("one of the receive ring's number is lent", On::Plain, SAME, (Lends(4, 1), NONE, NONE), false, NO_WRITE),
    ("one of the transmit ring's number is lent", On::Plain, SAME, (Lends(5, 1), NONE, NONE), false, NO_WRITE),
    ("one of a posted one's number is lent", On::Plain, SAME, (Lends(9, 1), NONE, NONE), false, NO_WRITE),
    ("one of each number is lent", On::Plain, SAME, (Lends(4, 32), NONE, NONE), false, NO_WRITE),
    ("descriptors of 0x00", On::Plain, SAME, (Fills(Receive, 0x00), Fills(Transmit, 0x00), NONE), false, NO_WRITE),
    ("descriptors of 0x01", On::Plain, SAME, (Fills(Receive, 0x01), Fills(Transmit, 0x01), NONE), false, NO_WRITE),
    ("descriptors of 0xFF", On::Plain, SAME, (Fills(Receive, 0xFF), Fills(Transmit, 0xFF), NONE), false, NO_WRITE),
    ("a frame of queue 3 goes elsewhere", On::Hashed, TWO,
        (Lends(100, 2), Names(Ring, Buffer, FRAME), Receives(Ring)), true, (What::Frame, Buffer, Ring)),
    ("a frame of queue 3 goes into its block", On::Hashed, TWO,
        (Lends(100, 2), Names(Ring, Free, FRAME), Receives(Ring)), false, (What::Frame, Free, Ring)),
    ("a descriptor of queue 3 goes into its block", On::Hashed, (0, 1),
        (Lends(0, 1), Receives(Free), NONE), false, (What::Frame, Zero, Free)),
    ("queue 3 reports a fetch in its own slot", On::Plain, TWO,
        (Lends(100, 2), Names(Ring, Buffer, GOES_ON), Sends(Ring, None, 1)), true, (What::Advanced, Ring, Zero)),
    ("queue 3 reports a packet in its own slot", On::Plain, TWO,
        (Lends(100, 2), Names(Ring, Buffer, ENDS), Sends(Ring, None, 1)), true, (What::Sent, Ring, Zero)),
    ("queue 3 reports a fetch in its block", On::Plain, TWO,
        (Lends(100, 2), Names(Ring, Buffer, GOES_ON), Sends(Ring, Some(Free), 1)), false,
        (What::Advanced, Free, Zero)),
    ("queue 3 reports a packet in its block", On::Plain, TWO,
        (Lends(100, 2), Names(Ring, Buffer, ENDS), Sends(Ring, Some(Free), 1)), false, (What::Sent, Free, Zero)),
    ("queue 3 is laid over its transmit ring", On::Plain, TWO, (Sends(Transmit, None, 7), NONE, NONE), false,
        (What::Sent, Transmit, Zero)),
];

/// A device, a started driver of its queue 0, the addresses of the driver's two rings, and the history.
struct Begun {
    device: Device,
    pmd: Pmd,
    rings: Rings,
    history: Vec<Entry>,
}

/// Starts a driver with an undisturbed queue, on a device that others set up.
fn begin_on(rt: &impl Hand, setup: &Setup) -> Begun {
    let mut history = empty(rt);
    let device = finished(rt, &mut history, OTHERS, set_up(rt, 64, 0, setup));
    let mut direct = stepped(rt, device);
    let pmd = started(rt, &mut direct);
    let device = finished(rt, &mut history, DRIVER, direct);
    let receive = some(rt, device.peek_register(0x01000));
    let transmit = some(rt, device.peek_register(0x06000));
    Begun {
        device,
        pmd,
        rings: Rings(receive, transmit),
        history,
    }
}

/// Appends `count` lists with the steps of queue 0. In every fifth list, a frame arrives.
fn traffic(rt: &impl Hand, schedule: &mut Schedule, count: u16) {
    for number in 0..count {
        let mut list = empty(rt);
        push_steps(rt, &mut list);
        if number % 5 == 0 {
            let frame = frame_of(rt, number);
            push(rt, &mut list, Event::Arrive(Octets::of(frame)));
        }
        push(rt, schedule, list);
    }
}

/// Sends a packet. If the packet is returned, releases it.
pub fn offer<N: Nic>(rt: &impl Hand, nic: &mut N, pmd: &mut Pmd, packet: Packet) {
    match pmd.tx(rt.alloc(), nic, packet) {
        Ok(TxAnswer::Taken) => {}
        Ok(TxAnswer::RingFull(packet)) => release(rt, pmd, packet),
        Err(TxFault { fault: _, packet }) => match packet {
            Some(packet) => release(rt, pmd, packet),
            None => {}
        },
    }
}

/// Runs the driver for thirty rounds and ignores the results.
fn drive<N: Nic>(rt: &impl Hand, nic: &mut N, pmd: &mut Pmd) {
    for _round in 0..30 {
        match pmd.rx(rt.alloc(), nic) {
            Ok(Some(packet)) => offer(rt, nic, pmd, packet),
            Ok(None) | Err(_) => {}
        }
        match pmd.packet(60) {
            Some(packet) => offer(rt, nic, pmd, packet),
            None => {}
        }
        let _answer = pmd.reap(rt.alloc(), nic);
    }
}

/// Lists with the steps of queue 0, and among these lists one with the other programs' events.
fn schedule_with(rt: &impl Hand, list: Vec<Event>) -> Schedule {
    let mut schedule = empty(rt);
    traffic(rt, &mut schedule, 40);
    push(rt, &mut schedule, list);
    traffic(rt, &mut schedule, 300);
    schedule
}

/// What remains of a stopped driver. If the stop was refused, stops the driver again.
fn home_of(rt: &impl Hand, direct: &mut Direct, stopped: Result<Home, StopRefused>) -> Home {
    match stopped {
        Ok(home) => home,
        Err(StopRefused { fault: _, pmd }) => stopped_again(rt, direct, pmd),
    }
}

/// Runs a driver while others act. Then stops it, and checks that each of its blocks is free or counted as lost.
/// Returns the history up to the stop.
fn endures(rt: &impl Hand, begun: Begun, doing: Doing) -> Vec<Entry> {
    let Begun {
        device,
        mut pmd,
        rings: _,
        mut history,
    } = begun;
    let (list, second) = doing.finish();
    let mut nic = during(rt, device, schedule_with(rt, list));
    drive(rt, &mut nic, &mut pmd);
    let stopped = pmd.stop(rt.alloc(), &mut nic);
    let Left {
        device,
        history: later,
        foreign: _,
        bufs,
    } = finish(rt, nic);
    add_entries(rt, &mut history, later);
    let mut direct = stepped(rt, device);
    let home = home_of(rt, &mut direct, stopped);
    settle(rt, home, in_hand(direct), bufs, second);
    history
}

/// Enables the device's steps again, and stops the driver.
pub fn stopped_again(rt: &impl Hand, direct: &mut Direct, pmd: Pmd) -> Home {
    make(rt, direct, Event::Write(Port::Pf, 0, 0));
    stopped(rt, direct, pmd)
}

/// Checks that all blocks were returned or are counted as lost. The lost blocks and the second arena's blocks must be
/// where the other programs left them: in hand, or still lent.
fn settle(rt: &impl Hand, home: Home, device: Device, mut bufs: Vec<Buf>, second: Arena) {
    let (arena, lost, _handed, _accepted) = left_by(home);
    same(rt, arena.free_blocks().saturating_add(lost) as usize, 32);
    let (memory, _frames) = taken_apart(device);
    take_all(rt, &mut bufs, memory);
    let arenas = done(rt, Vec::from_array(rt.alloc(), [arena, second]));
    let _away = all_home(rt, bufs, arenas);
}

/// The write of queue 3 in an entry, with bus addresses.
fn reported_by(entry: &Entry) -> Reported<u64> {
    match &entry.reply {
        Reply::Wrote {
            queue: 3,
            desc,
            at,
            ..
        } => (What::Frame, *at, *desc),
        Reply::Sent {
            queue: 3,
            back: Some(back),
            ..
        } => (What::Sent, *back, 0),
        Reply::Advanced {
            queue: 3,
            back: Some(back),
            ..
        } => (What::Advanced, *back, 0),
        _other => (What::Nothing, 0, 0),
    }
}

/// The first write of queue 3 in a history. Assigns each step that wrote to the driver's pass.
fn first_reported(history: &mut [Entry]) -> Reported<u64> {
    let mut first = (What::Nothing, 0, 0);
    for entry in history {
        let reported = reported_by(entry);
        if reported.0 != What::Nothing {
            entry.pass = DRIVER;
            if first.0 == What::Nothing {
                first = reported;
            }
        }
    }
    first
}

/// Runs a driver in the case of a row. Returns the history, and the addresses of the driver's rings.
fn endured(rt: &impl Hand, on: On, blocks: (u32, u32), deeds: Deeds) -> (Vec<Entry>, Rings) {
    let begun = begin_on(rt, &on.setup());
    let rings = begun.rings;
    let (first, second, third) = deeds;
    let mut doing = Doing::new(rt, rings, blocks);
    doing.add(rt, first);
    doing.add(rt, second);
    doing.add(rt, third);
    (endures(rt, begun, doing), rings)
}

/// Checks that a bus address in the row with this name is the expected one.
fn is_address(rt: &impl Hand, name: &str, what: &str, reported: u64, wanted: u32) {
    holds(rt, name, what, reported == u64::from(wanted));
}

/// Runs a driver in the case of a row, and checks the verdict on its history. If the queue isn't left alone, the
/// verdict must stay the same when the steps of queue 3 are assigned to the driver's pass.
fn check(rt: &impl Hand, (name, on, blocks, deeds, spares, wanted): Row<'_>) {
    let (mut history, rings) = endured(rt, on, blocks, deeds);
    let is_alone = is_left_alone(history.as_slice());
    holds(rt, name, "left alone", is_alone == spares);
    let (what, at, ring) = first_reported(history.as_mut_slice());
    let is_alone = is_left_alone(history.as_slice());
    holds(rt, name, "reported", what == wanted.0);
    is_address(rt, name, "at", at, rings.address(wanted.1));
    is_address(rt, name, "of", ring, rings.address(wanted.2));
    holds(rt, name, "by the driver's steps", spares || !is_alone);
}

/// Runs a driver in the case of each of these rows.
fn check_all(rt: &impl Hand, rows: &[Row<'_>]) {
    for row in rows {
        check(rt, *row);
    }
}

#[test]
fn a_driver_stops_whatever_others_do(rt: HostRuntime) {
    check_all(&rt, &ROWS);
}

/// Runs a driver with each of these writes by others.
fn check_writes(rt: &impl Hand, writes: &[(u32, u32, bool)]) {
    for (address, word, spares) in writes {
        let name = done(rt, format!(in rt.alloc(); "a write at {address:#07x}"));
        let deeds = (Writes(Port::Pf, *address, *word), NONE, NONE);
        check(
            rt,
            (name.as_str(), On::Plain, SAME, deeds, *spares, NO_WRITE),
        );
    }
}

#[test]
fn a_driver_stops_whatever_others_write(rt: HostRuntime) {
    check_writes(&rt, &WRITES);
}
