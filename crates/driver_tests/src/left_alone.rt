//! Whether a closed history leaves a queue alone if the history contains an event of another pass.

use crate::bench::{block_in, end};
use crate::outcome::{Hand, done, fail, holds, some};
use crate::stranger::reply;
use crate::team::Bench;
use device_lock::Pass;
use nic_device::{Arena, Buf, Event, Port, Reply};

/// The register that divides the queues into pools.
const GCR_EXT: u32 = 0x11050;

/// An event of another pass.
#[derive(Clone, Copy)]
enum Deed {
    Writes(Port, u32, u32),
    Takes(u32),
    Pokes(u32),
    Steps,
}

impl Deed {
    fn event(self) -> Event {
        match self {
            Deed::Writes(port, address, word) => Event::Write(port, address, word),
            Deed::Takes(block) => Event::Take(block),
            Deed::Pokes(address) => Event::Poke16(address, [0; 16]),
            Deed::Steps => Event::RxStep,
        }
    }
}

/// An event of another pass, the value of GCR_EXT before it, and whether queue 0 is left alone. The queue is left alone
/// if others write registers of other queues, of the filter, or the global enables of both directions. It is also left
/// alone if others take blocks that the driver doesn't lend, or write to such blocks. The queue isn't left alone if
/// others access a register on which it relies, reset its pool, or access its driver's blocks.
type Row<'a> = (&'a str, u32, Deed, bool);

#[rattlefmt::skip]
const ROWS: [Row<'static>; 22] = [
    ("TDT of queue 1", 0, Deed::Writes(Port::Pf, 0x06058, 3), true),
    ("TDT of no pool's queue", 0, Deed::Writes(Port::Vf(0), 0x2018, 3), true),
    ("a reset of no pool", 0, Deed::Writes(Port::Pf, 0x00300, 0x0400_0000), true),
    ("TDT of the last of the pool's eight queues", 1, Deed::Writes(Port::Vf(0), 0x21D8, 3), true),
    ("FCTRL", 0, Deed::Writes(Port::Pf, 0x05080, 0x700), true),
    ("RXCTRL", 0, Deed::Writes(Port::Pf, 0x03000, 0), true),
    ("DMATXCTL", 0, Deed::Writes(Port::Pf, 0x04A80, 0), true),
    ("a block that isn't lent is taken", 0, Deed::Takes(6), true),
    ("a block that isn't lent is poked", 0, Deed::Pokes(0x3000), true),
    ("a step of receiving", 0, Deed::Steps, true),
    ("TDT", 0, Deed::Writes(Port::Pf, 0x06018, 0), false),
    ("SRRCTL by its other address", 0, Deed::Writes(Port::Pf, 0x02100, 0), false),
    ("SRRCTL", 0, Deed::Writes(Port::Pf, 0x01014, 0), false),
    ("CTRL", 0, Deed::Writes(Port::Pf, 0x00000, 0), false),
    ("CTRL by its other address", 0, Deed::Writes(Port::Pf, 0x00004, 0), false),
    ("HLREG0", 0, Deed::Writes(Port::Pf, 0x04240, 0), false),
    ("MAXFRS", 0, Deed::Writes(Port::Pf, 0x04268, 0), false),
    ("GCR_EXT", 0, Deed::Writes(Port::Pf, GCR_EXT, 0), false),
    ("TDT of the pool's queue", 3, Deed::Writes(Port::Vf(0), 0x2018, 3), false),
    ("a reset of the pool", 3, Deed::Writes(Port::Pf, 0x00300, 0x0400_0000), false),
    ("a reset of the pool of eight queues", 1, Deed::Writes(Port::Pf, 0x00300, 0x0400_0000), false),
    ("a block of the driver's is poked", 0, Deed::Pokes(0x2808), false),
];

/// Makes an event that returns no block.
fn make(rt: &impl Hand, bench: &Bench, pass: &mut Pass, event: Event) {
    match reply(rt, bench, pass, event) {
        Reply::Done
        | Reply::Word(_)
        | Reply::Stray(_)
        | Reply::NotLent
        | Reply::Misaligned
        | Reply::Idle => {}
        _other => fail(rt, "another reply"),
    }
}

/// Takes block 5 back for the driver.
fn taken(rt: &impl Hand, bench: &Bench, driver: &mut Pass) -> Buf {
    block_in(rt, reply(rt, bench, driver, Event::Take(5)))
}

/// Makes the calls of a case. First GCR_EXT is written. Then the driver of queue 0 reads a register and lends block 5,
/// another pass makes the event, and the driver takes its block back.
fn make_all(
    rt: &impl Hand,
    bench: &Bench,
    driver: &mut Pass,
    other: &mut Pass,
    mode: u32,
    event: Event,
) {
    let mut arena = done(rt, Arena::new(rt.alloc(), 5, 1));
    make(rt, bench, other, Event::Write(Port::Pf, GCR_EXT, mode));
    make(rt, bench, driver, Event::Read(Port::Pf, GCR_EXT));
    let lend = Event::Lend(some(rt, arena.take()));
    make(rt, bench, driver, lend);
    make(rt, bench, other, event);
    done(rt, arena.give(taken(rt, bench, driver)));
    done(rt, arena.close());
}

/// Whether the history of a shared device, closed with both passes, leaves queue 0 alone.
fn judged(rt: &impl Hand, bench: Bench, driver: Pass, other: Pass) -> bool {
    let passes = done(rt, Vec::from_array(rt.alloc(), [driver, other]));
    let closed = done(rt, bench.close(passes));
    let answer = closed.left_alone(0, 0);
    end(rt, closed.into_device());
    answer
}

/// Whether queue 0 is left alone if another pass makes the event between its driver's calls.
fn is_left_alone(rt: &impl Hand, mode: u32, event: Event) -> bool {
    let (bench, mut passes) = done(rt, Bench::new(rt.alloc(), 1, 2, 100));
    let mut other = some(rt, passes.pop());
    let mut driver = some(rt, passes.pop());
    make_all(rt, &bench, &mut driver, &mut other, mode, event);
    judged(rt, bench, driver, other)
}

/// Checks that each row's event leaves queue 0 alone or not, as the row says.
fn check_all(rt: &impl Hand, rows: &[Row<'_>]) {
    for (name, mode, deed, wanted) in rows {
        let is_alone = is_left_alone(rt, *mode, deed.event());
        holds(rt, name, "left alone", is_alone == *wanted);
    }
}

#[test]
fn a_queue_is_left_alone_or_not(rt: HostRuntime) {
    check_all(&rt, &ROWS);
}
