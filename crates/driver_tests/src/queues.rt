//! Requests to a queue at a port of a device that the test owns.

use crate::bench::{PLAIN, Why, end, in_hand, reason};
use crate::outcome::{Hand, done, holds, refused, same, sees, some};
use nic_device::{Config, Device, Dir, Mode, Port};
use pmd::{Direct, POLLS, Queue, Setup, pf_setup};

/// A device with two virtual functions and 64 pools, on which the steps of queue 2 run.
fn opened(rt: &impl Hand) -> Direct {
    let device = done(rt, Device::new(rt.alloc(), Config { vfs: 2, fifo: 64 }));
    let mut direct = Direct::new(rt.alloc(), device, 2);
    let setup = Setup {
        mode: Mode::Pools64,
        ..PLAIN
    };
    done(rt, pf_setup(rt.alloc(), &mut direct, &setup));
    direct
}

/// The values of four registers of queue 2: RDBAL, RDLEN, TDBAL and RXDCTL.
fn words(rt: &impl Hand, device: &Device) -> [u32; 4] {
    let mut words = [0; 4];
    for (at, address) in [0x01080, 0x01088, 0x06080, 0x010A8].into_iter().enumerate() {
        words[at] = some(rt, device.peek_register(address));
    }
    words
}

/// Prepares both sides of a queue, enables them, and checks that they are enabled.
fn bring_up(rt: &impl Hand, direct: &mut Direct, queue: &Queue) {
    let alloc = rt.alloc();
    for side in [Dir::Rx, Dir::Tx] {
        done(rt, queue.disable(alloc, direct, side));
        done(rt, queue.lay_out(alloc, direct, side, 3, 8));
        done(rt, queue.ask(alloc, direct, side, true));
        let left = done(rt, queue.poll(alloc, direct, side, true, POLLS));
        same(rt, left as usize, POLLS as usize);
        sees(rt, done(rt, queue.is_on(alloc, direct, side)));
    }
}

/// The request to a queue.
#[derive(Clone, Copy, PartialEq, Eq)]
enum Ask {
    /// Both sides are brought up.
    Up,
    /// Both sides are brought up, then the receive side is prepared again.
    ReadyAgain,
    /// The receive side is enabled.
    On,
    /// The transmit side is prepared.
    Ready,
}

/// A case: its name, the queue's port and its number at that port, the request, and why the request is refused, if it
/// is.
type Row<'a> = (&'a str, Port, u16, Ask, Option<Why>);

#[rattlefmt::skip]
const ROWS: [Row<'static>; 5] = [
    ("a queue comes up through the physical function", Port::Pf, 2, Ask::Up, None),
    ("a queue comes up through a virtual function", Port::Vf(1), 0, Ask::Up, None),
    ("a queue that is on isn't made ready", Port::Pf, 2, Ask::ReadyAgain, Some(Why::DeviceFault)),
    ("a queue that nobody steps on doesn't come up", Port::Pf, 3, Ask::On, Some(Why::StartTimeout)),
    ("a function that isn't there has no queue", Port::Vf(2), 0, Ask::Ready, Some(Why::DeviceFault)),
];

/// Makes the request to a queue. Returns why the request is refused, if it is.
fn asked(rt: &impl Hand, direct: &mut Direct, queue: &Queue, ask: Ask) -> Option<Why> {
    let alloc = rt.alloc();
    let fault = match ask {
        Ask::Up => {
            bring_up(rt, direct, queue);
            return None;
        }
        Ask::ReadyAgain => {
            bring_up(rt, direct, queue);
            refused(rt, queue.disable(alloc, direct, Dir::Rx))
        }
        Ask::On => {
            done(rt, queue.ask(alloc, direct, Dir::Rx, true));
            refused(rt, queue.poll(alloc, direct, Dir::Rx, true, POLLS))
        }
        Ask::Ready => refused(rt, queue.disable(alloc, direct, Dir::Tx)),
    };
    Some(reason(&fault))
}

/// Makes the request to a queue of a new device. Returns why the request is refused, if it is, and whether queue 2 then
/// has the registers of an enabled queue.
fn asked_of(rt: &impl Hand, port: Port, number: u16, ask: Ask) -> (Option<Why>, bool) {
    let mut direct = opened(rt);
    let queue = some(rt, Queue::new(port, number));
    let why = asked(rt, &mut direct, &queue, ask);
    let device = in_hand(direct);
    let is_up = words(rt, &device) == [6144, 128, 6144, 0x0200_0000];
    same(rt, end(rt, device).len(), 0);
    (why, is_up)
}

/// Checks that each of these queues behaves as its row says, and that a queue that comes up has its registers.
fn check_all(rt: &impl Hand, rows: &[Row<'_>]) {
    for (name, port, number, ask, wanted) in rows {
        let (why, is_up) = asked_of(rt, *port, *number, *ask);
        holds(rt, name, "answer", why == *wanted);
        holds(rt, name, "registers", *ask != Ask::Up || is_up);
    }
}

#[test]
fn a_queue_comes_up_or_is_refused(rt: HostRuntime) {
    check_all(&rt, &ROWS);
}

#[test]
fn ports_name_the_queues_that_they_have_room_for(rt: HostRuntime) {
    for (port, number, is_there) in [
        (Port::Pf, 127, true),
        (Port::Pf, 128, false),
        (Port::Vf(0), 63, true),
        (Port::Vf(0), 64, false),
    ] {
        sees(&rt, Queue::new(port, number).is_some() == is_there);
    }
}
