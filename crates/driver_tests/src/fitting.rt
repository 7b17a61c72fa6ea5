//! Whether the frames accepted before a driver's start fit its packets, according to a closed history.

use crate::bench::{PLAIN, end, word_in};
use crate::outcome::{Hand, done, empty, fail, holds, push, sees, some};
use device_lock::{Pass, Shared, Watched};
use nic_device::{Event, Octets, Port, Reply};
use pmd::{Setup, ThroughLock, frames_fit, pf_setup};

/// A shared device without virtual functions.
type Bench = Shared<0, 64>;

/// The length of an arriving frame in bytes, and the maximum length of a driver's frames with their check sequence. The
/// last two fields say whether the frame is accepted, and whether it fits the driver's packets or was dropped. The
/// packets have one, two or five 2,048-byte blocks.
#[rattlefmt::skip]
const ROWS: [(&str, u16, u16, bool, bool); 8] = [
    ("one block holds it", 2048, 1518, true, true),
    ("one block doesn't", 2049, 1518, true, false),
    ("nor does one for packets of 2,048 bytes", 2049, 2052, true, false),
    ("two do for packets of 2,049 bytes", 4096, 2053, true, true),
    ("two don't", 4097, 4100, true, false),
    ("five do", 9724, 9728, true, true),
    ("it is dropped as too long", 9725, 1518, false, true),
    ("it is dropped as too short", 59, 1518, false, true),
];

/// Delivers a broadcast frame of this length in bytes. Returns whether it is accepted.
fn arrive(rt: &impl Hand, bench: &Bench, pass: &mut Pass, len: u16) -> bool {
    let mut bytes = empty(rt);
    for _byte in 0..len {
        push(rt, &mut bytes, 0xFF);
    }
    match done(
        rt,
        bench.call(rt, rt.alloc(), pass, Event::Arrive(Octets::of(bytes))),
    ) {
        Reply::Done => true,
        Reply::Dropped(_) => false,
        _other => fail(rt, "another reply"),
    }
}

/// Reads a register.
fn look(rt: &impl Hand, bench: &Bench, pass: &mut Pass) {
    let reported = bench.call(rt, rt.alloc(), pass, Event::Read(Port::Pf, 0x04240));
    word_in(rt, done(rt, reported));
}

/// Sets the device up for 9,728-byte frames, including their check sequence.
fn set_up(rt: &impl Hand, bench: &Bench, pass: Pass) -> Pass {
    let mut nic = ThroughLock::new(rt, bench, pass, 0);
    let setup = Setup {
        frame: 9728,
        ..PLAIN
    };
    done(rt, pf_setup(rt.alloc(), &mut nic, &setup));
    nic.finish()
}

/// Whether the frames fit the driver's packets according to a closed history. Also checks that the frames fit if one
/// more entry of the driver's pass is assumed to precede the driver's first event.
fn fits_in(rt: &impl Hand, bench: Bench, passes: [Pass; 2], frame: u16) -> bool {
    let passes = done(rt, Vec::from_array(rt.alloc(), passes));
    let closed = done(rt, bench.close(passes));
    let watched = Watched {
        vfs: 0,
        pass: 0,
        queue: 0,
    };
    let answer = frames_fit(watched, 0, frame, closed.history());
    sees(rt, frames_fit(watched, 1, frame, closed.history()));
    end(rt, closed.into_device());
    answer
}

/// Returns whether a frame of this length is accepted by a device that is set up for 9,728-byte frames, including their
/// check sequence. Also returns whether the frames fit a driver that makes its first event immediately afterwards. A
/// longer frame is accepted after that event.
fn fits(rt: &impl Hand, len: u16, frame: u16) -> (bool, bool) {
    let (bench, mut passes) = done(rt, Bench::new(rt.alloc(), 1, 2, 1000));
    let other = some(rt, passes.pop());
    let mut driver = some(rt, passes.pop());
    let mut other = set_up(rt, &bench, other);
    let let_in = arrive(rt, &bench, &mut other, len);
    look(rt, &bench, &mut driver);
    sees(rt, arrive(rt, &bench, &mut other, 9724));
    (let_in, fits_in(rt, bench, [driver, other], frame))
}

/// Checks that a frame is accepted or not, and fits or not, as the row with this name says.
fn fits_or_not(rt: &impl Hand, name: &str, (len, frame): (u16, u16), wanted: (bool, bool)) {
    let reported = fits(rt, len, frame);
    holds(rt, name, "let in", reported.0 == wanted.0);
    holds(rt, name, "fits", reported.1 == wanted.1);
}

#[test]
fn frames_that_were_let_in_fit_or_not(rt: HostRuntime) {
    for (name, len, frame, let_in, fit) in ROWS {
        fits_or_not(&rt, name, (len, frame), (let_in, fit));
    }
}
