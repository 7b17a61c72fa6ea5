//! Other programs next to two workers. A neighbour visits while the workers wait for the frames, or a stranger makes
//! random events on the queues and blocks of both workers.

use crate::bench::{is_done, word_in};
use crate::hostile::WRITES;
use crate::others::{Others, lend};
use crate::outcome::{Hand, done, empty, fail, sees};
use crate::schedule::let_reply_go;
use crate::team::{BLOCKS, Bench};
use device_lock::Pass;
use nic_device::{Arena, Buf, Event, Port, Reply};
use pmd::Gate;
use std::sync::atomic::{AtomicU64, Ordering};

/// The neighbour's number at the gate, after those of the workers and the calling thread.
const NEIGHBOUR: usize = 3;

/// The minimum and the maximum number of events that the stranger makes.
pub const LEAST: u32 = 1_000;

const MOST: u32 = 20_000;

/// What other programs do next to the workers.
#[derive(Clone, Copy)]
pub enum How {
    /// Other programs do nothing.
    Nothing,
    /// A neighbour takes the blocks that slots 5 and 6 of queue 0 name.
    Takes,
    /// A neighbour pokes slot 0 of queue 0 so that it names the block of slot 0 of queue 1.
    Redirects,
    /// A stranger makes random events.
    Meddles,
}

/// The other programs next to the workers: their events, blocks with the workers' numbers, and the blocks that they
/// took or couldn't lend.
pub struct Beside {
    how: How,
    others: Others,
    same: Arena,
    bufs: Vec<Buf>,
}

impl Beside {
    /// Creates other programs with events drawn from a seed.
    pub fn new(rt: &impl Hand, how: How, seed: u32) -> Beside {
        Beside {
            how,
            others: Others::new(rt, seed),
            same: done(rt, Arena::new(rt.alloc(), 0, 2 * BLOCKS)),
            bufs: empty(rt),
        }
    }

    /// Appends the other programs' arenas to `arenas`. Returns the blocks in hand.
    pub fn leave(self, rt: &impl Hand, arenas: &mut Vec<Arena>) -> Vec<Buf> {
        let Beside {
            how: _,
            others,
            same,
            bufs,
        } = self;
        let [first, second] = others.into_arenas();
        done(rt, arenas.push(first));
        done(rt, arenas.push(second));
        done(rt, arenas.push(same));
        bufs
    }

    /// Acts through the other programs' pass. A visit takes place after both workers have started, and no device step
    /// runs before the visit is over. The stranger continues until the workers have ended, within its minimum and
    /// maximum number of events.
    pub fn act<G: Gate>(
        &mut self,
        rt: &impl Hand,
        gate: &G,
        bench: &Bench,
        pass: &mut Pass,
        ended: &AtomicU64,
    ) {
        match self.how {
            How::Nothing => {}
            How::Takes | How::Redirects => {
                sees(rt, gate.pass(NEIGHBOUR, 0));
                self.visit(rt, bench, pass);
                gate.leave(NEIGHBOUR);
            }
            How::Meddles => {
                for number in 0..MOST {
                    if number < LEAST || ended.load(Ordering::SeqCst) == 0 {
                        self.meddle(rt, bench, pass);
                    }
                }
            }
        }
    }

    /// Makes the neighbour's visit to the queues.
    fn visit(&mut self, rt: &impl Hand, bench: &Bench, pass: &mut Pass) {
        if let How::Takes = self.how {
            self.take(rt, bench, pass, 5);
            self.take(rt, bench, pass, 6);
            sees(rt, self.bufs.len() == 2);
        } else {
            redirect(rt, bench, pass);
        }
    }

    /// The neighbour takes the block that a slot of queue 0 names.
    fn take(&mut self, rt: &impl Hand, bench: &Bench, pass: &mut Pass, slot: u32) {
        let (_at, [a, b, c, d, ..]) = descriptor(rt, bench, pass, 0, slot);
        let block = u32::from_le_bytes([a, b, c, d]) / 2048;
        let taken = reply(rt, bench, pass, Event::Take(block));
        let_reply_go(rt, &mut self.bufs, taken);
    }

    /// A write from the table `WRITES`, moved to the registers of one of the first three queues.
    fn write(&mut self, port: Port) -> Event {
        let random = &mut self.others.random;
        let (address, word, _spares) = WRITES[usize::from(random.byte() % 24)];
        let queue = u32::from(random.byte() % 3);
        Event::Write(port, address.saturating_add(64 * queue), word)
    }

    /// An event that may disturb the workers' queues and blocks.
    fn hostile_event(&mut self) -> Event {
        let block = self.others.random.next() % (2 * BLOCKS);
        let random = &mut self.others.random;
        match random.byte() % 10 {
            0 | 1 => self.write(Port::Pf),
            2 => self.write(Port::Vf(0)),
            3 => Event::Write(Port::Pf, 4 * (random.next() % 0x8000), random.next()),
            4 => Event::Take(block),
            5 => lend(&mut self.same, block),
            6 => match self.bufs.pop() {
                Some(buf) => Event::Lend(buf),
                None => Event::Take(block),
            },
            7 => Event::Poke16(2048 * block, [random.byte(); 16]),
            _more => Event::Write(Port::Pf, 0, 0), // CTRL, enables steps again
        }
    }

    /// Makes the stranger's next event.
    fn meddle(&mut self, rt: &impl Hand, bench: &Bench, pass: &mut Pass) {
        let event = if self.others.random.byte() % 16 == 0 {
            self.hostile_event()
        } else {
            self.others.event(rt)
        };
        let reply = reply(rt, bench, pass, event);
        let_reply_go(rt, &mut self.bufs, reply);
    }
}

/// The neighbour pokes slot 0 of queue 0 so that it names the block of slot 0 of queue 1.
fn redirect(rt: &impl Hand, bench: &Bench, pass: &mut Pass) {
    let (at, _named) = descriptor(rt, bench, pass, 0, 0);
    let (_at, other) = descriptor(rt, bench, pass, 1, 0);
    is_done(rt, reply(rt, bench, pass, Event::Poke16(at, other)));
}

/// Makes a call through a pass. Returns its reply.
pub fn reply(rt: &impl Hand, bench: &Bench, pass: &mut Pass, event: Event) -> Reply {
    done(rt, bench.call(rt, rt.alloc(), pass, event))
}

/// The address of a slot of a queue's receive ring, and its descriptor.
fn descriptor(
    rt: &impl Hand,
    bench: &Bench,
    pass: &mut Pass,
    queue: u32,
    slot: u32,
) -> (u32, [u8; 16]) {
    let rdbal = 0x01000 + 0x40 * (queue % 2);
    let base = word_in(rt, reply(rt, bench, pass, Event::Read(Port::Pf, rdbal)));
    let at = base.saturating_add(16 * (slot % 8));
    match reply(rt, bench, pass, Event::Peek16(at)) {
        Reply::Bytes(bytes) => (at, bytes),
        _other => fail(rt, "no descriptor"),
    }
}
