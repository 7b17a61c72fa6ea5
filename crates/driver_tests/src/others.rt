//! Random foreign events, none of which touches a driver's queue 0 or its blocks.

use crate::bench::frame_of;
use crate::outcome::{Hand, done, empty, push};
use crate::schedule::Schedule;
use nic_device::{Arena, Dir, Event, Group, Octets, Port};

/// Pseudo-random numbers, from a seed other than 0.
#[derive(Drop)]
pub struct Random {
    state: u32,
}

impl Random {
    /// Creates the generator with this seed, which must not be 0.
    pub fn of(seed: u32) -> Random {
        Random { state: seed }
    }

    /// The next number. Each of three shifts is combined with the state by exclusive or.
    pub fn next(&mut self) -> u32 {
        self.state ^= self.state.wrapping_mul(8192);
        self.state ^= self.state >> 17;
        self.state ^= self.state.wrapping_mul(32);
        self.state
    }

    /// A number below 256.
    pub fn byte(&mut self) -> u8 {
        let [_low, byte, _, _] = self.next().to_le_bytes();
        byte
    }

    /// A block number from 200 to 231.
    fn block(&mut self) -> u32 {
        200 + self.next() % 32
    }

    /// The number of a queue, possibly of one that doesn't exist.
    fn queue(&mut self) -> u16 {
        u16::from(self.byte()) % 130
    }

    /// A side of a queue.
    fn side(&mut self) -> Dir {
        if self.byte() % 2 == 0 {
            Dir::Rx
        } else {
            Dir::Tx
        }
    }
}

/// A bus address of 16 bytes in a block from 200 to 231.
fn address(random: &mut Random) -> u32 {
    let first = random.block().saturating_mul(2048);
    first.saturating_add(16 * (random.next() % 128))
}

/// If the block with this number is free in the arena, the event that lends the block; otherwise the event that takes
/// it back.
pub fn lend(arena: &mut Arena, block: u32) -> Event {
    match arena.take_at(block) {
        Some(buf) => Event::Lend(buf),
        None => Event::Take(block),
    }
}

/// An event that concerns interrupts, the link or the EEPROM.
fn other_event(random: &mut Random) -> Event {
    match random.byte() % 8 {
        0 => Event::Write(Port::Pf, 0x00808, random.next()), // EICS
        1 => Event::Write(Port::Pf, 0x00880, random.next()), // EIMS
        2 => Event::Read(Port::Pf, 0x00800), // EICR
        3 => Event::IntStep(Group::Pf),
        4 => Event::IntStep(Group::Vf(random.byte())),
        5 => Event::Link(random.byte() % 4 != 0),
        6 => Event::EepromStep,
        _more => Event::Collect,
    }
}

/// A source of foreign events: pseudo-random numbers, and two arenas with the same block numbers, 200 to 231. None of
/// these blocks belongs to the driver.
pub struct Others {
    /// The generator for the events.
    pub random: Random,
    first: Arena,
    second: Arena,
}

impl Others {
    /// Creates a source with all blocks free.
    pub fn new(rt: &impl Hand, seed: u32) -> Others {
        Others {
            random: Random::of(seed),
            first: done(rt, Arena::new(rt.alloc(), 200, 32)),
            second: done(rt, Arena::new(rt.alloc(), 200, 32)),
        }
    }

    /// An event that accesses memory other than the driver's.
    fn memory_event(&mut self) -> Event {
        let block = self.random.block();
        match self.random.byte() % 5 {
            0 => lend(&mut self.first, block),
            1 => lend(&mut self.second, block),
            2 => Event::Take(block),
            3 => Event::Peek16(address(&mut self.random)),
            _more => Event::Poke16(address(&mut self.random), [self.random.byte(); 16]),
        }
    }

    /// A foreign event that leaves the driver's queue alone.
    pub fn event(&mut self, rt: &impl Hand) -> Event {
        match self.random.byte() % 16 {
            0 | 1 | 2 => Event::RxStep,
            3 | 4 => Event::TxStep(0),
            5 => Event::TxStep(self.random.queue()),
            6 => Event::QueueStep(self.random.side(), self.random.queue()),
            7 => Event::QueueStep(self.random.side(), 0),
            8 | 9 => Event::Link(true),
            10 | 11 | 12 => {
                let frame = frame_of(rt, u16::from(self.random.byte()));
                Event::Arrive(Octets::of(frame))
            }
            13 | 14 => self.memory_event(),
            _more => other_event(&mut self.random),
        }
    }

    /// This many lists of up to five foreign events.
    pub fn lists(&mut self, rt: &impl Hand, count: usize) -> Schedule {
        let mut schedule = empty(rt);
        for _list in 0..count {
            let mut list = empty(rt);
            for _event in 0..self.random.byte() % 6 {
                push(rt, &mut list, self.event(rt));
            }
            push(rt, &mut schedule, list);
        }
        schedule
    }

    /// The two arenas of the source.
    pub fn into_arenas(self) -> [Arena; 2] {
        let Others {
            random: _,
            first,
            second,
        } = self;
        [first, second]
    }
}
