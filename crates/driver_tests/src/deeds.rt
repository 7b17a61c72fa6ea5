//! Actions that other programs take next to a driver of queue 0, as data, and the events of each action.

use crate::bench::TCP_FRAME;
use crate::outcome::{Hand, done, empty, push, some};
use nic_device::{Arena, Dir, Event, Octets, Port};

/// A location in memory that an action uses.
#[derive(Clone, Copy)]
pub enum At {
    /// The bus address 0.
    Zero,
    /// The driver's receive ring.
    Receive,
    /// The driver's transmit ring.
    Transmit,
    /// A free range in the block of the driver's receive ring.
    Free,
    /// Block 100, for a ring of the other programs.
    Ring,
    /// Block 101, for a buffer of the other programs.
    Buffer,
}

/// The bus addresses of a driver's receive ring and transmit ring.
#[derive(Clone, Copy)]
pub struct Rings(pub u32, pub u32);

impl Rings {
    /// The bus address of this location.
    pub fn address(self, at: At) -> u32 {
        let Rings(receive, transmit) = self;
        match at {
            At::Zero => 0,
            At::Receive => receive,
            At::Transmit => transmit,
            At::Free => receive.saturating_add(1024),
            At::Ring => 204_800,
            At::Buffer => 206_848,
        }
    }
}

/// An action of the other programs.
#[derive(Clone, Copy)]
pub enum Deed {
    /// They write a value to the register with this number at a port.
    Writes(Port, u32, u32),
    /// They take this many blocks, starting at a block number.
    Takes(u32, u32),
    /// They lend this many of their own blocks, starting at a block number.
    Lends(u32, u32),
    /// They fill the eight slots of a ring with one byte value.
    Fills(At, u8),
    /// They write a descriptor to the eight slots of a ring. The descriptor's first half is the address of a buffer,
    /// and its second half is this value.
    Names(At, At, u64),
    /// Queue 3 receives a TCP segment through a ring of 8 slots.
    Receives(At),
    /// Queue 3 fetches this many slots of a ring of 8 slots. If a second location is given, the ring's head is written
    /// back there.
    Sends(At, Option<At>, u32),
}

/// The events of the actions so far, the other programs' blocks that aren't lent, and the driver's rings.
pub struct Doing {
    list: Vec<Event>,
    blocks: Arena,
    rings: Rings,
}

impl Doing {
    /// Creates a value without events, with these blocks for the other programs.
    pub fn new(rt: &impl Hand, rings: Rings, (first, count): (u32, u32)) -> Doing {
        Doing {
            list: empty(rt),
            blocks: done(rt, Arena::new(rt.alloc(), first, count)),
            rings,
        }
    }

    /// Returns the events, and the blocks that these events don't lend.
    pub fn finish(self) -> (Vec<Event>, Arena) {
        let Doing {
            list,
            blocks,
            rings: _,
        } = self;
        (list, blocks)
    }

    /// Appends the events of one action.
    pub fn add(&mut self, rt: &impl Hand, deed: Deed) {
        match deed {
            Deed::Writes(port, address, word) => self.push(rt, Event::Write(port, address, word)),
            Deed::Takes(first, count) => {
                for number in 0..count {
                    self.push(rt, Event::Take(first.saturating_add(number)));
                }
            }
            Deed::Lends(first, count) => {
                for number in 0..count {
                    let block = some(rt, self.blocks.take_at(first.saturating_add(number)));
                    self.push(rt, Event::Lend(block));
                }
            }
            Deed::Fills(ring, byte) => self.poke_slots(rt, ring, [byte; 16]),
            Deed::Names(ring, buffer, half) => {
                let [a, b, c, d] = self.rings.address(buffer).to_le_bytes();
                let [e, f, g, h, i, j, k, l] = half.to_le_bytes();
                let descriptor = [a, b, c, d, 0, 0, 0, 0, e, f, g, h, i, j, k, l];
                self.poke_slots(rt, ring, descriptor);
            }
            Deed::Receives(ring) => self.receive(rt, ring),
            Deed::Sends(ring, head, slots) => self.send(rt, ring, head, slots),
        }
    }

    fn push(&mut self, rt: &impl Hand, event: Event) {
        push(rt, &mut self.list, event);
    }

    fn poke_slots(&mut self, rt: &impl Hand, ring: At, bytes: [u8; 16]) {
        let first = self.rings.address(ring);
        for slot in 0..8 {
            self.push(rt, Event::Poke16(first.saturating_add(16 * slot), bytes));
        }
    }

    fn write(&mut self, rt: &impl Hand, words: &[(u32, u32)]) {
        for (address, word) in words {
            self.push(rt, Event::Write(Port::Pf, *address, *word));
        }
    }

    fn receive(&mut self, rt: &impl Hand, ring: At) {
        let words = [
            (0x010C0, self.rings.address(ring)), // RDBAL
            (0x010C8, 128), // RDLEN
            (0x010D4, 0x0200_0002), // SRRCTL
            (0x010E8, 0x0200_0000), // RXDCTL
        ];
        self.write(rt, &words);
        self.push(rt, Event::QueueStep(Dir::Rx, 3));
        self.write(rt, &[(0x010D8, 7)]); // RDT
        let segment = done(rt, Vec::from_array(rt.alloc(), TCP_FRAME));
        self.push(rt, Event::Arrive(Octets::of(segment)));
        for _step in 0..8 {
            self.push(rt, Event::RxStep);
        }
    }

    fn send(&mut self, rt: &impl Hand, ring: At, head: Option<At>, slots: u32) {
        let back = match head {
            Some(at) => self.rings.address(at).saturating_add(1),
            None => 0,
        };
        let words = [
            (0x060C0, self.rings.address(ring)), // TDBAL
            (0x060C8, 128), // TDLEN
            (0x060F8, back), // TDWBAL
            (0x060E8, 0x0200_0000), // TXDCTL
        ];
        self.write(rt, &words);
        self.push(rt, Event::QueueStep(Dir::Tx, 3));
        self.write(rt, &[(0x060D8, slots)]); // TDT
        for _step in 0..slots {
            self.push(rt, Event::TxStep(3));
        }
    }
}
