//! The setup of a device, and a driver's calls.

use crate::devices::{frame, number_of};
use crate::outcome::{done, none, put, some};
use crate::sums::{START, end_device, with, with_arena, with_bytes};
use crate::trial::{Trial, tried};
use device_lock::CallFault;
use nic_device::{Arena, Config, Device, Event, Mode, Port};
use pmd::{
    Direct, Home, Nic, Packet, Pmd, PmdFault, Record, Rest, Setup, StartRefused, StopRefused,
    TxAnswer, TxFault, pf_setup,
};
use std::alloc::Global;
use std::process::Abort;
use std::sync::Wait;

/// A promiscuous setup with neither pools nor hashing.
pub const PLAIN: Setup = Setup {
    mode: Mode::Off,
    mrqc: 0,
    key: [0x6D; 40],
    reta: [0; 128],
    promiscuous: true,
    frame: 1518,
};

/// Returns a new device that the test owns.
fn direct<R: Abort>(rt: &R, alloc: Global) -> Direct {
    let device = done(rt, Device::new(alloc, Config { vfs: 0, fifo: 64 }));
    Direct::new(alloc, device, 0)
}

/// A device to set up.
struct Setting {
    nic: Direct,
    arena: Arena,
}

impl Setting {
    fn new<R: Abort>(rt: &R, alloc: Global) -> Setting {
        Setting {
            nic: direct(rt, alloc),
            arena: done(rt, Arena::new(alloc, 0, 1)),
        }
    }
}

impl Trial for Setting {
    fn call<R: Abort + Wait>(&mut self, rt: &R, alloc: Global) -> bool {
        match pf_setup(alloc, &mut self.nic, &PLAIN) {
            Ok(()) => true,
            Err(fault) => {
                is_for_memory(rt, fault);
                false
            }
        }
    }

    fn picture<R: Abort>(&mut self, _rt: &R) -> u64 {
        0
    }

    fn end<R: Abort + Wait>(self, rt: &R, _alloc: Global) -> u64 {
        let Setting { nic, arena } = self;
        let (device, _calls) = nic.finish();
        end_device(rt, START, device, arena)
    }
}

#[test]
fn a_device_is_set_up(rt: HostRuntime) {
    let alloc = rt.alloc();
    let subject = Setting::new(&rt, alloc);
    let calm = Setting::new(&rt, alloc);
    tried(&rt, alloc, subject, calm);
}

/// Checks that a driver's call was refused for lack of memory.
fn is_for_memory<R: Abort>(rt: &R, fault: PmdFault) {
    match fault {
        PmdFault::Call(CallFault::OutOfMemory(())) => {}
        _other => panic!(rt; "another fault"),
    }
}

/// Returns the arena of a stopped driver, which must not have lost a block.
pub fn arena_of<R: Abort>(rt: &R, home: Home) -> Arena {
    let Home {
        arena,
        lost,
        handed: _,
        accepted: _,
    } = home;
    assert!(rt; lost == 0);
    arena
}

/// Puts the free list of an arena into a fixed order. All blocks must be free. Each block is taken and given back, in
/// ascending order, so the next blocks taken don't depend on earlier use.
fn in_turn<R: Abort>(rt: &R, arena: Arena) -> Arena {
    let mut arena = arena;
    for block in 0..32 {
        let buf = some(rt, arena.take_at(block));
        done(rt, arena.give(buf));
    }
    arena
}

/// A driver call.
#[derive(Clone, Copy, PartialEq, Eq)]
enum Kind {
    Start,
    Rx,
    Tx,
    Reap,
    Stop,
}

/// A driver of queue 0 that makes a call, with the packet to send or the received packet. While the driver isn't
/// started, its arena is kept here.
struct Driving {
    kind: Kind,
    nic: Direct,
    arena: Option<Arena>,
    pmd: Option<Pmd>,
    packet: Option<Packet>,
    home: Option<Home>,
}

impl Driving {
    /// Creates a driver that is ready for the call.
    fn new<R: Abort>(rt: &R, alloc: Global, kind: Kind) -> Driving {
        let mut nic = direct(rt, alloc);
        done(rt, pf_setup(alloc, &mut nic, &PLAIN));
        let mut driving = Driving {
            kind,
            nic,
            arena: Some(done(rt, Arena::new(alloc, 0, 32))),
            pmd: None,
            packet: None,
            home: None,
        };
        if kind != Kind::Start {
            assert!(rt; driving.start(rt, alloc));
            driving.ready(rt, alloc);
        }
        driving
    }

    /// Delivers a frame, or adds a packet to send, depending on the call.
    fn ready<R: Abort>(&mut self, rt: &R, alloc: Global) {
        let mut pmd = some(rt, self.pmd.take());
        match self.kind {
            Kind::Rx | Kind::Stop => {
                let arrived = self.nic.call(alloc, Event::Arrive(frame(rt, alloc)));
                assert!(rt; number_of(rt, done(rt, arrived)) == 1);
            }
            Kind::Tx => put(rt, &mut self.packet, some(rt, pmd.packet(60))),
            Kind::Reap => {
                let packet = some(rt, pmd.packet(60));
                match done(rt, pmd.tx(alloc, &mut self.nic, packet)) {
                    TxAnswer::Taken => {}
                    TxAnswer::RingFull(_packet) => panic!(rt; "the ring is full"),
                }
            }
            Kind::Start => {}
        }
        put(rt, &mut self.pmd, pmd);
    }

    /// Starts the driver. After a refused start is stopped, its arena is returned with all blocks free.
    fn start<R: Abort>(&mut self, rt: &R, alloc: Global) -> bool {
        let arena = in_turn(rt, some(rt, self.arena.take()));
        match Pmd::start(alloc, &mut self.nic, Port::Pf, 0, 8, 1518, arena) {
            Ok(pmd) => {
                put(rt, &mut self.pmd, pmd);
                true
            }
            Err(StartRefused { fault, rest }) => {
                is_for_memory(rt, fault);
                let home = match rest {
                    Rest::Home(home) => home,
                    Rest::Running(pmd) => done(rt, pmd.stop(alloc, &mut self.nic)),
                };
                let arena = arena_of(rt, home);
                assert!(rt; arena.free_blocks() == 32);
                put(rt, &mut self.arena, arena);
                false
            }
        }
    }

    /// Receives a packet. A refused call loses no packet: the next call continues.
    fn rx<R: Abort>(&mut self, rt: &R, alloc: Global, pmd: &mut Pmd) -> bool {
        match pmd.rx(alloc, &mut self.nic) {
            Ok(Some(packet)) => {
                put(rt, &mut self.packet, packet);
                true
            }
            Ok(None) => panic!(rt; "no packet"),
            Err(fault) => {
                is_for_memory(rt, fault);
                false
            }
        }
    }

    /// Sends the packet. After a refusal, a packet that isn't returned was accepted.
    fn tx<R: Abort>(&mut self, rt: &R, alloc: Global, pmd: &mut Pmd) -> bool {
        let Some(packet) = self.packet.take() else {
            return true;
        };
        match pmd.tx(alloc, &mut self.nic, packet) {
            Ok(TxAnswer::Taken) => true,
            Ok(TxAnswer::RingFull(_packet)) => panic!(rt; "the ring is full"),
            Err(TxFault { fault, packet }) => {
                is_for_memory(rt, fault);
                assert!(rt; pmd.accepted().len() == usize::from(packet.is_none()));
                if let Some(packet) = packet {
                    put(rt, &mut self.packet, packet);
                }
                false
            }
        }
    }

    /// Reaps. Afterwards no packet is outstanding.
    fn reap<R: Abort>(&mut self, rt: &R, alloc: Global, pmd: &mut Pmd) -> bool {
        match pmd.reap(alloc, &mut self.nic) {
            Ok(reaped) => reaped.idle,
            Err(fault) => {
                is_for_memory(rt, fault);
                false
            }
        }
    }

    /// Stops the driver. A refused stop returns the driver.
    fn stop<R: Abort>(&mut self, rt: &R, alloc: Global) -> bool {
        match some(rt, self.pmd.take()).stop(alloc, &mut self.nic) {
            Ok(home) => {
                put(rt, &mut self.home, home);
                true
            }
            Err(StopRefused { fault, pmd }) => {
                is_for_memory(rt, fault);
                put(rt, &mut self.pmd, pmd);
                false
            }
        }
    }

    /// Makes one of the calls on a started driver.
    fn drive<R: Abort>(&mut self, rt: &R, alloc: Global) -> bool {
        let mut pmd = some(rt, self.pmd.take());
        let made = match self.kind {
            Kind::Rx => self.rx(rt, alloc, &mut pmd),
            Kind::Tx => self.tx(rt, alloc, &mut pmd),
            Kind::Start | Kind::Reap | Kind::Stop => self.reap(rt, alloc, &mut pmd),
        };
        put(rt, &mut self.pmd, pmd);
        made
    }

    /// Releases a received packet, lets the device transmit all accepted packets, and stops the driver.
    fn settle<R: Abort>(&mut self, rt: &R, alloc: Global) {
        let mut pmd = some(rt, self.pmd.take());
        if let Some(packet) = self.packet.take() {
            done(rt, pmd.release(packet));
        }
        for _turn in 0..4 {
            let _reaped = done(rt, pmd.reap(alloc, &mut self.nic));
        }
        put(rt, &mut self.pmd, pmd);
        assert!(rt; self.stop(rt, alloc));
    }
}

/// Adds a driver's records to a checksum.
fn with_records(sum: u64, records: &[Record]) -> u64 {
    let mut sum = with(sum, records.len() as u64);
    for record in records {
        sum = with_bytes(sum, record.bytes());
    }
    sum
}

impl Trial for Driving {
    fn call<R: Abort + Wait>(&mut self, rt: &R, alloc: Global) -> bool {
        match self.kind {
            Kind::Start => self.start(rt, alloc),
            Kind::Stop => self.stop(rt, alloc),
            Kind::Rx | Kind::Tx | Kind::Reap => self.drive(rt, alloc),
        }
    }

    fn picture<R: Abort>(&mut self, _rt: &R) -> u64 {
        match &self.arena {
            Some(arena) => with_arena(START, arena),
            None => 0,
        }
    }

    fn end<R: Abort + Wait>(self, rt: &R, alloc: Global) -> u64 {
        let mut driving = self;
        if driving.pmd.is_some() {
            driving.settle(rt, alloc);
        }
        let Driving {
            kind: _,
            nic,
            arena,
            pmd,
            packet,
            home,
        } = driving;
        none(rt, arena);
        none(rt, pmd);
        none(rt, packet);
        let Home {
            arena,
            lost,
            handed,
            accepted,
        } = some(rt, home);
        assert!(rt; lost == 0);
        let sum = with_records(with_records(START, handed.as_slice()), accepted.as_slice());
        let (device, _calls) = nic.finish();
        end_device(rt, sum, device, arena)
    }
}

/// Tests a driver call.
fn drives<R: Abort + Wait + Print>(rt: &R, alloc: Global, kind: Kind) {
    let subject = Driving::new(rt, alloc, kind);
    let calm = Driving::new(rt, alloc, kind);
    tried(rt, alloc, subject, calm);
}

#[test]
fn a_driver_starts(rt: HostRuntime) {
    drives(&rt, rt.alloc(), Kind::Start);
}

#[test]
fn a_driver_receives(rt: HostRuntime) {
    drives(&rt, rt.alloc(), Kind::Rx);
}

#[test]
fn a_driver_sends(rt: HostRuntime) {
    drives(&rt, rt.alloc(), Kind::Tx);
}

#[test]
fn a_driver_reaps(rt: HostRuntime) {
    drives(&rt, rt.alloc(), Kind::Reap);
}

#[test]
fn a_driver_stops(rt: HostRuntime) {
    drives(&rt, rt.alloc(), Kind::Stop);
}
