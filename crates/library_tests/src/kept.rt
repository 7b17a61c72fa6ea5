//! Snapshots of a device and of a machine, and their restored copies.

use crate::devices::{number_of, ready, to_lend};
use crate::machines::{end_machine, machine_after, with_machine};
use crate::outcome::{done, none, put, some};
use crate::sums::{START, end_device, with_arena, with_device};
use crate::trial::{Trial, tried};
use nic_device::{Arena, Device, RestoreRefused, Snapshot};
use script_asm::{Machine, MachineSnapshot};
use std::alloc::Global;
use std::process::Abort;
use std::sync::Wait;

/// A device to take a snapshot of.
struct Keeping {
    device: Device,
    arena: Arena,
    snapshot: Option<Snapshot>,
}

impl Keeping {
    /// Creates a device to which four blocks are lent.
    fn new<R: Abort>(rt: &R, alloc: Global) -> Keeping {
        let (mut device, mut arena) = ready(rt, alloc);
        let _number = number_of(rt, done(rt, device.step(to_lend(rt, &mut arena))));
        Keeping {
            device,
            arena,
            snapshot: None,
        }
    }
}

impl Trial for Keeping {
    fn call<R: Abort + Wait>(&mut self, rt: &R, _alloc: Global) -> bool {
        match self.device.snapshot() {
            Ok(snapshot) => {
                put(rt, &mut self.snapshot, snapshot);
                true
            }
            Err(_) => false,
        }
    }

    fn picture<R: Abort>(&mut self, rt: &R) -> u64 {
        with_device(rt, START, &mut self.device)
    }

    fn end<R: Abort + Wait>(self, rt: &R, alloc: Global) -> u64 {
        let Keeping {
            device,
            arena,
            snapshot,
        } = self;
        let mut other = done(rt, Arena::new(alloc, 0, 24));
        let restored = done(rt, Device::restore(&some(rt, snapshot), &mut other));
        let (kept, again) = (
            end_device(rt, START, device, arena),
            end_device(rt, START, restored, other),
        );
        assert!(rt; kept == again, "what is restored is another device");
        kept
    }
}

#[test]
fn a_device_is_kept(rt: HostRuntime) {
    let alloc = rt.alloc();
    let subject = Keeping::new(&rt, alloc);
    let calm = Keeping::new(&rt, alloc);
    tried(&rt, alloc, subject, calm);
}

/// A device to restore with the blocks of an arena.
struct Restoring {
    snapshot: Snapshot,
    arena: Arena,
    device: Option<Device>,
}

impl Restoring {
    fn new<R: Abort>(rt: &R, alloc: Global) -> Restoring {
        let Keeping {
            device,
            arena,
            snapshot,
        } = Keeping::new(rt, alloc);
        none(rt, snapshot);
        let snapshot = done(rt, device.snapshot());
        let _sum = end_device(rt, START, device, arena);
        Restoring {
            snapshot,
            arena: done(rt, Arena::new(alloc, 0, 24)),
            device: None,
        }
    }
}

impl Trial for Restoring {
    fn call<R: Abort + Wait>(&mut self, rt: &R, _alloc: Global) -> bool {
        match Device::restore(&self.snapshot, &mut self.arena) {
            Ok(device) => {
                put(rt, &mut self.device, device);
                true
            }
            Err(RestoreRefused::OutOfMemory) => false,
            Err(RestoreRefused::NotFree(_block)) => panic!(rt; "a block isn't free"),
        }
    }

    fn picture<R: Abort>(&mut self, _rt: &R) -> u64 {
        with_arena(START, &self.arena)
    }

    fn end<R: Abort + Wait>(self, rt: &R, _alloc: Global) -> u64 {
        let Restoring {
            snapshot: _,
            arena,
            device,
        } = self;
        end_device(rt, START, some(rt, device), arena)
    }
}

#[test]
fn a_device_is_restored(rt: HostRuntime) {
    let alloc = rt.alloc();
    let subject = Restoring::new(&rt, alloc);
    let calm = Restoring::new(&rt, alloc);
    tried(&rt, alloc, subject, calm);
}

/// A machine to take a snapshot of.
struct KeepingMachine {
    machine: Machine,
    snapshot: Option<MachineSnapshot>,
}

impl KeepingMachine {
    /// Creates a machine that has received a frame.
    fn new<R: Abort>(rt: &R, alloc: Global) -> KeepingMachine {
        KeepingMachine {
            machine: machine_after(rt, alloc, 14),
            snapshot: None,
        }
    }
}

impl Trial for KeepingMachine {
    fn call<R: Abort + Wait>(&mut self, rt: &R, _alloc: Global) -> bool {
        match self.machine.snapshot() {
            Ok(snapshot) => {
                put(rt, &mut self.snapshot, snapshot);
                true
            }
            Err(_) => false,
        }
    }

    fn picture<R: Abort>(&mut self, _rt: &R) -> u64 {
        with_machine(START, &self.machine)
    }

    fn end<R: Abort + Wait>(self, rt: &R, _alloc: Global) -> u64 {
        let KeepingMachine { machine, snapshot } = self;
        let restored = done(rt, Machine::restore(&some(rt, snapshot)));
        let (kept, again) = (end_machine(rt, machine), end_machine(rt, restored));
        assert!(rt; kept == again, "what is restored is another machine");
        kept
    }
}

#[test]
fn a_machine_is_kept(rt: HostRuntime) {
    let alloc = rt.alloc();
    let subject = KeepingMachine::new(&rt, alloc);
    let calm = KeepingMachine::new(&rt, alloc);
    tried(&rt, alloc, subject, calm);
}

/// A machine to restore.
struct RestoringMachine {
    snapshot: MachineSnapshot,
    machine: Option<Machine>,
}

impl RestoringMachine {
    fn new<R: Abort>(rt: &R, alloc: Global) -> RestoringMachine {
        let machine = machine_after(rt, alloc, 14);
        let snapshot = done(rt, machine.snapshot());
        machine.finish();
        RestoringMachine {
            snapshot,
            machine: None,
        }
    }
}

impl Trial for RestoringMachine {
    fn call<R: Abort + Wait>(&mut self, rt: &R, _alloc: Global) -> bool {
        match Machine::restore(&self.snapshot) {
            Ok(machine) => {
                put(rt, &mut self.machine, machine);
                true
            }
            Err(_) => false,
        }
    }

    fn picture<R: Abort>(&mut self, _rt: &R) -> u64 {
        self.snapshot.steps()
    }

    fn end<R: Abort + Wait>(self, rt: &R, _alloc: Global) -> u64 {
        let RestoringMachine {
            snapshot: _,
            machine,
        } = self;
        end_machine(rt, some(rt, machine))
    }
}

#[test]
fn a_machine_is_restored(rt: HostRuntime) {
    let alloc = rt.alloc();
    let subject = RestoringMachine::new(&rt, alloc);
    let calm = RestoringMachine::new(&rt, alloc);
    tried(&rt, alloc, subject, calm);
}
