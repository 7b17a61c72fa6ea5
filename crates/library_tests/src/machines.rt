//! The machine that runs scripts, with allocations that fail.

use crate::outcome::{done, none, put, some};
use crate::sums::{START, with};
use crate::trial::{Trial, tried};
use nic_device::{Config, NewFault};
use script_asm::{Machine, NewRefused, OutOfMemory, Program, StepAnswer, assemble};
use std::alloc::Global;
use std::process::Abort;
use std::sync::Wait;

/// A script that lends a block, takes it back, accepts a frame and receives it.
const SCRIPT: &str = "data f 000102030405060708090a0b0c0d0e0f000102030405060708090a0b0c0d0e0f\
000102030405060708090a0b0c0d0e0f000102030405060708090a0b
data d 00080000000000000000000000000000
w RXCTRL 1
w FCTRL 0x700
w RDLEN 128
w SRRCTL 0x02000002
w RXDCTL 0x02000000
qstep rx 0
lend 0
lend 1
lend 2
unlend 2
poke 0 d
w RDT 1
arrive f
rx
peek 0 3
";

/// One virtual function, and room for eight frames.
pub const CONFIG: Config = Config { vfs: 1, fifo: 8 };

/// Returns the program of the script.
pub fn program<R: Abort>(rt: &R, alloc: Global) -> Program {
    done(rt, assemble(alloc, SCRIPT))
}

/// Adds to a checksum what a machine's public calls show.
pub fn with_machine(sum: u64, machine: &Machine) -> u64 {
    let sum = with(with(sum, machine.steps()), u64::from(machine.pc()));
    let mut sum = with(sum, u64::from(machine.acc()));
    for number in 0..0x8000u32 {
        match machine.peek_register(4 * number) {
            Some(word) => sum = with(sum, u64::from(word)),
            None => {}
        }
    }
    sum
}

/// A value created from a program.
pub trait OfProgram {
    /// Creates the value from a program. A refusal returns the program.
    fn of(alloc: Global, program: Program) -> Result<Self, NewRefused>;

    /// Runs the script to its end, and returns a checksum of the results.
    fn to_end<R: Abort>(self, rt: &R) -> u64;
}

/// A value to create from a program.
pub struct Building<M> {
    program: Option<Program>,
    made: Option<M>,
}

impl<M> Building<M> {
    /// Creates the case for the script's program.
    pub fn new<R: Abort>(rt: &R, alloc: Global) -> Building<M> {
        Building {
            program: Some(program(rt, alloc)),
            made: None,
        }
    }
}

impl<M: OfProgram> Trial for Building<M> {
    fn call<R: Abort + Wait>(&mut self, rt: &R, alloc: Global) -> bool {
        match M::of(alloc, some(rt, self.program.take())) {
            Ok(made) => {
                put(rt, &mut self.made, made);
                true
            }
            Err(NewRefused { fault, program }) => {
                assert!(rt; fault == NewFault::OutOfMemory);
                put(rt, &mut self.program, program);
                false
            }
        }
    }

    fn picture<R: Abort>(&mut self, _rt: &R) -> u64 {
        match &self.program {
            Some(program) => u64::from(program.instructions()),
            None => 0,
        }
    }

    fn end<R: Abort + Wait>(self, rt: &R, _alloc: Global) -> u64 {
        let Building { program: _, made } = self;
        some(rt, made).to_end(rt)
    }
}

impl OfProgram for Machine {
    fn of(alloc: Global, program: Program) -> Result<Machine, NewRefused> {
        Machine::new(alloc, program, CONFIG)
    }

    fn to_end<R: Abort>(self, rt: &R) -> u64 {
        end_machine(rt, self)
    }
}

#[test]
fn a_machine_is_made(rt: HostRuntime) {
    let alloc = rt.alloc();
    let subject = Building::<Machine>::new(&rt, alloc);
    let calm = Building::<Machine>::new(&rt, alloc);
    tried(&rt, alloc, subject, calm);
}

/// Returns a machine that has taken this many steps of the script.
pub fn machine_after<R: Abort>(rt: &R, alloc: Global, steps: u32) -> Machine {
    let mut machine = match Machine::new(alloc, program(rt, alloc), CONFIG) {
        Ok(machine) => machine,
        Err(_refused) => panic!(rt; "a machine"),
    };
    for _step in 0..steps {
        let _answer = done(rt, machine.step());
    }
    machine
}

/// Runs the rest of the script. Returns a checksum of each step and of the final state.
pub fn end_machine<R: Abort>(rt: &R, machine: Machine) -> u64 {
    let (mut machine, mut sum) = (machine, START);
    for _step in 0..20 {
        let _answer = done(rt, machine.step());
        sum = with(with(sum, machine.steps()), u64::from(machine.acc()));
    }
    let sum = with_machine(sum, &machine);
    machine.finish();
    sum
}

/// A machine to take one step.
struct Stepping {
    machine: Machine,
}

impl Trial for Stepping {
    fn call<R: Abort + Wait>(&mut self, rt: &R, _alloc: Global) -> bool {
        match self.machine.step() {
            Ok(StepAnswer::Made(_reply)) => true,
            Ok(StepAnswer::Local | StepAnswer::NoBlock | StepAnswer::Stopped) => {
                panic!(rt; "no event")
            }
            Err(OutOfMemory) => false,
        }
    }

    fn picture<R: Abort>(&mut self, _rt: &R) -> u64 {
        with_machine(START, &self.machine)
    }

    fn end<R: Abort + Wait>(self, rt: &R, _alloc: Global) -> u64 {
        let Stepping { machine } = self;
        end_machine(rt, machine)
    }
}

/// Tests the step after this many earlier steps.
fn steps<R: Abort + Wait + Print>(rt: &R, alloc: Global, steps: u32) {
    let subject = Stepping {
        machine: machine_after(rt, alloc, steps),
    };
    let calm = Stepping {
        machine: machine_after(rt, alloc, steps),
    };
    tried(rt, alloc, subject, calm);
}

#[test]
fn a_machine_lends(rt: HostRuntime) {
    steps(&rt, rt.alloc(), 6);
}

#[test]
fn a_machine_takes_back(rt: HostRuntime) {
    steps(&rt, rt.alloc(), 9);
}

#[test]
fn a_frame_arrives_at_a_machine(rt: HostRuntime) {
    steps(&rt, rt.alloc(), 12);
}
