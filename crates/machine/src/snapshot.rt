//! Snapshots of a machine, and machines that are restored from snapshots.

ghost use Rattle.std.specs.Prelude.{◌≡◌, IfOk};
ghost use Rattle.machine.specs.Machine.{machine_at};

use crate::machine::{Machine, Status};
use crate::processor::Processor;
use card::Kept;
use nic_device::Config;
use program::{OutOfMemory, Program};
use std::alloc::Global;
use std::marker::Model;

/// A saved copy of a machine: its program and its state. A snapshot can be dropped.
#[derive(Drop)]
pub struct MachineSnapshot {
    alloc: Global,
    program: Program,
    config: Config,
    card: Kept,
    pc: u16,
    acc: u32,
    status: Status,
    steps: u64,
}

impl Model for MachineSnapshot {
    ghost use Rattle.machine.specs.Course.{Course};

    ghost Value = { Course };

    ghost use Rattle.std.specs.Coded.{codes};
    ghost use Rattle.nic_device.specs.State.{state_code};

    ghost coded = { Prim.hlevel (codes, state_code) };

    ghost use Rattle.machine.specs.Processor.{state_with, IsWhereStepsLead};

    ghost view = { λ s. record {
      program = s.program;
      config = s.config;
      state = state_with s.card s.pc s.acc s.status s.steps;
    } };

    ghost invariant = { λ s.
        IsWhereStepsLead s.program s.config (state_with s.card s.pc s.acc s.status s.steps) };
}

impl MachineSnapshot {
    /// Returns the number of steps that the machine had counted when the snapshot was taken. The snapshot contains the
    /// machine's state after that many steps.
    pub fn steps(&self) -> u64
        ensures count { result ≡ self.now.state.steps }
        ensures at { self.now.state ≡ machine_at self.now.program self.now.config result }
    {
        self.steps
    }
}

impl Machine {
    /// Returns a snapshot of the machine, or `OutOfMemory` if there is no memory for the snapshot. The machine is
    /// unchanged.
    pub fn snapshot(&self) -> Result<MachineSnapshot, OutOfMemory>
        ensures { IfOk result (λ snapshot. snapshot ≡ self.now) }
    {
        let processor = &self.processor;
        let Ok(program) = self.program.copy(processor.alloc) else {
            return Err(OutOfMemory);
        };
        let Ok(card) = processor.card.keep() else {
            return Err(OutOfMemory);
        };
        Ok(MachineSnapshot {
            alloc: processor.alloc,
            program,
            config: self.config,
            card,
            pc: processor.pc,
            acc: processor.acc,
            status: processor.status,
            steps: processor.steps,
        })
    }

    /// Creates a machine in the snapshot's state, with its own packet memory. Returns `OutOfMemory` if there is no
    /// memory for the machine.
    pub fn restore(snapshot: &MachineSnapshot) -> Result<Machine, OutOfMemory>
        ensures { IfOk result (λ machine. machine ≡ snapshot.now) }
    {
        let alloc = snapshot.alloc;
        let Ok(program) = snapshot.program.copy(alloc) else {
            return Err(OutOfMemory);
        };
        let Ok(card) = snapshot.card.card(alloc) else {
            return Err(OutOfMemory);
        };
        let processor = Processor {
            alloc,
            card,
            pc: snapshot.pc,
            acc: snapshot.acc,
            status: snapshot.status,
            steps: snapshot.steps,
        };
        Ok(Machine {
            program,
            config: snapshot.config,
            processor,
        })
    }
}
