//! The machine: a program, its device and its packet memory.

ghost use Rattle.std.specs.Prelude.{◌≡◌, ◌≢◌, ◌+◌, ◌-◌, ◌^◌, ◌<◌, ◌≤◌, ◌↔◌, ◌⊎◌, IfOk, IfErr, OnOk, OnErr, Ok};
ghost use Rattle.std.specs.Result.{IsErrAnd};
ghost use Rattle.nic_device.specs.Config.{IsBadFifo};
ghost use Rattle.nic_device.specs.Step.{step_of, reported_word};
ghost use Rattle.machine.specs.Machine.{start_of, machine_step, machine_at, StepTakesMemory};

use crate::processor::Processor;
use card::Card;
use nic_device::{Config, Event, MAX_VFS, NewFault, Port, ReplyNote};
use program::{OutOfMemory, Program};
use std::alloc::Global;
use std::marker::Model;

/// The number of blocks in a machine's packet memory, numbered from 0.
pub const BLOCKS: u32 = 256;

/// Whether a machine runs, has ended, or has failed.
#[derive(Clone, Copy, Debug, PartialEq, Eq)]
pub enum Status {
    /// The next step executes an instruction.
    Running,
    /// The program has executed `halt`, or has reached its end.
    Ended,
    /// An `expect` instruction found a different value in `acc`.
    Failed {
        /// The number of the `expect` instruction, counted from 0.
        pc: u16,
        /// The value in `acc`, limited to the bits of the mask.
        have: u32,
        /// The expected value.
        want: u32,
    },
}

/// The result of a machine's step.
#[derive(Debug, Drop)]
pub enum StepAnswer {
    /// The step ran a device event, which had this reply.
    Made(ReplyNote),
    /// The step executed an instruction that runs no event.
    Local,
    /// The step ran no event, because the block to be lent isn't free in the machine's arena.
    NoBlock,
    /// The step did nothing, because the machine has ended or failed, or has counted 2^64 - 1 steps.
    Stopped,
}

/// The error of `Machine::new`: why the machine couldn't be created, and the program.
#[derive(Debug, Drop)]
pub struct NewRefused {
    /// Why the machine's device couldn't be created.
    pub fault: NewFault,
    /// The program that was passed, unchanged.
    pub program: Program,
}

/// A machine: a program, a device with an arena of blocks 0 to 255, and the progress of the program. After n counted
/// steps, the state of the machine is `machine_at` n. A machine can't be dropped; end it with `finish` or
/// `into_program`.
pub struct Machine {
    pub(crate) program: Program,
    pub(crate) config: Config,
    pub(crate) processor: Processor,
}

impl Model for Machine {
    ghost use Rattle.machine.specs.Course.{Course};

    ghost Value = { Course };

    ghost use Rattle.std.specs.Coded.{codes};
    ghost use Rattle.nic_device.specs.State.{state_code};

    ghost coded = { Prim.hlevel (codes, state_code) };

    ghost use Rattle.machine.specs.Processor.{state_of, IsWhereStepsLead};

    ghost view = { λ m. record { program = m.program; config = m.config; state = state_of m.processor } };

    ghost invariant = { λ m. IsWhereStepsLead m.program m.config (state_of m.processor) };
}

impl Machine {
    /// Creates a machine with a new device of this configuration. All 256 blocks are free, and no step has run.
    ///
    /// Errors: `TooManyVfs` and `Fifo`, each exactly if `Device::new` returns it for the configuration; or
    /// `OutOfMemory`. The error contains the program, unchanged.
    pub fn new(alloc: Global, program: Program, config: Config) -> Result<Machine, NewRefused>
        ensures made { IfOk result
            (λ machine. machine ≡ record { program = program; config = config; state = start_of program config }) }
        ensures back { IfErr result (λ refused. refused.program ≡ program) }
        ensures too_many_vfs { IsErrAnd result (λ refused. refused.fault ≡ NewFault.TooManyVfs)
            ↔ (MAX_VFS < config.vfs) }
        ensures fifo { IsErrAnd result (λ refused. refused.fault ≡ NewFault.Fifo)
            ↔ ((config.vfs ≤ MAX_VFS) × IsBadFifo config.fifo) }
    {
        let card = match Card::new(alloc, config, BLOCKS) {
            Ok(card) => card,
            Err(fault) => return Err(NewRefused { fault, program }),
        };
        let processor = Processor::new(alloc, card, &program);
        Ok(Machine {
            program,
            config,
            processor,
        })
    }

    /// Executes one instruction. The step runs a device event and stores the value in the reply, does something without
    /// an event, or reports that the block to lend isn't free. If the machine isn't running, or has counted 2^64 - 1
    /// steps, returns `Stopped`, counts no step and changes nothing. After `OutOfMemory` the machine is unchanged, and
    /// you can retry the step. Memory can run out in only four cases: when a free block is lent, when a block is taken
    /// back, when a frame arrives, and in a transmit step that isn't idle, for a queue below 128.
    pub fn step(&mut self) -> Result<StepAnswer, OutOfMemory>
        ensures answer { IfOk result (λ answer. answer ≡ (machine_step self.old.program self.old.state).answer) }
        ensures state { OnOk result
            (self.new ≡ record self.old { state = (machine_step self.old.program self.old.state).state }) }
        ensures unchanged { OnErr result (self.new ≡ self.old) }
        ensures memory { OnErr result (StepTakesMemory self.old.program self.old.state) }
    {
        self.processor.step(&self.program)
    }

    /// Returns the number of counted steps. The machine's state is the one after this many steps of its program on a
    /// new device.
    pub fn steps(&self) -> u64
        ensures count { result ≡ self.now.state.steps }
        ensures at { self.now.state ≡ machine_at self.now.program self.now.config result }
    {
        self.processor.steps
    }

    /// Returns the number of the next instruction, counted from 0, or the number of instructions if the machine is at
    /// the program's end. `halt` and a failing `expect` don't advance this number.
    pub fn pc(&self) -> u16
        ensures { result ≡ self.now.state.pc }
    {
        self.processor.pc
    }

    /// Returns the accumulator: the last value that was read or peeked, even if the read reached no register, with each
    /// later `and` applied. The accumulator is 0 before the first read or peek.
    pub fn acc(&self) -> u32
        ensures { result ≡ self.now.state.acc }
    {
        self.processor.acc
    }

    /// Whether the machine runs, has ended, or has failed.
    pub fn status(&self) -> Status
        ensures { result ≡ self.now.state.status }
    {
        self.processor.status
    }

    /// Returns what a read of this address through the physical function would return, without the read's side effects,
    /// or `None` if the address has no register.
    pub fn peek_register(&self, address: u32) -> Option<u32>
        ensures { result ≡ reported_word (step_of self.now.state.device (Event.Read Port.Pf address)).reply }
    {
        self.processor.card.peek(Port::Pf, address)
    }

    /// Returns what a read of this offset through a virtual function would return, without the read's side effects, or
    /// `None` if the offset has no register.
    pub fn peek_vf(&self, function: u8, offset: u32) -> Option<u32>
        ensures { result ≡ reported_word (step_of self.now.state.device (Event.Read (Port.Vf function) offset)).reply }
    {
        self.processor.card.peek(Port::Vf(function), offset)
    }

    /// Returns the program that the machine runs.
    pub fn program(&self) -> &Program
        ensures { result.now ≡ self.now.program }
    {
        &self.program
    }

    /// Closes the machine and returns its program. Frees the machine's packet memory, including lent blocks.
    pub fn into_program(self) -> Program
        ensures { result ≡ self.program }
    {
        let Machine {
            program,
            config: _,
            processor,
        } = self;
        let Processor {
            alloc: _,
            card,
            pc: _,
            acc: _,
            status: _,
            steps: _,
        } = processor;
        drop(card);
        program
    }

    /// Closes the machine and frees its program and its packet memory, including lent blocks.
    pub fn finish(self) {
        let _program = self.into_program();
    }
}
