//! Executes instructions on the device and its packet memory, and keeps the state of the machine.

ghost use Rattle.std.specs.Prelude.{◌≡◌, ◌+◌, ◌-◌, ◌*◌, ◌<◌, ◌≤◌, ◌^◌, IsFalse, IfOk, IfSome, IsSome, OnOk, OnErr, length};
ghost use Rattle.nic_device.specs.Step.{moves_block};
ghost use Rattle.machine.specs.Action.{IsPart, IsSoundAction, StaysInside};
ghost use Rattle.machine.specs.Machine.{status_at, moved_to, moved_on, stopped_as, word_read, word_in, word_peeked, acc_after, acted, next_instruction, done, executed_if_some, TakesSome, machine_step, StepTakesMemory};
ghost use Rattle.machine.specs.Processor.{state_with, state_of};
ghost use Rattle.program.specs.Listing.{IsSound};

use crate::action::{Action, Kept, LocalAction, action_of};
use crate::machine::{Status, StepAnswer};
use byteorder::{ByteOrder, LittleEndian};
use card::Card;
use nic_device::{Event, Reply, ReplyNote};
use program::{BLOCK_BYTES, Instruction, Octets, OutOfMemory, Program};
use std::alloc::Global;

/// The state of a machine without its program.
pub(crate) struct Processor {
    pub(crate) alloc: Global,
    pub(crate) card: Card,
    pub(crate) pc: u16,
    pub(crate) acc: u32,
    pub(crate) status: Status,
    pub(crate) steps: u64,
}

/// Returns the value in `acc` after a read.
fn word_read(reply: &ReplyNote, acc: u32) -> u32
    ensures { result ≡ word_read reply.now acc }
{
    match reply {
        Reply::Word(word) | Reply::Stray(word) => *word,
        _ => acc,
    }
}

/// Returns the word with this number, out of the four little-endian words in 16 bytes.
fn word_in(bytes: &[u8; 16], word: u8) -> u32
    requires { word < 4 }
    ensures { result ≡ word_in bytes.now word }
{
    LittleEndian::read_u32(&bytes[4 * usize::from(word)..])
}

/// Returns the value in `acc` after a peek.
fn word_peeked(word: u8, reply: &ReplyNote, acc: u32) -> u32
    requires { word < 4 }
    ensures { result ≡ word_peeked word reply.now acc }
{
    match reply {
        Reply::Bytes(bytes) => word_in(bytes, word),
        _ => acc,
    }
}

/// Returns the value in `acc` after this part of a reply was stored.
fn acc_after(kept: Kept, reply: &ReplyNote, acc: u32) -> u32
    requires { IsPart kept }
    ensures { result ≡ acc_after kept reply.now acc }
{
    match kept {
        Kept::Nothing => acc,
        Kept::Word => word_read(reply, acc),
        Kept::Part(word) => word_peeked(word, reply, acc),
    }
}

/// Returns the machine's status if the instruction with this number is next.
fn status_at(program: &Program, pc: u16) -> Status
    ensures { result ≡ status_at program.now pc }
{
    if pc == program.instructions() {
        Status::Ended
    } else {
        Status::Running
    }
}

impl Processor {
    /// Returns the state before the first step of a program.
    pub(crate) fn new(alloc: Global, card: Card, program: &Program) -> Processor
        ensures { state_of result ≡ state_with card 0 0 (status_at program.now 0) 0 }
    {
        Processor {
            alloc,
            card,
            pc: 0,
            acc: 0,
            status: status_at(program, 0),
            steps: 0,
        }
    }

    /// Returns the next instruction, if the machine runs and can count another step.
    fn next_instruction(&self, program: &Program) -> Option<Instruction>
        ensures next { result ≡ next_instruction program.now (state_of self.now) }
        ensures inside { IsSome result → self.now.pc < 4096 }
        ensures counts { IsSome result → self.now.steps < 2 ^ 64 - 1 }
        ensures sound { IfSome result (IsSound program.now.strings (length program.now.instructions)) }
    {
        if self.status != Status::Running || self.steps == u64::MAX {
            return None;
        }
        if self.pc >= program.instructions() {
            return None;
        }
        program.instruction(self.pc)
    }

    /// Counts a step and continues at the instruction with this number.
    fn move_to(&mut self, program: &Program, pc: u16)
        requires { self.old.steps < 2 ^ 64 - 1 }
        ensures { state_of self.new ≡ moved_to program.now (state_of self.old) pc }
    {
        self.pc = pc;
        self.status = status_at(program, pc);
        self.steps += 1;
    }

    /// Counts a step and advances to the next instruction.
    fn move_on(&mut self, program: &Program)
        requires inside { self.old.pc < 4096 }
        requires counts { self.old.steps < 2 ^ 64 - 1 }
        ensures { state_of self.new ≡ moved_on program.now (state_of self.old) }
    {
        self.move_to(program, self.pc + 1);
    }

    /// Counts a step and stops the machine with this status.
    fn stop_as(&mut self, status: Status)
        requires { self.old.steps < 2 ^ 64 - 1 }
        ensures { state_of self.new ≡ stopped_as (state_of self.old) status }
    {
        self.status = status;
        self.steps += 1;
    }

    /// Executes an action that runs no event.
    fn act(&mut self, program: &Program, action: LocalAction)
        requires inside { self.old.pc < 4096 }
        requires counts { self.old.steps < 2 ^ 64 - 1 }
        ensures { state_of self.new ≡ acted program.now (state_of self.old) action }
    {
        match action {
            LocalAction::Expect(want, mask) => {
                let have = self.acc & mask;
                if have == want {
                    self.move_on(program);
                } else {
                    self.stop_as(Status::Failed {
                        pc: self.pc,
                        have,
                        want,
                    });
                }
            }
            LocalAction::And(word) => {
                self.acc &= word;
                self.move_on(program);
            }
            LocalAction::JumpIfEqual(word, target) => {
                let next = if self.acc == word {
                    target
                } else {
                    self.pc + 1
                };
                self.move_to(program, next);
            }
            LocalAction::JumpUnlessEqual(word, target) => {
                let next = if self.acc == word {
                    self.pc + 1
                } else {
                    target
                };
                self.move_to(program, next);
            }
            LocalAction::Jump(target) => self.move_to(program, target),
            LocalAction::Halt => self.stop_as(Status::Ended),
        }
    }

    /// Runs an event that moves no block, stores the part `kept` of the reply in `acc`, and advances.
    fn make(
        &mut self,
        program: &Program,
        event: Event,
        kept: Kept,
    ) -> Result<StepAnswer, OutOfMemory>
        requires none { IsFalse (moves_block event) }
        requires part { IsPart kept }
        requires inside { self.old.pc < 4096 }
        requires counts { self.old.steps < 2 ^ 64 - 1 }
        ensures answer { IfOk result
            (λ answer. answer ≡ (done program.now (state_of self.old) (Action.Make event kept)).answer) }
        ensures state { OnOk result
            (state_of self.new ≡ (done program.now (state_of self.old) (Action.Make event kept)).state) }
        ensures unchanged { OnErr result (state_of self.new ≡ state_of self.old) }
        ensures memory { OnErr result (TakesSome (state_of self.old) (Action.Make event kept)) }
    {
        let Ok(reply) = self.card.make(event) else {
            return Err(OutOfMemory);
        };
        self.acc = acc_after(kept, &reply, self.acc);
        self.move_on(program);
        Ok(StepAnswer::Made(reply))
    }

    /// Lends a block and advances.
    fn lend(&mut self, program: &Program, block: u16) -> Result<StepAnswer, OutOfMemory>
        requires inside { self.old.pc < 4096 }
        requires counts { self.old.steps < 2 ^ 64 - 1 }
        ensures answer { IfOk result
            (λ answer. answer ≡ (done program.now (state_of self.old) (Action.Lend block)).answer) }
        ensures state { OnOk result
            (state_of self.new ≡ (done program.now (state_of self.old) (Action.Lend block)).state) }
        ensures unchanged { OnErr result (state_of self.new ≡ state_of self.old) }
        ensures memory { OnErr result (TakesSome (state_of self.old) (Action.Lend block)) }
    {
        match self.card.lend(u32::from(block)) {
            Ok(true) => {
                self.move_on(program);
                Ok(StepAnswer::Made(Reply::Done))
            }
            Ok(false) => {
                self.move_on(program);
                Ok(StepAnswer::NoBlock)
            }
            Err(_) => Err(OutOfMemory),
        }
    }

    /// Takes a block back and advances.
    fn take_back(&mut self, program: &Program, block: u16) -> Result<StepAnswer, OutOfMemory>
        requires inside { self.old.pc < 4096 }
        requires counts { self.old.steps < 2 ^ 64 - 1 }
        ensures answer { IfOk result
            (λ answer. answer ≡ (done program.now (state_of self.old) (Action.TakeBack block)).answer) }
        ensures state { OnOk result
            (state_of self.new ≡ (done program.now (state_of self.old) (Action.TakeBack block)).state) }
        ensures unchanged { OnErr result (state_of self.new ≡ state_of self.old) }
    {
        let Ok(room) = Vec::with_capacity(self.alloc, BLOCK_BYTES) else {
            return Err(OutOfMemory);
        };
        let reply = self.card.take_noted(u32::from(block), room);
        self.move_on(program);
        Ok(StepAnswer::Made(reply))
    }

    /// Delivers a copy of a data string as a frame and advances.
    fn arrive(&mut self, program: &Program, number: u16) -> Result<StepAnswer, OutOfMemory>
        requires inside { self.old.pc < 4096 }
        requires counts { self.old.steps < 2 ^ 64 - 1 }
        ensures answer { IfOk result
            (λ answer. answer ≡ (done program.now (state_of self.old) (Action.Arrive number)).answer) }
        ensures state { OnOk result
            (state_of self.new ≡ (done program.now (state_of self.old) (Action.Arrive number)).state) }
        ensures unchanged { OnErr result (state_of self.new ≡ state_of self.old) }
    {
        let Ok(frame) = Vec::from_slice(self.alloc, program.string(number)) else {
            return Err(OutOfMemory);
        };
        self.make(program, Event::Arrive(Octets::of(frame)), Kept::Nothing)
    }

    /// Executes an instruction's action, and advances to the next instruction unless the program ends or fails here.
    fn execute(&mut self, program: &Program, action: Action) -> Result<StepAnswer, OutOfMemory>
        requires sound { IsSoundAction program.now action }
        requires inside { self.old.pc < 4096 }
        requires counts { self.old.steps < 2 ^ 64 - 1 }
        ensures answer { IfOk result (λ answer. answer ≡ (done program.now (state_of self.old) action).answer) }
        ensures state { OnOk result (state_of self.new ≡ (done program.now (state_of self.old) action).state) }
        ensures unchanged { OnErr result (state_of self.new ≡ state_of self.old) }
        ensures memory { OnErr result (TakesSome (state_of self.old) action) }
    {
        match action {
            Action::Make(event, kept) => self.make(program, event, kept),
            Action::Lend(block) => self.lend(program, block),
            Action::TakeBack(block) => self.take_back(program, block),
            Action::Arrive(number) => self.arrive(program, number),
            Action::Local(local) => {
                self.act(program, local);
                Ok(StepAnswer::Local)
            }
        }
    }

    /// Executes the next instruction. See `Machine::step`.
    #[tactic(auto, unfolding(crate::specs::Machine::machine_step))]
    pub(crate) fn step(&mut self, program: &Program) -> Result<StepAnswer, OutOfMemory>
        ensures answer { IfOk result (λ answer. answer ≡ (machine_step program.now (state_of self.old)).answer) }
        ensures state { OnOk result (state_of self.new ≡ (machine_step program.now (state_of self.old)).state) }
        ensures unchanged { OnErr result (state_of self.new ≡ state_of self.old) }
        ensures memory { OnErr result (StepTakesMemory program.now (state_of self.old)) }
    {
        match self.next_instruction(program) {
            None => Ok(StepAnswer::Stopped),
            Some(instruction) => self.execute(program, action_of(program, instruction)),
        }
    }
}
