//! The debugger: a machine that has breakpoints and can go back to earlier steps.

ghost use Rattle.std.specs.Prelude.{◌≡◌, ◌≢◌, ◌<◌, ◌≤◌, ◌↔◌, [], Err, IfOk, IfErr};
ghost use Rattle.std.specs.Result.{IsErrAnd};
ghost use Rattle.debugger.specs.Commands.{command_of, LeftBy, Does};
ghost use Rattle.debugger.specs.Session.{view_of};
ghost use Rattle.nic_device.specs.Config.{IsBadFifo};

use crate::breakpoints::{Breakpoints, clear_break, set_break};
use crate::command::{Command, DebugRefusal, View};
use crate::running::{replay, run_on};
use crate::snapshots::Snapshots;
use crate::source::object_of;
use machine::{Machine, NewRefused};
use nic_device::{Config, MAX_VFS, NewFault};
use program::{OutOfMemory, Program};
use std::alloc::Global;
use std::marker::Model;
use std::mem;

/// A machine that has breakpoints and can go back to earlier steps. To go back, a debugger keeps its program, its
/// configuration and, if there is enough memory, snapshots of the machine. It keeps one snapshot at each of the first
/// 64 multiples of 256 steps, and one later snapshot, which is replaced as the machine advances. A debugger can't be
/// dropped: `finish` ends it.
pub struct Debugger {
    alloc: Global,
    object: Vec<u8>,
    config: Config,
    machine: Machine,
    breakpoints: Breakpoints,
    snapshots: Snapshots,
}

impl Model for Debugger {
    ghost use Rattle.debugger.specs.Session.{Session, CanBeReplayed};
    ghost use Rattle.debugger.specs.Snapshots.{AreReplayed};

    ghost Value = { Session };

    ghost view = { λ d. record {
      program = d.machine.program;
      config = d.machine.config;
      steps = d.machine.state.steps;
      breakpoints =
          d.breakpoints.items;
    } };

    ghost invariant = { λ d.
        CanBeReplayed d.object.items d.config d.machine ×
        AreReplayed d.object.items d.config d.snapshots.kept.items };
}

impl Debugger {
    /// Creates a debugger for a program, at step 0, on a new device with this configuration, and without breakpoints.
    ///
    /// Errors: `TooManyVfs` and `Fifo`, each exactly if `Device::new` returns this fault for the configuration; or
    /// `OutOfMemory`. The error contains the program, unchanged.
    pub fn new(alloc: Global, program: Program, config: Config) -> Result<Debugger, NewRefused>
        ensures made { IfOk result
            (λ debugger. debugger ≡ record { program = program; config = config; steps = 0; breakpoints = [] }) }
        ensures back { IfErr result (λ refused. refused.program ≡ program) }
        ensures too_many_vfs { IsErrAnd result (λ refused. refused.fault ≡ NewFault.TooManyVfs)
            ↔ (MAX_VFS < config.vfs) }
        ensures fifo { IsErrAnd result (λ refused. refused.fault ≡ NewFault.Fifo)
            ↔ ((config.vfs ≤ MAX_VFS) × IsBadFifo config.fifo) }
    {
        let machine = match Machine::new(alloc, program, config) {
            Ok(machine) => machine,
            Err(refused) => return Err(refused),
        };
        match object_of(alloc, machine.program()) {
            Ok(object) => Ok(Debugger {
                alloc,
                object,
                config,
                machine,
                breakpoints: Breakpoints::new(),
                snapshots: Snapshots::new(alloc),
            }),
            Err(_) => Err(NewRefused {
                fault: NewFault::OutOfMemory,
                program: machine.into_program(),
            }),
        }
    }

    /// Executes a command and returns the machine's state after the command. This state depends only on the step that
    /// the commands so far have reached, not on how they reached that step. Which snapshots are kept affects a result
    /// only if memory runs out.
    ///
    /// After a refusal, the debugger is unchanged, with one exception: a `Step` or `Continue` that runs out of memory
    /// has taken the steps before the refused step, and the next step is one that may need memory. `Back` can run out
    /// of memory only if the machine has taken at least as many steps as `Back` goes back. `Break`, `Clear`, `Show` and
    /// `ShowVf` never run out of memory.
    pub fn exec(&mut self, command: Command) -> Result<View, DebugRefusal>
        ensures answer { result ≢ Err DebugRefusal.OutOfMemory → result ≡ (command_of self.old command).answer }
        ensures session { result ≢ Err DebugRefusal.OutOfMemory → self.new ≡ (command_of self.old command).session }
        ensures memory { result ≡ Err DebugRefusal.OutOfMemory → LeftBy self.old command self.new }
    {
        match command {
            Command::Step(count) => self.step(count),
            Command::Back(count) => self.back(count),
            Command::Continue(limit) => self.go_on(limit),
            Command::Break(pc) => self.set(pc),
            Command::Clear(pc) => self.clear(pc),
            Command::Show(address) => Ok(self.view(self.machine.peek_register(address))),
            Command::ShowVf(function, offset) => Ok(self.view(
                self.machine.peek_vf(function, offset),
            )),
        }
    }

    /// Closes the debugger and frees its machine and its snapshots.
    pub fn finish(self) {
        let Debugger {
            alloc: _,
            object: _,
            config: _,
            machine,
            breakpoints: _,
            snapshots: _,
        } = self;
        machine.finish();
    }

    /// Returns the state of the machine, with a value that a show command requested, if any.
    fn view(&self, shown: Option<u32>) -> View
        ensures { result ≡ view_of self.now shown }
    {
        View {
            steps: self.machine.steps(),
            pc: self.machine.pc(),
            acc: self.machine.acc(),
            status: self.machine.status(),
            shown,
        }
    }

    /// Executes `Command::Step`: takes up to `count` steps.
    fn step(&mut self, count: u64) -> Result<View, DebugRefusal>
        ensures { Does self.old (Command.Step count) result self.new }
    {
        match run_on(
            &mut self.machine,
            &Breakpoints::new(),
            &mut self.snapshots,
            count,
        ) {
            Ok(()) => Ok(self.view(None)),
            Err(OutOfMemory) => Err(DebugRefusal::OutOfMemory),
        }
    }

    /// Executes `Command::Continue`: runs on to a breakpoint, for at most `limit` steps.
    fn go_on(&mut self, limit: u64) -> Result<View, DebugRefusal>
        ensures { Does self.old (Command.Continue limit) result self.new }
    {
        match run_on(
            &mut self.machine,
            &self.breakpoints,
            &mut self.snapshots,
            limit,
        ) {
            Ok(()) => Ok(self.view(None)),
            Err(OutOfMemory) => Err(DebugRefusal::OutOfMemory),
        }
    }

    /// Executes `Command::Back`: runs a new machine to the target step. The new machine starts from the last snapshot
    /// at or before the target step, or from step 0 if no such snapshot exists. It then replaces the debugger's
    /// machine.
    fn back(&mut self, count: u64) -> Result<View, DebugRefusal>
        ensures { Does self.old (Command.Back count) result self.new }
    {
        let steps = self.machine.steps();
        if steps < count {
            return Err(DebugRefusal::AtStart);
        }
        match replay(
            self.alloc,
            &self.object,
            self.config,
            &self.snapshots,
            steps - count,
        ) {
            Ok(machine) => {
                let former = mem::replace(&mut self.machine, machine);
                former.finish();
                Ok(self.view(None))
            }
            Err(OutOfMemory) => Err(DebugRefusal::OutOfMemory),
        }
    }

    /// Executes `Command::Break`: sets a breakpoint.
    fn set(&mut self, pc: u32) -> Result<View, DebugRefusal>
        ensures { Does self.old (Command.Break pc) result self.new }
    {
        let count = self.machine.program().instructions();
        match set_break(&mut self.breakpoints, count, pc) {
            Ok(()) => Ok(self.view(None)),
            Err(refusal) => Err(refusal),
        }
    }

    /// Executes `Command::Clear`: removes a breakpoint.
    fn clear(&mut self, pc: u32) -> Result<View, DebugRefusal>
        ensures { Does self.old (Command.Clear pc) result self.new }
    {
        match clear_break(&mut self.breakpoints, pc) {
            Ok(()) => Ok(self.view(None)),
            Err(refusal) => Err(refusal),
        }
    }
}
