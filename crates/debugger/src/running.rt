//! Runs a machine forward, and replays a machine up to a step.

ghost use Rattle.std.specs.Prelude.{◌≡◌, ◌<◌, ◌≤◌, [], IfOk, IsOk, OnOk, OnErr, Ok};
ghost use Rattle.debugger.specs.Running.{is_stopped, run_on};
ghost use Rattle.debugger.specs.Session.{CanBeMade};
ghost use Rattle.debugger.specs.Snapshots.{AreReplayed, StayOf};
ghost use Rattle.machine.specs.Machine.{machine_at, machine_step, start_of, StepTakesMemory};
ghost use Rattle.program.specs.Object.{read_of};

use crate::breakpoints::{Breakpoints, has_break};
use crate::snapshots::Snapshots;
use crate::source::program_of;
use machine::{Machine, StepAnswer};
use nic_device::{Config, NewFault};
use program::{OutOfMemory, Program};
use std::alloc::Global;

/// Takes a step, and returns whether the machine had already stopped.
fn step(machine: &mut Machine) -> Result<bool, OutOfMemory>
    ensures stopped { IfOk result (λ stopped.
        stopped ≡ is_stopped (machine_step machine.old.program machine.old.state).answer) }
    ensures state { OnOk result (machine.new ≡
        record machine.old { state = (machine_step machine.old.program machine.old.state).state }) }
    ensures unchanged { OnErr result (machine.new ≡ machine.old) }
    ensures memory { OnErr result (StepTakesMemory machine.old.program machine.old.state) }
{
    match machine.step()? {
        StepAnswer::Stopped => Ok(true),
        StepAnswer::Made(_) | StepAnswer::Local | StepAnswer::NoBlock => Ok(false),
    }
}

/// Takes `limit` steps, or fewer if the machine stops or if, after a step, the next instruction has a breakpoint. Takes
/// each snapshot that becomes due during these steps.
pub(crate) fn run_on(
    machine: &mut Machine,
    breakpoints: &Breakpoints,
    snapshots: &mut Snapshots,
    limit: u64,
) -> Result<(), OutOfMemory>
    requires { machine.old.state ≡ machine_at machine.old.program machine.old.config machine.old.state.steps }
    ensures at { machine.new ≡ record machine.old {
      state = machine_at machine.old.program machine.old.config machine.new.state.steps;
    } }
    ensures steps { OnOk result (machine.new.state.steps ≡
        run_on machine.old.program machine.old.config breakpoints.now.items machine.old.state.steps limit) }
    ensures from { machine.old.state.steps ≤ machine.new.state.steps }
    ensures short { OnErr result (machine.new.state.steps <
        run_on machine.old.program machine.old.config breakpoints.now.items machine.old.state.steps limit) }
    ensures takes { OnErr result (StepTakesMemory machine.old.program
        (machine_at machine.old.program machine.old.config machine.new.state.steps)) }
    ensures of { StayOf machine.old snapshots.old.kept.items snapshots.new.kept.items }
{
    for _ in 0..limit {
        if step(machine)? {
            return Ok(());
        }
        snapshots.keep(machine);
        if has_break(breakpoints, u32::from(machine.pc())) {
            return Ok(());
        }
    }
    Ok(())
}

/// Creates a machine before its first step, with a configuration that a device supports.
fn start(alloc: Global, program: Program, config: Config) -> Result<Machine, OutOfMemory>
    requires { CanBeMade config }
    ensures { IfOk result (λ machine.
        machine ≡ record { program = program; config = config; state = start_of program config }) }
{
    match Machine::new(alloc, program, config) {
        Ok(machine) => Ok(machine),
        Err(refused) => match refused.fault {
            NewFault::OutOfMemory => Err(OutOfMemory),
            NewFault::TooManyVfs | NewFault::Fifo => unreachable!(),
        },
    }
}

/// Returns a machine at or before this step: a machine restored from the last snapshot at or before the step, or a new
/// machine before its first step if there is no such snapshot.
fn early(
    alloc: Global,
    object: &[u8],
    config: Config,
    snapshots: &Snapshots,
    steps: u64,
) -> Result<Machine, OutOfMemory>
    requires object { IsOk (read_of object.now) }
    requires config { CanBeMade config }
    requires of { AreReplayed object.now config snapshots.now.kept.items }
    ensures program { IfOk result (λ machine. read_of object.now ≡ Ok machine.program) }
    ensures config { IfOk result (λ machine. machine.config ≡ config) }
    ensures at { IfOk result (λ machine. machine.state ≡ machine_at machine.program config machine.state.steps) }
    ensures early { IfOk result (λ machine. machine.state.steps ≤ steps) }
{
    match snapshots.before(steps) {
        Some(snapshot) => {
            let machine = Machine::restore(snapshot)?;
            let _steps = machine.steps();
            Ok(machine)
        }
        None => {
            let machine = start(alloc, program_of(alloc, object)?, config)?;
            let _steps = machine.steps();
            Ok(machine)
        }
    }
}

/// Returns a machine that runs an object's program, after this many steps, or fewer if the machine stops. The machine
/// runs from the last snapshot at or before the last of these steps, or from step 0 if there is no such snapshot.
pub(crate) fn replay(
    alloc: Global,
    object: &[u8],
    config: Config,
    snapshots: &Snapshots,
    steps: u64,
) -> Result<Machine, OutOfMemory>
    requires object { IsOk (read_of object.now) }
    requires config { CanBeMade config }
    requires of { AreReplayed object.now config snapshots.now.kept.items }
    ensures program { IfOk result (λ machine. read_of object.now ≡ Ok machine.program) }
    ensures config { IfOk result (λ machine. machine.config ≡ config) }
    ensures at { IfOk result (λ machine. machine.state ≡ machine_at machine.program config machine.state.steps) }
    ensures steps { IfOk result (λ machine. machine.state.steps ≡ run_on machine.program config [] 0 steps) }
{
    let mut machine = early(alloc, object, config, snapshots, steps)?;
    let left = steps - machine.steps();
    let mut none = Snapshots::none(alloc);
    match run_on(&mut machine, &Breakpoints::new(), &mut none, left) {
        Ok(()) => Ok(machine),
        Err(refused) => {
            machine.finish();
            Err(refused)
        }
    }
}
