//! Laws about the machine. Each law is the contract of a function that does nothing.

ghost use Rattle.machine.specs.Laws.{StepsCount, RunningMachinesStep, StoppedMachinesStay, MachinesRunTheirDevice, JumpsGo};

/// A step that returns `Stopped` leaves the machine unchanged. Any other step adds one to the count of steps.
pub fn steps_count()
    ensures { StepsCount }
{}

/// A step of a machine that has ended or failed returns `Stopped`. A running machine executes its next instruction, up
/// to 2^64 - 1 instructions in all.
pub fn running_machines_step()
    ensures { RunningMachinesStep }
{}

/// If a step of a machine returns `Stopped`, the machine stays unchanged in all further steps.
pub fn stopped_machines_stay()
    ensures { StoppedMachinesStay }
{}

/// After n steps, the machine's device is in the same state as a new device after the events of these n steps.
pub fn machines_run_their_device()
    ensures { MachinesRunTheirDevice }
{}

/// After a taken jump, the jump's target is the next instruction to execute. After a jump that isn't taken, the machine
/// continues with the following instruction.
pub fn jumps_go_where_they_say()
    ensures { JumpsGo }
{}
