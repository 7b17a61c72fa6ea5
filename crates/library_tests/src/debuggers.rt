//! The debugger's commands, with allocations that fail.

use crate::machines::{Building, CONFIG, OfProgram, program};
use crate::outcome::done;
use crate::sums::{START, with};
use crate::trial::{Trial, tried};
use debugger::{Command, DebugRefusal, Debugger};
use script_asm::{NewRefused, Program};
use std::alloc::Global;
use std::process::Abort;
use std::sync::Wait;

/// Returns a checksum of a command's result: the number of steps and the accumulator.
fn view<R: Abort>(rt: &R, debugger: &mut Debugger, command: Command) -> u64 {
    let view = done(rt, debugger.exec(command));
    with(with(START, view.steps), u64::from(view.acc))
}

/// Runs the script to its end, shows the register at 0x04074, and closes the debugger. Returns a checksum of both
/// results.
fn end_debugger<R: Abort>(rt: &R, debugger: Debugger) -> u64 {
    let mut debugger = debugger;
    let end = view(rt, &mut debugger, Command::Step(20));
    let shown = done(rt, debugger.exec(Command::Show(0x04074)));
    debugger.finish();
    with(end, u64::from(shown.shown.unwrap_or(0xFFFF_FFFF)))
}

impl OfProgram for Debugger {
    fn of(alloc: Global, program: Program) -> Result<Debugger, NewRefused> {
        Debugger::new(alloc, program, CONFIG)
    }

    fn to_end<R: Abort>(self, rt: &R) -> u64 {
        end_debugger(rt, self)
    }
}

#[test]
fn a_debugger_is_made(rt: HostRuntime) {
    let alloc = rt.alloc();
    let subject = Building::<Debugger>::new(&rt, alloc);
    let calm = Building::<Debugger>::new(&rt, alloc);
    tried(&rt, alloc, subject, calm);
}

/// A debugger that moves to a step. After a refusal, the steps already taken aren't undone.
struct Moving {
    debugger: Debugger,
    kind: Kind,
    to: u64,
}

/// How a debugger moves.
#[derive(Clone, Copy)]
enum Kind {
    Step,
    Continue,
    Back,
}

impl Moving {
    /// Creates a debugger that is at step `from` of its script.
    fn new<R: Abort>(rt: &R, alloc: Global, kind: Kind, from: u64, to: u64) -> Moving {
        let mut debugger = match Debugger::new(alloc, program(rt, alloc), CONFIG) {
            Ok(debugger) => debugger,
            Err(_refused) => panic!(rt; "a debugger"),
        };
        let _view = view(rt, &mut debugger, Command::Step(from));
        Moving { debugger, kind, to }
    }

    /// Returns the number of steps taken.
    fn at<R: Abort>(&mut self, rt: &R) -> u64 {
        done(rt, self.debugger.exec(Command::Step(0))).steps
    }
}

impl Trial for Moving {
    fn call<R: Abort + Wait>(&mut self, rt: &R, _alloc: Global) -> bool {
        let at = self.at(rt);
        let command = match self.kind {
            Kind::Step => Command::Step(self.to.saturating_sub(at)),
            Kind::Continue => Command::Continue(self.to.saturating_sub(at)),
            Kind::Back => Command::Back(at.saturating_sub(self.to)),
        };
        match self.debugger.exec(command) {
            Ok(view) => view.steps == self.to,
            Err(DebugRefusal::OutOfMemory) => {
                let now = self.at(rt);
                assert!(rt; at <= now && (now == at || !matches!(self.kind, Kind::Back)));
                false
            }
            Err(_refusal) => panic!(rt; "another refusal"),
        }
    }

    fn picture<R: Abort>(&mut self, _rt: &R) -> u64 {
        0
    }

    fn end<R: Abort + Wait>(self, rt: &R, _alloc: Global) -> u64 {
        let Moving {
            debugger,
            kind: _,
            to: _,
        } = self;
        end_debugger(rt, debugger)
    }
}

/// Moves a debugger from one step to another.
fn moves<R: Abort + Wait + Print>(rt: &R, alloc: Global, kind: Kind, from: u64, to: u64) {
    let subject = Moving::new(rt, alloc, kind, from, to);
    let calm = Moving::new(rt, alloc, kind, from, to);
    tried(rt, alloc, subject, calm);
}

#[test]
fn a_debugger_steps(rt: HostRuntime) {
    moves(&rt, rt.alloc(), Kind::Step, 0, 14);
}

#[test]
fn a_debugger_goes_on(rt: HostRuntime) {
    moves(&rt, rt.alloc(), Kind::Continue, 3, 14);
}

#[test]
fn a_debugger_goes_back(rt: HostRuntime) {
    moves(&rt, rt.alloc(), Kind::Back, 14, 10);
}
