//! Laws about the debugger. Each law is the contract of an empty function.

ghost use Rattle.debugger.specs.Laws.{CommandsShowTheirPosition, PositionsAreCounted, RunsEndFirst, BackAndOnAgain};

/// An executed command shows the state of the machine at the session's step. A refused command changes nothing. No
/// command changes the program or the configuration, and the show commands change nothing at all.
pub fn commands_show_their_position()
    ensures { CommandsShowTheirPosition }
{}

/// A session's number of steps is the number of steps that its machine has counted. This holds initially and after
/// every command.
pub fn positions_are_counted()
    ensures { PositionsAreCounted }
{}

/// A run ends at the first of these: its limit, a step after which the next instruction has a breakpoint, or the step
/// at which the machine stops.
pub fn runs_end_first()
    ensures { RunsEndFirst }
{}

/// Going back a number of steps, at most to step 0, and then forward by the same number reaches the original step. The
/// premise: the machine has counted each step of the session.
pub fn back_and_on_again()
    ensures { BackAndOnAgain }
{}
