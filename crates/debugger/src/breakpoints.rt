//! The list of a debugger's breakpoints.

ghost use Rattle.std.specs.Prelude.{◌≡◌, IfErr, OnOk, OnErr, Ok, Err};
ghost use Rattle.debugger.specs.Breakpoints.{has_break, with_break, without_break};

use crate::command::DebugRefusal;
use arrayvec::ArrayVec;

/// The maximum number of breakpoints.
pub const BREAK_LIMIT: usize = 32;

/// The numbers of the instructions with a breakpoint.
pub(crate) type Breakpoints = ArrayVec<u32, BREAK_LIMIT>;

/// Whether a breakpoint is set at an instruction.
pub(crate) fn has_break(breakpoints: &Breakpoints, pc: u32) -> bool
    ensures { result ≡ has_break breakpoints.now.items pc }
{
    breakpoints.as_slice().contains(&pc)
}

/// Sets a breakpoint at an instruction of a program with `count` instructions.
pub(crate) fn set_break(
    breakpoints: &mut Breakpoints,
    count: u16,
    pc: u32,
) -> Result<(), DebugRefusal>
    ensures set { OnOk result (with_break count breakpoints.old.items pc ≡ Ok breakpoints.new.items) }
    ensures refused { IfErr result (λ refusal. with_break count breakpoints.old.items pc ≡ Err refusal) }
    ensures unchanged { OnErr result (breakpoints.new ≡ breakpoints.old) }
{
    if pc >= u32::from(count) {
        return Err(DebugRefusal::NoSuchPc);
    }
    if has_break(breakpoints, pc) {
        return Ok(());
    }
    match breakpoints.try_push(pc) {
        Ok(()) => Ok(()),
        Err(_) => Err(DebugRefusal::TooManyBreaks),
    }
}

/// Removes the breakpoint at an instruction.
pub(crate) fn clear_break(breakpoints: &mut Breakpoints, pc: u32) -> Result<(), DebugRefusal>
    ensures set { OnOk result (without_break breakpoints.old.items pc ≡ Ok breakpoints.new.items) }
    ensures refused { IfErr result (λ refusal. without_break breakpoints.old.items pc ≡ Err refusal) }
    ensures unchanged { OnErr result (breakpoints.new ≡ breakpoints.old) }
{
    if !has_break(breakpoints, pc) {
        return Err(DebugRefusal::NoSuchPc);
    }
    breakpoints.retain(|set| *set != pc);
    Ok(())
}
