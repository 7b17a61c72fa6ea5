//! Why a driver call failed.

ghost use Rattle.std.specs.Prelude.{◌≡◌, true, None, Some, is_some};
ghost use Rattle.device_lock.specs.Fault.{event_of, fault_with};
ghost use Rattle.device_lock.specs.NicDevice.Step.{lent_block};
ghost use Rattle.pmd_access.specs.Refusals.{Refusals, CanRefuse};

use device_lock::{Buf, CallFault};

/// Why a driver call failed.
#[derive(Debug, Drop)]
pub enum PmdFault {
    /// A size is wrong. A ring's size must be a multiple of 8 from 8 to 1,024. The limit on a frame's length must be
    /// 1,518 to 9,728. A packet's length must not be 0, above the frame limit less the check sequence, or above the
    /// capacity of its Bufs.
    BadSize,
    /// One of the packet's blocks can't return to the driver's arena.
    ForeignBlock,
    /// The queue wasn't enabled or disabled within the permitted polls.
    StartTimeout,
    /// Too few blocks are free.
    NoBuffer,
    /// The device sent a reply that it can't send for a healthy queue that nobody else touches.
    DeviceFault,
    /// The device's `Nic` refused a call.
    Call(CallFault<()>),
}

/// Removes the event, which contains no block, from a refusal. If the original refusal is one that a `Nic` may return,
/// so is the result.
pub fn without_event(fault: CallFault) -> CallFault<()>
    requires { lent_block (event_of fault) ≡ None }
    ensures fault { result ≡ fault_with fault tt }
    ensures refusal { (way : Refusals) → CanRefuse way fault → CanRefuse way result }
{
    let (fault, event) = fault.replace(());
    match event.into_buf() {
        None => fault,
        Some(_buf) => unreachable!(),
    }
}

/// Splits a refusal into the same refusal without its event, and the block that the event would have lent.
pub(crate) fn with_block(fault: CallFault) -> (CallFault<()>, Buf)
    requires { is_some (lent_block (event_of fault)) ≡ true }
    ensures fault { result.0 ≡ fault_with fault tt }
    ensures refusal { (way : Refusals) → CanRefuse way fault → CanRefuse way result.0 }
    ensures block { lent_block (event_of fault) ≡ Some result.1 }
{
    let (fault, event) = fault.replace(());
    match event.into_buf() {
        Some(buf) => (fault, buf),
        None => unreachable!(),
    }
}
