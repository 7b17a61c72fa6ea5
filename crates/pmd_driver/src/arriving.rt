//! Delivers a frame from the link to the device.

ghost use Rattle.std.specs.Prelude.{◌≡◌, IfOk, IfErr, OnErr};
ghost use Rattle.pmd_access.specs.Begun.{BeganAs};
ghost use Rattle.pmd_access.specs.Made.{AddsSome};
ghost use Rattle.pmd_access.specs.Refusals.{CanFail};
ghost use Rattle.pmd_access.specs.Asks.{Asks, fault_in};
ghost use Rattle.pmd_driver.specs.Arriving.{Arrives, IsRefusal};

use pmd_access::{CallFault, Event, Nic, Octets, PmdFault, Reply, Why, without_event};
use std::alloc::Global;

/// What the device did with a frame that arrived.
#[derive(Clone, Copy, PartialEq, Eq, Debug)]
pub enum Arrived {
    /// The device accepted the frame, which waits in the receive list.
    Taken,
    /// The device dropped the frame.
    Dropped(Why),
}

/// Delivers a frame from the link to the device. `frame` contains its bytes without the frame check sequence.
///
/// Fails with `Call` if the call was refused, or if there was no memory for a copy of the bytes. In both cases, no
/// frame arrived.
pub fn arrive<N: Nic>(alloc: Global, nic: &mut N, frame: &[u8]) -> Result<Arrived, PmdFault>
    ensures arrives { IfOk result (λ arrived. Arrives (N.made nic.old) (N.made nic.new) frame.now arrived) }
    ensures refused { OnErr result (AddsSome (N.made nic.old) (N.made nic.new)) }
    ensures call { IfErr result (λ f. IsRefusal f) }
    ensures began { BeganAs N.began nic.old nic.new }
    ensures refuses { N.refuses nic.new ≡ N.refuses nic.old }
    ensures refusal { IfErr result (λ f. CanFail (N.refuses nic.new) f) }
{
    match frame.to_vec(alloc) {
        Ok(bytes) => bring(alloc, nic, Octets::of(bytes)),
        Err(_) => Err(PmdFault::Call(CallFault::OutOfMemory(()))),
    }
}

/// Delivers a frame.
fn bring<N: Nic>(alloc: Global, nic: &mut N, frame: Octets) -> Result<Arrived, PmdFault>
    ensures asks { Asks N.began N.refuses (fault_in result) nic.old nic.new }
    ensures arrives { IfOk result (λ arrived. Arrives (N.made nic.old) (N.made nic.new) frame arrived) }
    ensures refused { OnErr result (AddsSome (N.made nic.old) (N.made nic.new)) }
    ensures call { IfErr result (λ f. IsRefusal f) }
{
    match nic.call(alloc, Event::Arrive(frame)) {
        Ok(Reply::Done) => Ok(Arrived::Taken),
        Ok(Reply::Dropped(why)) => Ok(Arrived::Dropped(why)),
        Ok(_reply) => unreachable!(),
        Err(fault) => Err(PmdFault::Call(without_event(fault))),
    }
}
