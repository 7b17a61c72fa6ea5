//! Prepares, enables and disables both sides of a queue.

ghost use Rattle.std.specs.Prelude.{◌≡◌, All, IfErr, OnOk};
ghost use Rattle.pmd_access.specs.Begun.{BeganAs};
ghost use Rattle.pmd_access.specs.Both.{both_quiet, both_asked, IsSwitched, SwitchFails};
ghost use Rattle.pmd_access.specs.QueueMade.{IsKnown, AreMade, StopsBy};
ghost use Rattle.pmd_access.specs.Refusals.{CanFail};

use crate::fault::PmdFault;
use crate::names::Queue;
use crate::nic::Nic;
use crate::registers::Access;
use crate::sides::{POLLS, asked, quiet};
use device_lock::Dir;
use std::alloc::Global;

impl Queue {
    /// Disables both sides of the queue, the receive side first. For each side, the call checks that the side is off,
    /// writes "off", and checks again.
    ///
    /// Fails with `DeviceFault` if a side is on or the port doesn't have the register that enables a side.
    pub fn disable_both<N: Nic>(&self, alloc: Global, nic: &mut N) -> Result<(), PmdFault>
        ensures made { OnOk result (AreMade self.now (N.made nic.old) (N.made nic.new) both_quiet) }
        ensures failed { IfErr result (λ f. StopsBy f self.now (N.made nic.old) (N.made nic.new) both_quiet) }
        ensures began { BeganAs N.began nic.old nic.new }
        ensures refuses { N.refuses nic.new ≡ N.refuses nic.old }
        ensures refusal { IfErr result (λ f. CanFail (N.refuses nic.new) f) }
    {
        self.make_all(alloc, nic, &both_quiet())
    }

    /// Enables or disables both sides of the queue, then polls until both sides have switched, the receive side first.
    /// The two sides share a limit of `POLLS` polls. Only polls that show a state other than the requested one count.
    ///
    /// Fails with `StartTimeout` if that many polls show the other state, and with `DeviceFault` if the port doesn't
    /// have the register that enables a side.
    pub fn switch_both<N: Nic>(&self, alloc: Global, nic: &mut N, on: bool) -> Result<(), PmdFault>
        ensures switched { OnOk result (IsSwitched self.now (N.made nic.old) (N.made nic.new) on 1000) }
        ensures failed { IfErr result (λ f. SwitchFails f self.now (N.made nic.old) (N.made nic.new) on 1000) }
        ensures began { BeganAs N.began nic.old nic.new }
        ensures refuses { N.refuses nic.new ≡ N.refuses nic.old }
        ensures refusal { IfErr result (λ f. CanFail (N.refuses nic.new) f) }
    {
        self.make_all(alloc, nic, &both_asked(on))?;
        let left = self.poll(alloc, nic, Dir::Rx, on, POLLS)?;
        let _last = self.poll(alloc, nic, Dir::Tx, on, left)?;
        Ok(())
    }
}

/// The accesses that check that each side is off, write "off", and check again.
fn both_quiet() -> [Access; 6]
    ensures accesses { result ≡ both_quiet }
    ensures known { All IsKnown result }
{
    let [seen, off, still] = quiet(Dir::Rx);
    let [seen_too, off_too, still_too] = quiet(Dir::Tx);
    [seen, off, still, seen_too, off_too, still_too]
}

/// The accesses that request that both sides be enabled or disabled.
fn both_asked(on: bool) -> [Access; 2]
    ensures accesses { result ≡ both_asked on }
    ensures known { All IsKnown result }
{
    let [first] = asked(Dir::Rx, on);
    let [second] = asked(Dir::Tx, on);
    [first, second]
}
