//! Accesses to a queue's registers.

ghost use Rattle.std.specs.Prelude.{◌≡◌, All, IfOk, IfErr, OnOk};
ghost use Rattle.device_lock.specs.NicDevice.RegisterFile.Bits.{has_bit};
ghost use Rattle.pmd_access.specs.Asks.{Asks, fault_in};
ghost use Rattle.pmd_access.specs.Named.{IsDriven};
ghost use Rattle.pmd_access.specs.QueueMade.{IsKnown, IsSeen, IsMade, AreMade, ReadFails, FailsBy, StopsBy};

use crate::accesses::{read, write};
use crate::fault::PmdFault;
use crate::names::Queue;
use crate::nic::Nic;
use device_lock::RowId;
use reg_table::{Rxdctl, has_flag};
use std::alloc::Global;

/// An access to one of a queue's registers.
#[derive(Clone, Copy)]
pub enum Access {
    /// Reads the register, in which ENABLE (bit 25) must have this value.
    Sees(RowId, bool),
    /// Writes this value.
    Sets(RowId, u32),
}

impl Queue {
    /// Makes these accesses to the queue's registers, in order.
    ///
    /// Fails with `DeviceFault` if ENABLE doesn't have the required value, or the port doesn't have one of these
    /// registers. The earlier accesses have then been made.
    pub(crate) fn make_all<N: Nic>(
        &self,
        alloc: Global,
        nic: &mut N,
        accesses: &[Access],
    ) -> Result<(), PmdFault>
        requires { All IsKnown accesses.now }
        ensures made { OnOk result (AreMade self.now (N.made nic.old) (N.made nic.new) accesses.now) }
        ensures failed { IfErr result (λ f. StopsBy f self.now (N.made nic.old) (N.made nic.new) accesses.now) }
        ensures asks { Asks N.began N.refuses (fault_in result) nic.old nic.new }
    {
        for access in accesses {
            self.make(alloc, nic, *access)?;
        }
        Ok(())
    }

    /// Makes one access.
    fn make<N: Nic>(&self, alloc: Global, nic: &mut N, access: Access) -> Result<(), PmdFault>
        requires { IsKnown access }
        ensures made { OnOk result (IsMade self.now (N.made nic.old) (N.made nic.new) access) }
        ensures failed { IfErr result (λ f. FailsBy f self.now (N.made nic.old) (N.made nic.new) access) }
        ensures asks { Asks N.began N.refuses (fault_in result) nic.old nic.new }
    {
        match access {
            Access::Sees(row, on) => {
                if self.shows(alloc, nic, row)? == on {
                    Ok(())
                } else {
                    Err(PmdFault::DeviceFault)
                }
            }
            Access::Sets(row, word) => {
                let number = self.number_of(row);
                match write(alloc, nic, self.port(), number, word) {
                    Ok(true) => Ok(()),
                    Ok(false) => Err(PmdFault::DeviceFault),
                    Err(refused) => Err(PmdFault::Call(refused)),
                }
            }
        }
    }

    /// Returns whether ENABLE is set in a register of the queue.
    ///
    /// Fails with `DeviceFault` if the port has no such register.
    pub(crate) fn shows<N: Nic>(
        &self,
        alloc: Global,
        nic: &mut N,
        row: RowId,
    ) -> Result<bool, PmdFault>
        requires { IsDriven row }
        ensures seen { IfOk result (λ on. IsSeen self.now (N.made nic.old) (N.made nic.new) row on) }
        ensures failed { IfErr result (λ f. ReadFails f self.now (N.made nic.old) (N.made nic.new) row) }
        ensures asks { Asks N.began N.refuses (fault_in result) nic.old nic.new }
    {
        let number = self.number_of(row);
        match read(alloc, nic, self.port(), number) {
            Ok(Some(word)) => Ok(is_enabled(word)),
            Ok(None) => Err(PmdFault::DeviceFault),
            Err(refused) => Err(PmdFault::Call(refused)),
        }
    }
}

/// Returns whether ENABLE is set in a value of RXDCTL or TXDCTL. ENABLE is the same bit in both registers.
fn is_enabled(word: u32) -> bool
    ensures { result ≡ has_bit 25 word }
{
    has_flag(word, Rxdctl::ENABLE)
}
