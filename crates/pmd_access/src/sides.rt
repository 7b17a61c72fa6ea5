//! Prepares, enables and disables the sides of a queue.

ghost use Rattle.std.specs.Prelude.{◌≡◌, ◌<◌, ◌≤◌, ◌-◌, All, IfOk, IfErr, OnOk};
ghost use Rattle.device_lock.specs.NicDevice.RegisterFile.Queue.{enable_row};
ghost use Rattle.pmd_access.specs.Begun.{BeganAs};
ghost use Rattle.pmd_access.specs.Named.{IsDriven};
ghost use Rattle.pmd_access.specs.QueueMade.{IsKnown, IsSeen, AreMade, StopsBy, ReadFails};
ghost use Rattle.pmd_access.specs.Sides.{quiet, ring_words, asked, enable_word, polled, PollsEnd};
ghost use Rattle.pmd_access.specs.Refusals.{CanFail};

use crate::fault::PmdFault;
use crate::names::Queue;
use crate::nic::Nic;
use crate::registers::Access;
use device_lock::{Dir, RowId};
use reg_table::Rxdctl;
use std::alloc::Global;

/// The maximum number of polls that don't show ENABLE in the requested state.
pub const POLLS: u16 = 1000;

/// The lowest bit of SRRCTL.DESCTYPE, the descriptor type, which has three bits.
const DESCTYPE: u32 = 25;

/// The value of SRRCTL for advanced descriptors with one buffer (DESCTYPE) of 2 KiB (BSIZEPACKET, in the lowest bits).
const ONE_BUFFER: u32 = (1 << DESCTYPE) | 2;

impl Queue {
    /// Returns whether a side of the queue is on.
    ///
    /// Fails with `DeviceFault` if the port doesn't have the register that enables the side.
    pub fn is_on<N: Nic>(&self, alloc: Global, nic: &mut N, side: Dir) -> Result<bool, PmdFault>
        ensures seen { IfOk result (λ on. IsSeen self.now (N.made nic.old) (N.made nic.new) (enable_row side) on) }
        ensures failed { IfErr result (λ f. ReadFails f self.now (N.made nic.old) (N.made nic.new) (enable_row side)) }
        ensures began { BeganAs N.began nic.old nic.new }
        ensures refuses { N.refuses nic.new ≡ N.refuses nic.old }
        ensures refusal { IfErr result (λ f. CanFail (N.refuses nic.new) f) }
    {
        self.shows(alloc, nic, enable_row(side))
    }

    /// Disables a side of the queue: checks that the side is off, writes "off", and checks again.
    ///
    /// Fails with `DeviceFault` if the side is on or the port doesn't have the register that enables the side.
    pub fn disable<N: Nic>(&self, alloc: Global, nic: &mut N, side: Dir) -> Result<(), PmdFault>
        ensures made { OnOk result (AreMade self.now (N.made nic.old) (N.made nic.new) (quiet side)) }
        ensures failed { IfErr result (λ f. StopsBy f self.now (N.made nic.old) (N.made nic.new) (quiet side)) }
        ensures began { BeganAs N.began nic.old nic.new }
        ensures refuses { N.refuses nic.new ≡ N.refuses nic.old }
        ensures refusal { IfErr result (λ f. CanFail (N.refuses nic.new) f) }
    {
        self.make_all(alloc, nic, &quiet(side))
    }

    /// Writes the registers of an empty ring of `size` descriptors, at most 1,024, that starts at block `ring`.
    ///
    /// Fails with `DeviceFault` if the port doesn't have one of these registers.
    pub fn lay_out<N: Nic>(
        &self,
        alloc: Global,
        nic: &mut N,
        side: Dir,
        ring: u32,
        size: u16,
    ) -> Result<(), PmdFault>
        requires ring { ring < 65536 }
        requires size { size ≤ 1024 }
        ensures made { OnOk result (AreMade self.now (N.made nic.old) (N.made nic.new) (ring_words side ring size)) }
        ensures failed { IfErr result (λ f.
            StopsBy f self.now (N.made nic.old) (N.made nic.new) (ring_words side ring size)) }
        ensures began { BeganAs N.began nic.old nic.new }
        ensures refuses { N.refuses nic.new ≡ N.refuses nic.old }
        ensures refusal { IfErr result (λ f. CanFail (N.refuses nic.new) f) }
    {
        self.make_all(alloc, nic, &ring_words(side, ring, size))
    }

    /// Requests that a side of the queue be enabled or disabled.
    ///
    /// Fails with `DeviceFault` if the port doesn't have the register that enables the side.
    pub fn ask<N: Nic>(
        &self,
        alloc: Global,
        nic: &mut N,
        side: Dir,
        on: bool,
    ) -> Result<(), PmdFault>
        ensures made { OnOk result (AreMade self.now (N.made nic.old) (N.made nic.new) (asked side on)) }
        ensures failed { IfErr result (λ f. StopsBy f self.now (N.made nic.old) (N.made nic.new) (asked side on)) }
        ensures began { BeganAs N.began nic.old nic.new }
        ensures refuses { N.refuses nic.new ≡ N.refuses nic.old }
        ensures refusal { IfErr result (λ f. CanFail (N.refuses nic.new) f) }
    {
        self.make_all(alloc, nic, &asked(side, on))
    }

    /// Polls until a side of the queue is on or off as requested, at most `polls` times. Only polls that show a state
    /// other than the requested one count. Returns the number of polls remaining.
    ///
    /// Fails with `StartTimeout` if all of these polls show the other state, and with `DeviceFault` if the port doesn't
    /// have the register that enables the side.
    pub fn poll<N: Nic>(
        &self,
        alloc: Global,
        nic: &mut N,
        side: Dir,
        on: bool,
        polls: u16,
    ) -> Result<u16, PmdFault>
        ensures left { IfOk result (λ left. (0 < left) × (left ≤ polls)) }
        ensures made { IfOk result (λ left.
            AreMade self.now (N.made nic.old) (N.made nic.new) (polled side on (polls - left))) }
        ensures failed { IfErr result (λ f. PollsEnd f self.now (N.made nic.old) (N.made nic.new) side on polls) }
        ensures began { BeganAs N.began nic.old nic.new }
        ensures refuses { N.refuses nic.new ≡ N.refuses nic.old }
        ensures refusal { IfErr result (λ f. CanFail (N.refuses nic.new) f) }
    {
        for misses in 0..polls {
            if self.is_on(alloc, nic, side)? == on {
                return Ok(polls - misses);
            }
        }
        Err(PmdFault::StartTimeout)
    }
}

/// Returns the register that enables a side.
fn enable_row(side: Dir) -> RowId
    ensures row { result ≡ enable_row side }
    ensures driven { IsDriven result }
{
    match side {
        Dir::Rx => RowId::Rxdctl,
        Dir::Tx => RowId::Txdctl,
    }
}

/// Returns the value of RXDCTL or TXDCTL that enables or disables a side. ENABLE is the same bit in both registers.
fn enable_word(on: bool) -> u32
    ensures { result ≡ enable_word on }
{
    if !on {
        return 0;
    }
    Rxdctl::ENABLE.0
}

/// The accesses that check that a side is off, write "off", and check again.
pub(crate) fn quiet(side: Dir) -> [Access; 3]
    ensures accesses { result ≡ quiet side }
    ensures known { All IsKnown result }
{
    let row = enable_row(side);
    [
        Access::Sees(row, false),
        Access::Sets(row, 0),
        Access::Sees(row, false),
    ]
}

/// The access that requests that a side be enabled or disabled.
pub(crate) fn asked(side: Dir, on: bool) -> [Access; 1]
    ensures accesses { result ≡ asked side on }
    ensures known { All IsKnown result }
{
    [Access::Sets(enable_row(side), enable_word(on))]
}

/// The writes that set up the registers of an empty ring.
fn ring_words(side: Dir, ring: u32, size: u16) -> [Access; 6]
    requires ring { ring < 65536 }
    requires size { size ≤ 1024 }
    ensures accesses { result ≡ ring_words side ring size }
    ensures known { All IsKnown result }
{
    let base = 2048 * ring;
    let bytes = 16 * u32::from(size);
    match side {
        Dir::Rx => [
            Access::Sets(RowId::Rdbal, base),
            Access::Sets(RowId::Rdbah, 0),
            Access::Sets(RowId::Rdlen, bytes),
            Access::Sets(RowId::Srrctl, ONE_BUFFER),
            Access::Sets(RowId::Rdh, 0),
            Access::Sets(RowId::Rdt, 0),
        ],
        Dir::Tx => [
            Access::Sets(RowId::Tdbal, base),
            Access::Sets(RowId::Tdbah, 0),
            Access::Sets(RowId::Tdlen, bytes),
            Access::Sets(RowId::Tdwbal, 0),
            Access::Sets(RowId::Tdh, 0),
            Access::Sets(RowId::Tdt, 0),
        ],
    }
}
