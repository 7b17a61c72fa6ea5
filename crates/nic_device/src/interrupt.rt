//! Interrupts: the causes that queues and the device raise, and MSI-X messages.

ghost use Rattle.std.specs.Prelude.{◌≡◌, ◌<◌, IfSome};
ghost use Rattle.register_file.specs.RegTable.Rows.{row_of};
ghost use Rattle.register_file.specs.RegTable.declared.kind.Kind.TheVariants.{Ro};
ghost use Rattle.register_file.specs.Groups.{index_of};
ghost use Rattle.nic_device.specs.Interrupt.{mode_in, function_of_queue, group_of_queue, function_counted, raised_by, side_failed, has_group, messaged, interrupted};

use crate::engine::Engine;
use crate::event::Reply;
use register_file::{Group, Mode, RegisterFile, RowId, pool_of, queues_of};
use rx_ring::Dir;

/// EICR receive miss: a frame was dropped because the receive list was full.
pub(crate) const RECEIVE_MISS: u32 = 0x0002_0000;

/// EICR PCI exception: a descriptor couldn't be processed.
pub(crate) const PCI_EXCEPTION: u32 = 0x0004_0000;

impl Engine {
    /// Returns how the queues are divided among pools.
    pub(crate) fn mode(&self) -> Mode
        ensures { result ≡ mode_in self.now.registers }
    {
        self.registers.mode()
    }
}

/// Returns the virtual function that a queue belongs to: its pool's function, if the device has that function.
#[tactic(auto, using(crate::proofs::Functions::few_pools), unfolding(crate::specs::Interrupt::function_of_queue))]
pub(crate) fn function_of_queue(registers: &RegisterFile, vfs: u8, queue: u16) -> Option<u8>
    ensures function { result ≡ function_of_queue registers.now vfs queue }
    ensures small { IfSome result (λ v. v < 64) }
{
    match pool_of(registers.mode(), queue) {
        Some(pool) if pool < vfs => Some(pool),
        Some(_) | None => None,
    }
}

/// Returns the interrupt group in which a queue raises its causes.
fn group_of_queue(registers: &RegisterFile, vfs: u8, queue: u16) -> Group
    ensures group { result ≡ group_of_queue registers.now vfs queue }
    ensures small { index_of result < 64 }
{
    match function_of_queue(registers, vfs, queue) {
        Some(v) => Group::Vf(v),
        None => Group::Pf,
    }
}

/// Counts a frame in a row of per-function counters, if the frame belongs to a virtual function.
pub(crate) fn count_function(registers: &mut RegisterFile, function: Option<u8>, row: RowId)
    requires small { IfSome function (λ v. v < 64) }
    requires rows { (row_of row).count ≡ 64 }
    requires counter { (row_of row).kind ≡ Ro }
    ensures { registers.new ≡ function_counted registers.old function row }
{
    if let Some(v) = function {
        registers.count_wrapping(row, u16::from(v));
    }
}

#[tactic(auto, unfolding(crate::specs::Interrupt::raised_by))]
/// Raises the interrupt cause for one side of a queue.
#[inline(always)]
pub(crate) fn raise_by(registers: &mut RegisterFile, vfs: u8, dir: Dir, queue: u16)
    requires { queue < 128 }
    ensures { registers.new ≡ raised_by registers.old vfs dir queue }
{
    let group = group_of_queue(registers, vfs, queue);
    registers.raise_queue(group, dir, queue);
}

/// Disables a side of a queue after a descriptor fault, and raises the PCI exception cause.
pub(crate) fn fail_side(registers: &mut RegisterFile, dir: Dir, queue: u16)
    requires { queue < 128 }
    ensures { registers.new ≡ side_failed registers.old dir queue }
{
    registers.shut(dir, queue);
    registers.raise(Group::Pf, PCI_EXCEPTION);
}

impl Engine {
    /// Runs an interrupt step: sends the next due message of a group.
    #[inline(never)]
    pub(crate) fn send_message(&mut self, group: Group) -> Reply
        ensures reply { result ≡ (interrupted self.old group).reply }
        ensures state { self.new ≡ (interrupted self.old group).state }
    {
        if !self.has_group(group) {
            return Reply::NoGroup;
        }
        if self.registers.is_stopped() {
            return Reply::Idle;
        }
        match self.registers.message(group) {
            Some(vector) => Reply::Message { group, vector },
            None => Reply::Idle,
        }
    }

    /// Whether an interrupt group exists. The physical function's group always exists. A virtual function's group
    /// exists if the device has the function and the mode has a pool for the function.
    fn has_group(&self, group: Group) -> bool
        ensures { result ≡ has_group self.now group }
    {
        match group {
            Group::Pf => true,
            Group::Vf(v) => v < self.config.vfs && queues_of(self.mode(), v).is_some(),
        }
    }
}
