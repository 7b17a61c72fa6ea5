//! Snapshots of a device, and devices restored from them.

ghost use Rattle.std.specs.Prelude.{◌≡◌, ◌↔◌, IsTrue, IfOk, IfErr, OnOk, OnErr};
ghost use Rattle.std.specs.FinMap as map;
ghost use Rattle.nic_device.specs.Blocks.{AreFree, AreAmong, AreAway, HaveLeft, StillLeft};
ghost use Rattle.nic_device.specs.Restoring.{IsWhy};
ghost use Rattle.nic_device.specs.Sound.{IsSound};

use crate::copies::Blocks;
use crate::device::Device;
use crate::state_copy::StateCopy;
use rx_ring::Arena;
use std::alloc::AllocError;
use std::marker::Model;

/// The state of a device as plain data: its registers, the bytes of the blocks lent to it, the receive list, the staged
/// bytes, the transmitted frames, the link, the image and the configuration. A snapshot is sound, like a device. It can
/// be dropped, because its blocks are copies and belong to no arena.
#[derive(Drop)]
pub struct Snapshot {
    state: StateCopy,
    blocks: Blocks,
}

impl Model for Snapshot {
    ghost use Rattle.nic_device.specs.State.{State, state_code};
    ghost use Rattle.nic_device.specs.Sound.{IsSound};

    ghost Value = { State };

    ghost coded = { state_code };

    ghost view = { λ s. record s.state { memory = s.blocks } };

    ghost invariant = { λ s. IsSound (record s.state { memory = s.blocks }) };
}

/// Why a device wasn't restored. The arena is unchanged.
#[derive(Clone, Copy, PartialEq, Eq, Debug)]
pub enum RestoreRefused {
    /// This block is lent in the snapshot's state but isn't free in the arena. It is the lowest such block.
    NotFree(u32),
    /// There isn't enough memory for the device.
    OutOfMemory,
}

impl Device {
    /// Returns a snapshot of the device, which is unchanged. Fails with `AllocError` if there isn't enough memory for
    /// it.
    pub fn snapshot(&self) -> Result<Snapshot, AllocError>
        ensures { IfOk result (λ snapshot. snapshot ≡ self.now) }
    {
        let state = self.engine.state_copy()?;
        let blocks = Blocks::copied(state.alloc, &self.engine.memory)?;
        Ok(Snapshot { state, blocks })
    }

    /// Returns a snapshot of the device as if no block were lent. Taking it copies no packet memory. The device is
    /// unchanged. Fails with `AllocError` if there isn't enough memory for the snapshot.
    pub fn snapshot_without_memory(&self) -> Result<Snapshot, AllocError>
        ensures { IfOk result (λ snapshot. snapshot ≡ record self.now { memory = map.empty }) }
    {
        let state = self.engine.state_copy()?;
        let blocks = Blocks::none(state.alloc);
        Ok(Snapshot { state, blocks })
    }

    /// Whether each block that was lent when the snapshot was taken is lent now.
    pub fn has_blocks_of(&self, snapshot: &Snapshot) -> bool
        ensures { IsTrue result ↔ AreAmong self.now.memory snapshot.now.memory }
    {
        snapshot.blocks.are_lent(&self.engine.memory)
    }

    /// Returns the device to the snapshot's state. The blocks lent in that state must also be lent now. Each block that
    /// is lent now must belong to the arena and not be free there. The snapshot's blocks get the bytes back that they
    /// contained in the snapshot; all other lent blocks return to the arena. After `AllocError` nothing has changed.
    pub fn go_back(&mut self, snapshot: &Snapshot, arena: &mut Arena) -> Result<(), AllocError>
        requires away { AreAway arena.old self.old.memory }
        requires lent { AreAmong self.old.memory snapshot.now.memory }
        ensures restored { OnOk result (self.new ≡ snapshot.now) }
        // Suppose that the arena before the call was some arena A without the blocks lent at that time. Then the arena
        // is now A without the snapshot's blocks.
        ensures left { OnOk result (StillLeft arena.old self.old.memory arena.new snapshot.now.memory) }
        ensures unchanged { OnErr result (self.new ≡ self.old) }
        ensures kept { OnErr result (arena.new ≡ arena.old) }
    {
        self.engine.copy_from(&snapshot.state)?;
        snapshot.blocks.put_back(&mut self.engine.memory, arena);
        Ok(())
    }

    /// Creates a device in the snapshot's state. The blocks lent to it are taken out of the arena, so each must be free
    /// there.
    ///
    /// Errors: `NotFree` with the lowest of these blocks that isn't free in the arena; that block may not even belong
    /// to the arena. Otherwise `OutOfMemory`. Both leave the arena unchanged.
    pub fn restore(snapshot: &Snapshot, arena: &mut Arena) -> Result<Device, RestoreRefused>
        ensures restored { IfOk result (λ device. device ≡ snapshot.now) }
        ensures left { OnOk result (HaveLeft arena.old arena.new snapshot.now.memory) }
        ensures kept { OnErr result (arena.new ≡ arena.old) }
        ensures why { IfErr result (λ refused. IsWhy refused arena.old snapshot.now.memory) }
    {
        match snapshot.blocks.lowest_taken(arena) {
            Some(block) => Err(RestoreRefused::NotFree(block)),
            None => snapshot.restored(arena),
        }
    }
}

impl Snapshot {
    /// Creates a device in the snapshot's state. All blocks lent in that state must be free in the arena.
    fn restored(&self, arena: &mut Arena) -> Result<Device, RestoreRefused>
        requires { AreFree arena.old self.now.memory }
        ensures restored { IfOk result (λ device. device ≡ self.now) }
        ensures left { OnOk result (HaveLeft arena.old arena.new self.now.memory) }
        ensures kept { OnErr result (arena.new ≡ arena.old) }
        ensures why { IfErr result (λ refused. IsWhy refused arena.old self.now.memory) }
    {
        let Ok(state) = self.state.copy() else {
            return Err(RestoreRefused::OutOfMemory);
        };
        match self.blocks.lent(state.alloc, arena) {
            Ok(memory) => Ok(Device {
                engine: state.with_memory(memory),
            }),
            Err(_) => Err(RestoreRefused::OutOfMemory),
        }
    }
}
