//! A copy of a device's state, without packet memory, as plain data.

ghost use Rattle.std.specs.Prelude.{◌≡◌, ◌++◌, length, IfOk, OnOk, OnErr};
ghost use Rattle.std.specs.FinMap as map;

use crate::config::Config;
use crate::engine::Engine;
use crate::waiting::Waiting;
use eeprom_image::Image;
use register_file::RegisterFile;
use rx_ring::{LentMemory, Octets};
use std::alloc::{AllocError, Global};
use std::collections::VecDeque;
use std::marker::Model;
use tx_ring::Staged;

/// A copy of a device's state, without its packet memory. Contracts view it as a state in which no block is lent.
#[derive(Drop)]
pub(crate) struct StateCopy {
    registers: Box<RegisterFile>,
    waiting: VecDeque<Waiting>,
    staged: Vec<Staged>,
    out: VecDeque<(u8, Octets)>,
    link: bool,
    image: Image,
    config: Config,
    pub(crate) alloc: Global,
}

impl Model for StateCopy {
    ghost use Rattle.std.specs.Prelude.{◌≡◌, length};
    ghost use Rattle.std.specs.FinMap as map;
    ghost use Rattle.nic_device.specs.State.{State, state_code};

    ghost Value = { State };

    ghost coded = { state_code };

    ghost view = { λ d. record {
      registers = d.registers.value;
      memory = map.empty;
      waiting = d.waiting.items;
      staged = d.staged.items;
      out = d.out.items;
      link = d.link;
      image = d.image;
      vfs = d.config.vfs;
      fifo = d.config.fifo;
    } };

    ghost invariant = { λ d. length d.staged.items ≡ 128 };
}

impl Engine {
    /// Returns a copy of the device's state, without the packet memory.
    pub(crate) fn state_copy(&self) -> Result<StateCopy, AllocError>
        ensures { IfOk result (λ copy. copy ≡ record self.now { memory = map.empty }) }
    {
        let alloc = self.alloc;
        let registers = copied_registers(alloc, &self.registers)?;
        let waiting = copied_waiting(alloc, &self.waiting)?;
        let staged = copied_staged(alloc, &self.staged)?;
        let out = copied_out(alloc, &self.out)?;
        let image = self.image.copy()?;
        Ok(StateCopy {
            registers,
            waiting,
            staged,
            out,
            link: self.link,
            image,
            config: self.config,
            alloc,
        })
    }

    /// Makes the device's state, except for the packet memory, a copy of this state. After `AllocError` nothing has
    /// changed.
    pub(crate) fn copy_from(&mut self, state: &StateCopy) -> Result<(), AllocError>
        ensures copied { OnOk result (self.new ≡ record state.now { memory = self.old.memory }) }
        ensures unchanged { OnErr result (self.new ≡ self.old) }
    {
        let alloc = self.alloc;
        let waiting = copied_waiting(alloc, &state.waiting)?;
        let staged = copied_staged(alloc, &state.staged)?;
        let out = copied_out(alloc, &state.out)?;
        let image = state.image.copy()?;
        self.registers.copy_from(&state.registers);
        self.waiting = waiting;
        self.staged = staged;
        self.out = out;
        self.link = state.link;
        self.image = image;
        self.config = state.config;
        Ok(())
    }
}

impl StateCopy {
    /// Returns another copy. Fails with `AllocError` if there isn't enough memory for it.
    pub(crate) fn copy(&self) -> Result<StateCopy, AllocError>
        ensures { IfOk result (λ copy. copy ≡ self.now) }
    {
        let alloc = self.alloc;
        let registers = copied_registers(alloc, &self.registers)?;
        let waiting = copied_waiting(alloc, &self.waiting)?;
        let staged = copied_staged(alloc, &self.staged)?;
        let out = copied_out(alloc, &self.out)?;
        let image = self.image.copy()?;
        Ok(StateCopy {
            registers,
            waiting,
            staged,
            out,
            link: self.link,
            image,
            config: self.config,
            alloc,
        })
    }

    /// Returns the device with this memory lent to it.
    pub(crate) fn with_memory(self, memory: LentMemory) -> Engine
        ensures { result ≡ record self { memory = memory } }
    {
        let StateCopy {
            registers,
            waiting,
            staged,
            out,
            link,
            image,
            config,
            alloc,
        } = self;
        Engine {
            registers,
            memory,
            waiting,
            staged,
            out,
            link,
            image,
            config,
            alloc,
        }
    }
}

/// Returns a copy of the registers.
fn copied_registers(
    alloc: Global,
    registers: &RegisterFile,
) -> Result<Box<RegisterFile>, AllocError>
    ensures { IfOk result (λ copy. copy.value ≡ registers.now) }
{
    let copy = Box::new(alloc, registers.copy()).map_err(AllocError::from)?;
    Ok(copy)
}

/// Returns a copy of the bytes.
fn copied_bytes(alloc: Global, bytes: &Octets) -> Result<Octets, AllocError>
    ensures { IfOk result (λ copy. copy ≡ bytes.now) }
{
    let copy = Vec::from_slice(alloc, bytes.bytes())?;
    Ok(Octets::of(copy))
}

/// Returns copies of the frames in the receive list, in order.
fn copied_waiting(
    alloc: Global,
    waiting: &VecDeque<Waiting>,
) -> Result<VecDeque<Waiting>, AllocError>
    ensures { IfOk result (λ copies. copies.items ≡ waiting.now.items) }
{
    let (front, back) = waiting.as_slices();
    let mut copies = Vec::new(alloc);
    add_waiting(&mut copies, alloc, front)?;
    add_waiting(&mut copies, alloc, back)?;
    Ok(VecDeque::from_vec(copies))
}

/// Appends copies of frames in the receive list.
fn add_waiting(
    copies: &mut Vec<Waiting>,
    alloc: Global,
    waiting: &[Waiting],
) -> Result<(), AllocError>
    ensures { OnOk result (copies.new.items ≡ copies.old.items ++ waiting.now) }
{
    for frame in waiting {
        copies.push(frame.copy(alloc)?)?;
    }
    Ok(())
}

/// Returns copies of the staged bytes of each transmit queue.
fn copied_staged(alloc: Global, staged: &[Staged]) -> Result<Vec<Staged>, AllocError>
    ensures { IfOk result (λ copies. copies.items ≡ staged.now) }
{
    let mut copies = Vec::with_capacity(alloc, staged.len())?;
    for bytes in staged {
        copies.push(bytes.copy(alloc)?)?;
    }
    Ok(copies)
}

/// Returns copies of the transmitted frames, in order.
fn copied_out(
    alloc: Global,
    out: &VecDeque<(u8, Octets)>,
) -> Result<VecDeque<(u8, Octets)>, AllocError>
    ensures { IfOk result (λ copies. copies.items ≡ out.now.items) }
{
    let (front, back) = out.as_slices();
    let mut copies = Vec::new(alloc);
    add_out(&mut copies, alloc, front)?;
    add_out(&mut copies, alloc, back)?;
    Ok(VecDeque::from_vec(copies))
}

/// Appends copies of transmitted frames.
fn add_out(
    copies: &mut Vec<(u8, Octets)>,
    alloc: Global,
    out: &[(u8, Octets)],
) -> Result<(), AllocError>
    ensures { OnOk result (copies.new.items ≡ copies.old.items ++ out.now) }
{
    for (queue, frame) in out {
        copies.push((*queue, copied_bytes(alloc, frame)?))?;
    }
    Ok(())
}
