//! Register reads and writes, and the device reset that a write can request.

ghost use Rattle.std.specs.Prelude.{◌≡◌, ◌<◌, [], length, replicate};
ghost use Rattle.register_file.specs.RegTable.Rows.{row_of};
ghost use Rattle.register_file.specs.Access.{read_word};
ghost use Rattle.nic_device.specs.State.{cleared};
ghost use Rattle.nic_device.specs.Eeprom.{reset};
ghost use Rattle.nic_device.specs.Access.{around, register_read, register_written, state_written, word_read};
ghost use Rattle.nic_device.specs.PoolReset.{written_below_reset};
ghost use Rattle.nic_device.specs.Step.{reported_word};

use crate::engine::Engine;
use crate::event::{Port, Reply};
use crate::named::Named;
use register_file::{Place, RowId, Surroundings, asks_pool_reset, asks_reset};
use tx_ring::Staged;

impl Engine {
    /// Reads a register by its number at a port, with the read's side effects.
    #[inline(always)]
    pub(crate) fn read(&mut self, port: Port, number: u32) -> Reply
        ensures reply { result ≡ (register_read self.old port number).reply }
        ensures state { self.new ≡ (register_read self.old port number).state }
    {
        match self.named(port, number) {
            Named::Nothing(seen) => Reply::Stray(seen),
            Named::Register(place, view) => {
                let around = self.around_for(place);
                Reply::Word(self.registers.read(around, place) & view)
            }
        }
    }

    /// Returns what a read of a register would return, without the read's side effects. Returns `None` if no register
    /// has this number.
    pub(crate) fn peek(&self, port: Port, number: u32) -> Option<u32>
        ensures { result ≡ reported_word (register_read self.now port number).reply }
    {
        match self.named(port, number) {
            Named::Nothing(_) => None,
            Named::Register(place, view) => Some(self.registers.peek(self.around(), place) & view),
        }
    }

    /// Writes a register by its number at a port.
    #[inline(always)]
    pub(crate) fn write(&mut self, port: Port, number: u32, word: u32) -> Reply
        ensures reply { result ≡ (register_written self.old port number word).reply }
        ensures state { self.new ≡ (register_written self.old port number word).state }
    {
        match self.named(port, number) {
            Named::Nothing(_) => Reply::Stray(0),
            Named::Register(place, view) => {
                self.write_place(place, view, word);
                Reply::Done
            }
        }
    }

    /// Writes a place through an address that shows the bits of `view`. A write that requests a device reset has no
    /// other effect.
    #[inline(always)]
    fn write_place(&mut self, place: Place, view: u32, word: u32)
        requires { place.index < (row_of place.row).count }
        ensures { self.new ≡ state_written self.old place view word }
    {
        if asks_reset(place, word) {
            self.reset();
        } else {
            self.write_below_reset(place, view, word);
        }
    }

    /// Writes a place through an address that shows the bits of `view`. The write must not request a device reset. A
    /// write that requests a pool reset has no other effect.
    #[inline(always)]
    pub(crate) fn write_below_reset(&mut self, place: Place, view: u32, word: u32)
        requires { place.index < (row_of place.row).count }
        ensures { self.new ≡ written_below_reset self.old place view word }
    {
        if asks_pool_reset(place, word) {
            self.reset_pool(place.index as u8);
        } else {
            self.registers.write(place, view, word);
        }
    }

    /// Returns the device state that registers report: the link and the EEPROM's size.
    #[inline(always)]
    pub(crate) fn around(&self) -> Surroundings
        ensures { result ≡ around self.now }
    {
        Surroundings {
            link: self.link,
            eeprom: self.image.doublings(),
        }
    }

    /// Returns the device state that a place reports. The EEPROM's size takes a loop to compute, and only EEC reports
    /// it.
    #[inline(always)]
    fn around_for(&self, place: Place) -> Surroundings
        ensures { read_word (row_of place.row).kind self.now.registers result place ≡ word_read self.now place }
    {
        match place.row {
            RowId::Eec => self.around(),
            _ => Surroundings {
                link: self.link,
                eeprom: 0,
            },
        }
    }

    /// Resets the device, then performs the register writes that the EEPROM image contains.
    #[inline(never)]
    fn reset(&mut self)
        ensures { self.new ≡ reset self.old }
    {
        self.clear();
        self.apply_image();
    }

    /// Clears the registers, the receive list and all staged bytes.
    fn clear(&mut self)
        ensures { self.new ≡ cleared self.old }
    {
        self.registers.reset();
        self.waiting.clear();
        clear_all(self.staged.as_mut_slice());
    }
}

/// Drops the staged bytes of all queues.
fn clear_all(staged: &mut [Staged])
    ensures { staged.new ≡ replicate (length staged.old) [] }
{
    for queue in 0..staged.len() {
        staged[queue].clear();
    }
}
