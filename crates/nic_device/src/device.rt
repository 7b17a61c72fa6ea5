ghost use Rattle.std.specs.Prelude.{◌≡◌, true, ◌<◌, ◌≤◌, ◌↔◌, Err, IfOk, IfErr, OnOk, OnErr};
ghost use Rattle.nic_device.specs.Answering.{may_answer, note_length, note_room};
ghost use Rattle.nic_device.specs.State.{new_state};
ghost use Rattle.nic_device.specs.Config.{IsBadFifo};
ghost use Rattle.nic_device.specs.Link.{next_out_of};
ghost use Rattle.nic_device.specs.Sound.{IsSound};
ghost use Rattle.nic_device.specs.Step.{step_of, TakesMemory, reported_word};

use crate::config::{Config, MAX_FIFO, NewFault};
use crate::engine::Engine;
use crate::event::{Event, OutOfMemory, Port, Reply};
use eeprom_image::Image;
use register_file::MAX_VFS;
use rx_ring::{BLOCK_BYTES, LentMemory, Octets};
use std::alloc::Global;
use std::marker::Model;

/// An Intel 82599 with the packet memory lent to it. A device can't be dropped, because it holds that memory;
/// `dismantle` ends the device and returns the memory.
///
/// Between two events a device is sound; see `stays_sound`.
pub struct Device {
    pub(crate) engine: Engine,
}

impl Model for Device {
    ghost use Rattle.nic_device.specs.State.{State, state_code};
    ghost use Rattle.nic_device.specs.Sound.{IsSound};

    ghost Value = { State };

    ghost coded = { state_code };

    ghost view = { λ d. d.engine };

    ghost invariant = { λ d. IsSound d.engine };
}

/// What remains of a device after it is dismantled.
pub struct Parts {
    /// The blocks that were lent to the device.
    pub memory: LentMemory,
    /// The transmitted frames that weren't collected, oldest first, each with its transmit queue, 0 to 127.
    pub frames: Vec<(u8, Octets)>,
    /// The installed EEPROM image.
    pub image: Image,
}

impl Device {
    /// Creates a device in its reset state. Each register has its reset value, no memory is lent, there are no frames
    /// and no staged bytes, the link is up, and the EEPROM image is blank.
    ///
    /// Errors: `TooManyVfs` if and only if there are more than `MAX_VFS` (63) virtual functions. Otherwise `Fifo` if
    /// and only if the capacity of the receive list is 0 or above `MAX_FIFO` (4,096). `OutOfMemory` only if neither
    /// applies. A refused configuration allocates nothing, but no clause states this.
    pub fn new(alloc: Global, config: Config) -> Result<Self, NewFault>
        ensures made { IfOk result (λ device. device ≡ new_state config.vfs config.fifo) }
        ensures fits { OnOk result ((config.vfs ≤ MAX_VFS) × ¬ IsBadFifo config.fifo) }
        ensures too_many_vfs { (result ≡ Err NewFault.TooManyVfs) ↔ (MAX_VFS < config.vfs) }
        ensures fifo { (result ≡ Err NewFault.Fifo) ↔ ((config.vfs ≤ MAX_VFS) × IsBadFifo config.fifo) }
    {
        if config.vfs > MAX_VFS {
            return Err(NewFault::TooManyVfs);
        }
        if config.fifo == 0 || config.fifo > MAX_FIFO {
            return Err(NewFault::Fifo);
        }
        let engine = Engine::new(alloc, config)?;
        Ok(Device { engine })
    }

    /// Installs an EEPROM image and returns the old one. EEC shows the new image's size immediately, and the next
    /// EEPROM step reads from the new image. A word that is already in EERD stays there. While the image is installed,
    /// each device reset performs the register writes in the image, except writes to CTRL, to EERD, or to an address
    /// without a register.
    pub fn install(&mut self, image: Image) -> Image
        ensures former { result ≡ self.old.image }
        ensures installed { self.new ≡ record self.old { image = image } }
    {
        let _words = image.words();
        self.engine.install(image)
    }

    /// Runs one event. If memory runs out, the event is returned in the error and the device is unchanged. Only these
    /// events can run out of memory: `Lend` of a block whose number isn't lent, `Arrive` of a frame that would be
    /// accepted, and a `TxStep` that isn't idle, for a queue below 128.
    #[inline(always)]
    pub fn step(&mut self, event: Event) -> Result<Reply, OutOfMemory<Event>>
        ensures reply { IfOk result (λ reply. reply ≡ (step_of self.old event).reply) }
        ensures state { OnOk result (self.new ≡ (step_of self.old event).state) }
        ensures back { IfErr result (λ refused. refused.0 ≡ event) }
        ensures unchanged { OnErr result (self.new ≡ self.old) }
        ensures memory { OnErr result (TakesMemory self.old event) }
        // The reply is one that this event can have.
        ensures fits { IfOk result (λ reply. may_answer event reply ≡ true) }
    {
        event.is_of_a_driver();
        self.engine.step(event)
    }

    /// States that the device is sound between two calls, whatever happened before. The call does nothing.
    ///
    /// A device is sound if its registers, frames and staged bytes are sound, each lent block is whole, the EEPROM
    /// image is valid, and the configuration is in range. Frames and staged bytes are sound if the following holds.
    /// Each frame in the receive list is 60 to 65,535 bytes long, isn't completely written yet, and is for a queue
    /// below 128. It has a valid RSS type number and a 32-bit hash, which is 0 if the type is 0. Only the oldest frame
    /// may be partly written, and only while the receive side of its queue is enabled. The list contains no more frames
    /// than its capacity. Each of the 128 queues stages at most 65,535 bytes, and none while its transmit side is
    /// disabled. Each transmitted frame is from a queue below 128 and at most 65,535 bytes long.
    ///
    /// Registers are sound if each place in the register table exists, and the following holds. A register contains
    /// only bits of its row's reset value and bits that can become 1 in the register. A write can set the mask's bits.
    /// In an enable register, bit 25 can also become 1. All bits can become 1 in a counter and in EERD, and bits 2 to 7
    /// in PVFMAILBOX. No bit can become 1 in PFMAILBOX or in a register that only acts or is calculated. A cause is
    /// reported only while its cause bit and its mask bit are 1. Each PVFMAILBOX has at most one of bits 2 and 3 set,
    /// and at most one of bits 6 and 7.
    pub fn stays_sound(&self)
        ensures { IsSound self.now }
    {
        let _opened = &self.engine;
    }

    #[tactic(auto, unfolding(crate::specs::Step::step_of))]
    /// Returns what the physical function would read at an address, without the read's side effects. Returns `None` if
    /// no register is there.
    pub fn peek_register(&self, address: u32) -> Option<u32>
        ensures { result ≡ reported_word (step_of self.now (Event.Read Port.Pf address)).reply }
    {
        self.engine.peek(Port::Pf, address)
    }

    #[tactic(auto, unfolding(crate::specs::Step::step_of))]
    /// Returns what virtual function v would read at an offset, without the read's side effects. Returns `None` if no
    /// register is there: at a hole, if the device doesn't have the function, or if the function has no pool.
    pub fn peek_vf(&self, v: u8, offset: u32) -> Option<u32>
        ensures { result ≡ reported_word (step_of self.now (Event.Read (Port.Vf v) offset)).reply }
    {
        self.engine.peek(Port::Vf(v), offset)
    }

    /// Returns the number of virtual functions that the device has.
    pub fn vfs(&self) -> u8
        ensures { result ≡ self.now.vfs }
    {
        self.engine.config.vfs
    }

    /// Returns the length in bytes of the frame that `Collect` would return, or 0 if there is none.
    pub fn next_out(&self) -> usize
        ensures { result ≡ next_out_of self.now.out }
    {
        let engine = &self.engine;
        match engine.out.front() {
            Some((_, bytes)) => bytes.bytes().len(),
            None => 0,
        }
    }

    /// Returns an upper bound on the bytes that the note of an event's reply needs, so you can reserve room before you
    /// run the event. The bound is 2,048 for `Lend` and `Take`, whatever their reply. For `Collect` it is the length of
    /// the oldest transmitted frame, or 0 if there is none. For any other event it is 0.
    pub fn note_room(&self, event: &Event) -> usize
        ensures room { result ≡ note_room self.now event.now }
        // The reply's note needs at most this many bytes.
        ensures enough { note_length (step_of self.now event.now).reply ≤ result }
    {
        event.is_of_a_driver();
        self.stays_sound();
        self.room_of(event)
    }

    /// Computes `note_room`: the size of a block for `Lend` and `Take`, the next frame's length for `Collect`,
    /// otherwise 0.
    fn room_of(&self, event: &Event) -> usize
        ensures { result ≡ note_room self.now event.now }
    {
        match event {
            Event::Lend(_) | Event::Take(_) => BLOCK_BYTES,
            Event::Collect => self.next_out(),
            _ => 0,
        }
    }

    /// Ends the device. Returns the lent memory, the transmitted frames that weren't collected, oldest first, and the
    /// EEPROM image. All other state is lost.
    pub fn dismantle(self) -> Parts
        ensures memory { result.memory ≡ self.memory }
        ensures frames { result.frames.items ≡ self.out }
        ensures image { result.image ≡ self.image }
    {
        let Device { engine } = self;
        let Engine {
            registers: _,
            memory,
            waiting: _,
            staged: _,
            out,
            link: _,
            image,
            config: _,
            alloc: _,
        } = engine;
        Parts {
            memory,
            frames: out.into_vec(),
            image,
        }
    }
}
