ghost use Rattle.std.specs.Prelude.{◌≡◌, IfOk, IfErr, OnOk, OnErr, length};
ghost use Rattle.nic_device.specs.State.{new_state, none_staged};
ghost use Rattle.nic_device.specs.Step.{step_of, TakesMemory};

use crate::config::Config;
use crate::event::{Event, OutOfMemory, Reply};
use crate::waiting::Waiting;
use eeprom_image::Image;
use register_file::{QUEUES, RegisterFile};
use rx_ring::{LentMemory, Octets};
use std::alloc::{AllocError, Global};
use std::collections::VecDeque;
use std::marker::Model;
use tx_ring::Staged;

/// The parts of a device, and the code that runs its events. `Device` keeps an engine sound. An engine can't be dropped
/// while packet memory is lent to it; in the end it is dismantled.
pub(crate) struct Engine {
    pub(crate) registers: Box<RegisterFile>,
    pub(crate) memory: LentMemory,
    pub(crate) waiting: VecDeque<Waiting>,
    pub(crate) staged: Vec<Staged>,
    pub(crate) out: VecDeque<(u8, Octets)>,
    pub(crate) link: bool,
    pub(crate) image: Image,
    pub(crate) config: Config,
    pub(crate) alloc: Global,
}

impl Model for Engine {
    ghost use Rattle.std.specs.Prelude.{◌≡◌, length};
    ghost use Rattle.nic_device.specs.State.{State, state_code};

    ghost Value = { State };

    ghost coded = { state_code };

    ghost view = { λ d. record {
      registers = d.registers.value;
      memory = d.memory;
      waiting = d.waiting.items;
      staged = d.staged.items;
      out = d.out.items;
      link = d.link;
      image = d.image;
      vfs = d.config.vfs;
      fifo = d.config.fifo;
    } };

    ghost invariant = { λ d. length d.staged.items ≡ 128 };
}

impl Engine {
    /// Creates a device in its reset state, with no memory lent, the link up and a blank image.
    pub(crate) fn new(alloc: Global, config: Config) -> Result<Self, AllocError>
        ensures { IfOk result (λ engine. engine ≡ new_state config.vfs config.fifo) }
    {
        let registers = Box::new(alloc, RegisterFile::new()).map_err(AllocError::from)?;
        let staged = none_staged(alloc)?;
        let image = Image::blank(alloc)?;
        Ok(Engine {
            registers,
            memory: LentMemory::new(alloc),
            waiting: VecDeque::new(alloc),
            staged,
            out: VecDeque::new(alloc),
            link: true,
            image,
            config,
            alloc,
        })
    }

    #[tactic(auto, unfolding(crate::specs::Step::step_of))]
    /// Runs one event.
    #[inline(always)]
    pub(crate) fn step(&mut self, event: Event) -> Result<Reply, OutOfMemory<Event>>
        ensures reply { IfOk result (λ reply. reply ≡ (step_of self.old event).reply) }
        ensures state { OnOk result (self.new ≡ (step_of self.old event).state) }
        ensures back { IfErr result (λ refused. refused.0 ≡ event) }
        ensures unchanged { OnErr result (self.new ≡ self.old) }
        ensures memory { OnErr result (TakesMemory self.old event) }
    {
        match event {
            Event::Read(port, number) => Ok(self.read(port, number)),
            Event::Write(port, number, word) => Ok(self.write(port, number, word)),
            Event::Lend(buf) => self.lend(buf),
            Event::Take(number) => Ok(self.take(number)),
            Event::Peek16(address) => Ok(self.peek16(address)),
            Event::Poke16(address, bytes) => Ok(self.poke16(address, bytes)),
            Event::Arrive(frame) => self.arrive(frame),
            Event::RxStep => Ok(self.receive()),
            Event::TxStep(queue) => self.transmit(queue),
            Event::IntStep(group) => Ok(self.send_message(group)),
            Event::QueueStep(dir, queue) => Ok(self.switch_queue(dir, queue)),
            Event::EepromStep => Ok(self.read_eeprom()),
            Event::Link(up) => Ok(self.set_link(up)),
            Event::Collect => Ok(self.collect()),
        }
    }
}

/// Creates staged bytes for 128 transmit queues, all empty.
fn none_staged(alloc: Global) -> Result<Vec<Staged>, AllocError>
    ensures { IfOk result (λ staged. staged.items ≡ none_staged) }
{
    let mut staged = Vec::with_capacity(alloc, usize::from(QUEUES))?;
    for _queue in 0..QUEUES {
        staged.push(Staged::new(alloc))?;
    }
    Ok(staged)
}
