//! A device with an arena of packet memory. Some calls move blocks between the device and the arena; the others run the
//! device's other events.

ghost use Rattle.std.specs.Prelude.{◌≡◌, ◌<◌, ◌≤◌, ◌↔◌, ℕ, [], true, false, IsFalse, IfOk, OnOk, OnErr, Ok, Err};
ghost use Rattle.std.specs.FinMap as map;
ghost use Rattle.std.specs.Vec.{vec_capacity};
ghost use Rattle.nic_device.specs.Config.{IsBadFifo};
ghost use Rattle.nic_device.specs.DmaArena.Block.{zero_block};
ghost use Rattle.nic_device.specs.DmaArena.Memory.{has_block};
ghost use Rattle.nic_device.specs.DmaArena.Numbers.{count_of, is_free};
ghost use Rattle.nic_device.specs.Link.{next_out_of};
ghost use Rattle.nic_device.specs.Step.{reply_to, reported_word, moves_block, hands_out, TakesMemory};
ghost use Rattle.card.specs.Card.{AreShared, CanReturn, arena_after, new_card, made, reply_of_read, reply_of_write, IsOfWrite, with_lent, with_taken, lent_below, with_image};

use nic_device::{
    Arena, Buf, Config, Device, Event, Image, LentMemory, MAX_VFS, NewFault, Note, Parts, Port,
    Reply, ReplyNote,
};
use std::alloc::{AllocError, Global};
use std::marker::Model;

/// A device, and an arena of blocks numbered from 0. Each block is free in the arena or lent to the device. Dropping a
/// card frees the device and the arena.
pub struct Card {
    pub(crate) device: Device,
    pub(crate) arena: Arena,
}

impl Model for Card {
    ghost use Rattle.card.specs.Card.{Holdings, AreShared, holdings_code};

    ghost Value = { Holdings };

    ghost coded = { holdings_code };

    ghost view = { λ c. record { device = c.device; arena = c.arena } };

    ghost invariant = { λ c. AreShared c.device.memory c.arena };
}

/// Converts a reply that contains no block to a note, and returns the note.
fn note_of(reply: Reply) -> ReplyNote
    requires { IsFalse (hands_out reply) }
    ensures { result ≡ reply }
{
    match reply.into_note() {
        Ok(note) => note,
        Err(_buf) => unreachable!(),
    }
}

/// Drops the reply to a lend, and returns true.
fn is_lent_by(reply: Reply) -> bool
    requires { IsFalse (hands_out reply) }
    ensures { result ≡ true }
{
    let _done = note_of(reply);
    true
}

/// Whether a write reached no register, according to the device's reply.
#[inline]
fn is_stray(reply: Reply) -> bool
    requires { IsOfWrite reply }
    ensures { reply ≡ reply_of_write result }
{
    match reply {
        Reply::Done => false,
        Reply::Stray(_zero) => true,
        _ => unreachable!(),
    }
}

/// Converts a reply to a note, and returns the note. If the reply contains a block, the block is returned to the arena,
/// and its bytes are copied into `room`.
fn note_returned(arena: &mut Arena, reply: Reply, room: Vec<u8>) -> ReplyNote
    requires own { CanReturn arena.old reply }
    requires empty { room.items ≡ [] }
    requires room { vec_capacity room ≡ 2048 }
    ensures reply { result ≡ reply }
    ensures arena { arena.new ≡ arena_after arena.old reply }
{
    match reply.into_note() {
        Ok(note) => note,
        Err(buf) => {
            let note = Note::of(&buf, room);
            arena.give_back(buf);
            Reply::Buf(note)
        }
    }
}

/// Frees lent memory that contains no blocks.
fn end_memory(memory: LentMemory)
    requires { (number : ℕ) → has_block memory number ≡ false }
{
    match memory.lowest() {
        Some(_) => unreachable!(),
        None => {}
    }
    match memory.finish() {
        Ok(()) => {}
        Err(_memory) => unreachable!(),
    }
}

/// Takes a block back, if it is lent, and returns it to the arena.
fn take_back(memory: &mut LentMemory, arena: &mut Arena, number: u32)
    requires { AreShared memory.old arena.old }
    ensures shared { AreShared memory.new arena.new }
    ensures count { count_of arena.new ≡ count_of arena.old }
    ensures taken { has_block memory.new number ≡ false }
    ensures others { (other : ℕ) → has_block memory.old other ≡ false → has_block memory.new other ≡ false }
{
    if let Some(buf) = memory.take(number) {
        arena.give_back(buf);
    }
}

/// Takes all blocks back and closes the arena.
fn close(mut memory: LentMemory, mut arena: Arena)
    requires { AreShared memory arena }
{
    let count = arena.count();
    for number in 0..count {
        take_back(&mut memory, &mut arena, number);
    }
    end_memory(memory);
    match arena.close() {
        Ok(()) => {}
        Err(_arena) => unreachable!(),
    }
}

/// Frees a device that has no lent memory.
fn end_device(device: Device)
    requires { device.memory ≡ map.empty }
{
    let Parts {
        memory,
        frames: _,
        image: _,
    } = device.dismantle();
    match memory.finish() {
        Ok(()) => {}
        Err(_memory) => unreachable!(),
    }
}

impl Card {
    /// Creates a card with a new device and 1 to 65,536 blocks (`blocks`), all free.
    ///
    /// Errors: `TooManyVfs`, `Fifo` and `OutOfMemory`, as for `Device::new`. If the configuration is refused, nothing
    /// is allocated; the contract doesn't state this.
    pub fn new(alloc: Global, config: Config, blocks: u32) -> Result<Card, NewFault>
        requires some { 0 < blocks }
        requires few { blocks ≤ 65536 }
        ensures made { IfOk result (λ card. card ≡ new_card config.vfs config.fifo blocks) }
        ensures too_many_vfs { (result ≡ Err NewFault.TooManyVfs) ↔ (MAX_VFS < config.vfs) }
        ensures fifo { (result ≡ Err NewFault.Fifo) ↔ ((config.vfs ≤ MAX_VFS) × IsBadFifo config.fifo) }
    {
        let device = Device::new(alloc, config)?;
        match Arena::new(alloc, 0, blocks) {
            Ok(arena) => Ok(Card { device, arena }),
            Err(_) => {
                end_device(device);
                Err(NewFault::OutOfMemory)
            }
        }
    }

    /// Runs an event that moves no block, and returns the reply. If memory runs out, returns `AllocError` and changes
    /// nothing.
    #[inline(always)]
    pub fn make(&mut self, event: Event) -> Result<ReplyNote, AllocError>
        requires { IsFalse (moves_block event) }
        ensures reply { IfOk result (λ reply. reply ≡ reply_to self.old.device event) }
        ensures made { OnOk result (self.new ≡ made self.old event) }
        // The reply contains no block.
        ensures none { IfOk result (λ reply. IsFalse (hands_out reply)) }
        ensures unchanged { OnErr result (self.new ≡ self.old) }
        ensures memory { OnErr result (TakesMemory self.old.device event) }
    {
        match self.device.step(event) {
            Ok(reply) => return Ok(note_of(reply)),
            Err(refused) => match refused.0.into_buf() {
                None => return Err(AllocError),
                Some(_buf) => unreachable!(),
            },
        }
    }

    /// Reads a register through a port, with the read's side effects. Returns the value, and `true` if the access
    /// reached no register.
    #[inline]
    pub fn read(&mut self, port: Port, number: u32) -> (u32, bool)
        ensures reply { reply_to self.old.device (Event.Read port number) ≡ reply_of_read result.0 result.1 }
        ensures made { self.new ≡ made self.old (Event.Read port number) }
    {
        match self.device.step(Event::Read(port, number)) {
            Ok(Reply::Word(word)) => (word, false),
            Ok(Reply::Stray(word)) => (word, true),
            Ok(_reply) => unreachable!(),
            Err(_refused) => unreachable!(),
        }
    }

    /// Writes a register through a port. Returns `true` if the access reached no register.
    #[inline]
    pub fn write(&mut self, port: Port, number: u32, word: u32) -> bool
        ensures reply { reply_to self.old.device (Event.Write port number word) ≡ reply_of_write result }
        ensures made { self.new ≡ made self.old (Event.Write port number word) }
    {
        match self.device.step(Event::Write(port, number, word)) {
            Ok(reply) => is_stray(reply),
            Err(_refused) => unreachable!(),
        }
    }

    /// Lends a free block, with all bytes 0. Returns `false` and changes nothing if and only if the block isn't free.
    /// If memory runs out, returns `AllocError` and changes nothing.
    pub fn lend(&mut self, block: u32) -> Result<bool, AllocError>
        ensures free { IfOk result (λ lent. lent ≡ is_free self.old.arena block) }
        ensures lent { OnOk result (self.new ≡ with_lent self.old block) }
        // If the result is `true`, the device's reply is `Done`.
        ensures done { result ≡ Ok true → reply_to self.old.device (Event.Lend (zero_block block)) ≡ Reply.Done }
        ensures unchanged { OnErr result (self.new ≡ self.old) }
        // Memory can run out only if the block is free.
        ensures wanted { OnErr result (is_free self.old.arena block ≡ true) }
        ensures memory { OnErr result (TakesMemory self.old.device (Event.Lend (zero_block block))) }
    {
        let Some(buf) = self.arena.take_at(block) else {
            return Ok(false);
        };
        match self.device.step(Event::Lend(buf)) {
            Ok(reply) => Ok(is_lent_by(reply)),
            Err(refused) => match refused.0.into_buf() {
                Some(buf) => {
                    self.arena.give_back(buf);
                    Err(AllocError)
                }
                None => unreachable!(),
            },
        }
    }

    /// Takes a block back and returns it to the arena. Returns `false` and changes nothing if and only if the block
    /// isn't lent.
    pub fn take(&mut self, block: u32) -> bool
        ensures lent { result ≡ has_block self.old.device.memory block }
        ensures taken { self.new ≡ with_taken self.old block }
    {
        match self.device.step(Event::Take(block)) {
            Ok(reply) => match reply.into_buf() {
                None => false,
                Some(buf) => {
                    self.arena.give_back(buf);
                    true
                }
            },
            Err(_refused) => unreachable!(),
        }
    }

    /// Takes a block back and returns it to the arena. The reply is `NotLent`, or `Buf` with a note. The note's bytes
    /// are copied into `room`, which must be an empty vector with a capacity of 2,048 bytes.
    pub fn take_noted(&mut self, block: u32, room: Vec<u8>) -> ReplyNote
        requires empty { room.items ≡ [] }
        requires room { vec_capacity room ≡ 2048 }
        ensures reply { result ≡ reply_to self.old.device (Event.Take block) }
        ensures taken { self.new ≡ with_taken self.old block }
    {
        match self.device.step(Event::Take(block)) {
            Ok(reply) => note_returned(&mut self.arena, reply, room),
            Err(_refused) => unreachable!(),
        }
    }

    #[tactic(auto, unfolding(crate::specs::Card::lent_below))]
    /// Lends all free blocks, in the order of their numbers. If memory runs out for a block, returns `AllocError`; the
    /// free blocks below that block have then been lent, and no others.
    pub fn lend_all(&mut self) -> Result<(), AllocError>
        ensures lent { OnOk result (self.new ≡ lent_below self.old (count_of self.old.arena)) }
        ensures stopped { OnErr result ((block : ℕ) × (block < count_of self.old.arena)
            × (self.new ≡ lent_below self.old block)) }
    {
        for block in 0..self.arena.count() {
            self.lend(block)?;
        }
        Ok(())
    }

    /// Returns what a read of a register would return, without the read's side effects, or `None` if the address or
    /// offset has no register.
    pub fn peek(&self, port: Port, number: u32) -> Option<u32>
        ensures { result ≡ reported_word (reply_to self.now.device (Event.Read port number)) }
    {
        match port {
            Port::Pf => self.device.peek_register(number),
            Port::Vf(v) => self.device.peek_vf(v, number),
        }
    }

    /// Returns the number of virtual functions that the device has.
    pub fn vfs(&self) -> u8
        ensures { result ≡ self.now.device.vfs }
    {
        self.device.vfs()
    }

    /// Returns the length in bytes of the frame that the next `Collect` would return, or 0 if there is no such frame.
    pub fn next_out(&self) -> usize
        ensures { result ≡ next_out_of self.now.device.out }
    {
        self.device.next_out()
    }

    /// Installs an EEPROM image and drops the old one.
    pub fn install(&mut self, image: Image)
        ensures { self.new ≡ with_image self.old image }
    {
        let _former = self.device.install(image);
    }
}

/// Takes all lent blocks back, and frees the device and the arena.
impl Drop for Card {
    fn drop(self) {
        let Card { device, arena } = self;
        let Parts {
            memory,
            frames: _,
            image: _,
        } = device.dismantle();
        close(memory, arena);
    }
}
