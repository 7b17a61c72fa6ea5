//! The two sides of a queue: their rings, and how the sides are enabled and disabled.

ghost use Rattle.std.specs.Prelude.{◌≡◌, ◌+◌, ◌*◌, ◌%◌, ◌^◌, ◌≤◌, ◌<◌};
ghost use Rattle.dma_ring.specs.Ring.{slots_of};
ghost use Rattle.register_file.specs.Bits.{has_bit, bit_set, bit_cleared};
ghost use Rattle.register_file.specs.Registers.{with_word};
ghost use Rattle.register_file.specs.Queue.{enable_row, ring_of, is_on, with_head, switched, switched_on, switched_off, shut};

use crate::register_file::RegisterFile;
use dma_ring::{Dir, Ring};
use reg_table::{RowId, Rxdctl, Txdctl, has_flag, with_flag, without_flag};

impl RegisterFile {
    /// Returns the ring that the registers describe for one side of a queue below `QUEUES`. The ring has at most 65,536
    /// slots.
    #[inline(always)]
    pub fn ring(&self, dir: Dir, queue: u16) -> Ring
        requires { queue < 128 }
        ensures ring { result ≡ ring_of self.now dir queue }
        ensures slots { slots_of result ≤ 65536 }
    {
        match dir {
            Dir::Rx => ring_by(
                self.word(RowId::Rdbal, queue),
                self.word(RowId::Rdbah, queue),
                self.word(RowId::Rdlen, queue),
                self.word(RowId::Rdh, queue),
                self.word(RowId::Rdt, queue),
            ),
            Dir::Tx => ring_by(
                self.word(RowId::Tdbal, queue),
                self.word(RowId::Tdbah, queue),
                self.word(RowId::Tdlen, queue),
                self.word(RowId::Tdh, queue),
                self.word(RowId::Tdt, queue),
            ),
        }
    }

    /// Whether a side of a queue below `QUEUES` is enabled: bit 25 of RXDCTL or TXDCTL is 1.
    #[inline(always)]
    pub fn is_on(&self, dir: Dir, queue: u16) -> bool
        requires { queue < 128 }
        ensures { result ≡ is_on self.now dir queue }
    {
        is_enabled(dir, self.word(enable_row(dir), queue))
    }

    /// Sets the head (RDH or TDH) of a side of a queue below `QUEUES`. The head must be below 65,536.
    #[inline(always)]
    pub fn move_head(&mut self, dir: Dir, queue: u16, head: u16)
        requires { queue < 128 }
        ensures { self.new ≡ with_head self.old dir queue head }
    {
        match dir {
            Dir::Rx => self.set_word(RowId::Rdh, queue, u32::from(head)),
            Dir::Tx => self.set_word(RowId::Tdh, queue, u32::from(head)),
        }
    }

    /// Enables a side of a queue below `QUEUES` if the side has an enable request; otherwise disables the side.
    pub fn switch(&mut self, dir: Dir, queue: u16)
        requires { queue < 128 }
        ensures { self.new ≡ switched self.old dir queue }
    {
        if self.is_wanted(dir, queue) {
            self.switch_on(dir, queue);
        } else {
            self.switch_off(dir, queue);
        }
    }

    /// Disables a side of a queue below `QUEUES` and withdraws its enable request, as after a fault.
    pub fn shut(&mut self, dir: Dir, queue: u16)
        requires { queue < 128 }
        ensures { self.new ≡ shut self.old dir queue }
    {
        self.switch_off(dir, queue);
        self.want(dir, queue, false);
    }

    fn switch_on(&mut self, dir: Dir, queue: u16)
        requires { queue < 128 }
        ensures { self.new ≡ switched_on self.old dir queue }
    {
        let word = self.word(enable_row(dir), queue);
        self.set_enable(dir, queue, enabled(dir, word));
    }

    fn switch_off(&mut self, dir: Dir, queue: u16)
        requires { queue < 128 }
        ensures { self.new ≡ switched_off self.old dir queue }
    {
        let word = self.word(enable_row(dir), queue);
        self.set_enable(dir, queue, disabled(dir, word));
    }

    fn set_enable(&mut self, dir: Dir, queue: u16, word: u32)
        requires { queue < 128 }
        ensures { self.new ≡ with_word self.old (enable_row dir) queue word }
    {
        match dir {
            Dir::Rx => self.set_word(RowId::Rxdctl, queue, word),
            Dir::Tx => self.set_word(RowId::Txdctl, queue, word),
        }
    }
}

/// Returns the ring that these register values describe.
#[inline(always)]
fn ring_by(base_low: u32, base_high: u32, length: u32, head: u32, tail: u32) -> Ring
    ensures base { result.base ≡ base_high * 2 ^ 32 + base_low }
    ensures length { result.length ≡ length % 2 ^ 20 }
    ensures head { result.head ≡ head % 2 ^ 16 }
    ensures tail { result.tail ≡ tail % 2 ^ 16 }
{
    Ring {
        base: u64::from(base_high) * 0x1_0000_0000 + u64::from(base_low),
        length: length % 0x10_0000,
        head: (head % 0x1_0000) as u16,
        tail: (tail % 0x1_0000) as u16,
    }
}

/// Whether a side with this enable register value is enabled.
#[inline(always)]
fn is_enabled(dir: Dir, word: u32) -> bool
    ensures { result ≡ has_bit 25 word }
{
    match dir {
        Dir::Rx => has_flag(word, Rxdctl::ENABLE),
        Dir::Tx => has_flag(word, Txdctl::ENABLE),
    }
}

/// Returns a side's enable register value with the side enabled.
fn enabled(dir: Dir, word: u32) -> u32
    ensures { result ≡ bit_set 25 word }
{
    match dir {
        Dir::Rx => with_flag(word, Rxdctl::ENABLE),
        Dir::Tx => with_flag(word, Txdctl::ENABLE),
    }
}

/// Returns a side's enable register value with the side disabled.
fn disabled(dir: Dir, word: u32) -> u32
    ensures { result ≡ bit_cleared 25 word }
{
    match dir {
        Dir::Rx => without_flag(word, Rxdctl::ENABLE),
        Dir::Tx => without_flag(word, Txdctl::ENABLE),
    }
}

/// Returns the row of a side's enable register: RXDCTL or TXDCTL.
#[inline(always)]
fn enable_row(dir: Dir) -> RowId
    ensures { result ≡ enable_row dir }
{
    match dir {
        Dir::Rx => RowId::Rxdctl,
        Dir::Tx => RowId::Txdctl,
    }
}
