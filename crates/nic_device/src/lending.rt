//! Lending and taking back blocks, and 16-byte reads and writes of lent memory.

ghost use Rattle.std.specs.Prelude.{◌≡◌, IfOk, IfErr, OnOk, OnErr};
ghost use Rattle.nic_device.specs.Lending.{lent, taken, peeked, poked};

use crate::engine::Engine;
use crate::event::{Event, OutOfMemory, Reply};
use rx_ring::{Buf, LendRefused};

/// The number of bytes that a `Peek16` or `Poke16` moves. Their addresses must be multiples of this number.
const PEEK_BYTES: u32 = 16;

impl Engine {
    /// Lends a block to the device.
    #[inline(never)]
    pub(crate) fn lend(&mut self, buf: Buf) -> Result<Reply, OutOfMemory<Event>>
        ensures reply { IfOk result (λ reply. reply ≡ (lent self.old buf).reply) }
        ensures state { OnOk result (self.new ≡ (lent self.old buf).state) }
        ensures back { IfErr result (λ refused. refused.0 ≡ Event.Lend buf) }
        ensures unchanged { OnErr result (self.new ≡ self.old) }
        ensures memory { OnErr result ((lent self.old buf).reply ≡ Reply.Done) }
    {
        match self.memory.lend(buf) {
            Ok(()) => Ok(Reply::Done),
            Err(LendRefused::Twice(buf)) => Ok(Reply::Twice(buf)),
            Err(LendRefused::OutOfMemory(buf)) => Err(OutOfMemory(Event::Lend(buf))),
        }
    }

    /// Takes a lent block back.
    #[inline(never)]
    pub(crate) fn take(&mut self, number: u32) -> Reply
        ensures reply { result ≡ (taken self.old number).reply }
        ensures state { self.new ≡ (taken self.old number).state }
    {
        match self.memory.take(number) {
            Some(buf) => Reply::Buf(buf),
            None => Reply::NotLent,
        }
    }

    /// Reads 16 bytes at a bus address.
    #[inline(never)]
    pub(crate) fn peek16(&self, address: u32) -> Reply
        ensures reply { result ≡ (peeked self.now address).reply }
        ensures state { self.now ≡ (peeked self.now address).state }
    {
        if address % PEEK_BYTES != 0 {
            return Reply::Misaligned;
        }
        let address = u64::from(address);
        if !self.memory.is_lent(address, 16) {
            return Reply::NotLent;
        }
        Reply::Bytes(self.memory.read16(address))
    }

    /// Writes 16 bytes at a bus address.
    #[inline(never)]
    pub(crate) fn poke16(&mut self, address: u32, bytes: [u8; 16]) -> Reply
        ensures reply { result ≡ (poked self.old address bytes).reply }
        ensures state { self.new ≡ (poked self.old address bytes).state }
    {
        if address % PEEK_BYTES != 0 {
            return Reply::Misaligned;
        }
        let address = u64::from(address);
        if !self.memory.is_lent(address, 16) {
            return Reply::NotLent;
        }
        self.memory.write16(address, bytes);
        Reply::Done
    }
}
