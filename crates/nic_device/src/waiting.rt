//! A frame in the receive list.

ghost use Rattle.std.specs.Prelude.{◌≡◌, ◌<◌, ◌≤◌, ◌+◌, ◌*◌, ◌^◌, ◌==◌, not, length, IfOk};
ghost use Rattle.rx_ring.specs.Item.{rest_of};
ghost use Rattle.nic_device.specs.State.{Waiting};
ghost use Rattle.nic_device.specs.Arrival.{let_in};
ghost use Rattle.nic_device.specs.Receive.{rest_of as rest_of_waiting, packet_of};

use register_file::classify;
use rx_filter::Target;
use rx_ring::{Item, Octets, Packet, packet_word};
use std::alloc::{AllocError, Global};
use std::marker::Model;

/// A frame in the receive list: its bytes, its receive queue, its RSS hash and type, how many of its bytes are written,
/// and the first half of the descriptors written back for it. The first half is stored here, so the frame is classified
/// only once.
#[derive(Drop)]
pub(crate) struct Waiting {
    frame: Octets,
    queue: u16,
    hash: u32,
    rss: u8,
    offset: usize,
    first: u64,
}

impl Model for Waiting {
    ghost use Rattle.std.specs.Prelude.{◌≡◌, ◌<◌, ◌≤◌, length};
    ghost use Rattle.rx_ring.specs.DmaRing.Receive.{reported_of};
    ghost use Rattle.nic_device.specs.Receive.{packet_of};
    ghost use Rattle.nic_device.specs.State.{Waiting, waiting_code};

    ghost Value = { Waiting };

    ghost coded = { waiting_code };

    ghost view = { λ w. record { frame = w.frame; queue = w.queue; hash = w.hash; rss = w.rss; offset = w.offset } };

    ghost invariant = { λ w.
        (w.offset ≤ length w.frame) × (w.queue < 128) ×
        (w.first ≡ reported_of (packet_of (record {
          frame = w.frame;
          queue = w.queue;
          hash = w.hash;
          rss = w.rss;
          offset = w.offset;
        }))) };
}

impl Waiting {
    /// Creates an accepted frame for a queue below 128, with nothing written yet.
    pub(crate) fn let_in(frame: Octets, target: Target) -> Waiting
        requires { target.queue < 128 }
        ensures { result ≡ let_in frame target }
    {
        let first = packet_word(&packet(frame.bytes(), &target));
        Waiting {
            frame,
            queue: target.queue,
            hash: target.hash,
            rss: target.rss,
            offset: 0,
            first,
        }
    }

    /// Returns a copy of the frame, with the same number of bytes marked as written. Fails with `AllocError` if there
    /// isn't enough memory for the copy.
    pub(crate) fn copy(&self, alloc: Global) -> Result<Waiting, AllocError>
        ensures { IfOk result (λ waiting. waiting ≡ self.now) }
    {
        let bytes = Vec::from_slice(alloc, self.frame.bytes())?;
        Ok(Waiting {
            frame: Octets::of(bytes),
            queue: self.queue,
            hash: self.hash,
            rss: self.rss,
            offset: self.offset,
            first: self.first,
        })
    }

    /// Returns the frame's receive queue, 0 to 127.
    pub(crate) fn queue(&self) -> u16
        ensures queue { result ≡ self.now.queue }
        ensures small { result < 128 }
    {
        self.queue
    }

    /// Whether some bytes of the frame are already written.
    pub(crate) fn is_begun(&self) -> bool
        ensures { result ≡ not (self.now.offset == 0) }
    {
        self.offset != 0
    }

    /// Returns the part of the frame that remains to be written, as an `Item`.
    pub(crate) fn item(&self) -> Item<'_>
        ensures rest { rest_of result ≡ rest_of_waiting self.now }
        ensures offset { result.offset ≤ length result.frame.now }
        ensures left { length (rest_of_waiting self.now).bytes + self.now.offset ≡ length self.now.frame }
    {
        Item {
            frame: self.frame.bytes(),
            offset: self.offset,
            first: self.first,
        }
    }

    /// Returns the frame after `len` more of its bytes are written.
    pub(crate) fn written(mut self, len: usize) -> Waiting
        requires { self.offset + len ≤ length self.frame }
        ensures { result ≡ record self { offset = self.offset + len } }
    {
        self.offset += len;
        self
    }
}

/// Returns what the descriptors report about an accepted frame.
fn packet(frame: &[u8], target: &Target) -> Packet
    ensures { result ≡ packet_of (let_in frame.now target.now) }
{
    let flow = classify(frame);
    Packet {
        rss: target.rss,
        ipv4: flow.version == 4,
        ipv6: flow.version == 6,
        tcp: flow.tcp,
        udp: flow.udp,
        hash: target.hash,
    }
}
