//! The contents of a note. A note owns its bytes or shares them with other notes.

ghost use Rattle.std.specs.Prelude.{◌≡◌, ◌↔◌, IsTrue};

use rx_ring::Octets;
use std::alloc::Global;
use std::marker::Model;
use std::sync::Arc;

/// The block's number, the number of zero bytes after the stored bytes, and the stored bytes. Each variant contains
/// both numbers, because they then take no extra space.
#[derive(Debug, Drop)]
enum Parts {
    /// The bytes belong to this note alone.
    Own(u16, u16, Octets),
    /// The bytes may be shared with other notes.
    Common(u16, u16, Arc<Octets>),
}

/// The contents of a note. Contracts see its numbers and bytes, but not whether the bytes are shared.
#[derive(Debug, Drop)]
pub(crate) struct Holding {
    parts: Parts,
}

impl Model for Holding {
    ghost use Rattle.nic_device.specs.NotesHolding.{Held, held_of};

    ghost Value = { Held };

    ghost view = { λ h. held_of h.parts };
}

impl Holding {
    /// Creates contents that own their bytes: the block's number, its bytes without the trailing zeros, and the number
    /// of those zeros.
    pub(crate) fn own(number: u16, kept: Octets, zeros: u16) -> Holding
        ensures { result ≡ record { number = number; zeros = zeros; kept = kept } }
    {
        Holding {
            parts: Parts::Own(number, zeros, kept),
        }
    }

    /// Creates contents whose bytes may be shared with other notes.
    pub(crate) fn common(number: u16, kept: Arc<Octets>, zeros: u16) -> Holding
        ensures { result ≡ record { number = number; zeros = zeros; kept = kept.value } }
    {
        Holding {
            parts: Parts::Common(number, zeros, kept),
        }
    }

    /// Returns the number of the noted block.
    pub(crate) fn number(&self) -> u16
        ensures { result ≡ self.now.number }
    {
        match &self.parts {
            Parts::Own(number, _, _) => *number,
            Parts::Common(number, _, _) => *number,
        }
    }

    /// Returns how many zero bytes of the block follow the stored bytes.
    pub(crate) fn zeros(&self) -> u16
        ensures { result ≡ self.now.zeros }
    {
        match &self.parts {
            Parts::Own(_, zeros, _) => *zeros,
            Parts::Common(_, zeros, _) => *zeros,
        }
    }

    /// Returns the stored bytes, in order.
    pub(crate) fn kept(&self) -> &[u8]
        ensures { result.now ≡ self.now.kept }
    {
        match &self.parts {
            Parts::Own(_, _, kept) => kept.bytes(),
            Parts::Common(_, _, kept) => kept.bytes(),
        }
    }

    /// Whether `other` has equal contents.
    pub(crate) fn same(&self, other: &Holding) -> bool
        ensures { IsTrue result ↔ (self.now ≡ other.now) }
    {
        self.zeros() == other.zeros()
            && self.number() == other.number()
            && self.kept() == other.kept()
    }
}
