ghost use Rattle.std.specs.Prelude.{⊤, ◌≡◌, [], ◌∷◌, codes};
ghost use Rattle.rss_hash.specs.Mrqc.{queue_mode_of, is_hashing};

use bitflags::{Flag, Flags, bitflag_items};

/// How receive queues are chosen: bits 3:0 of MRQC.
///
/// Intel 82599 datasheet, section on the register MRQC.
#[derive(Clone, Copy, PartialEq, Eq, Debug)]
pub enum QueueMode {
    /// A single queue. This mode also applies to all numbers that aren't listed.
    Single,
    /// The hash alone chooses the queue.
    Rss,
    /// The pool alone chooses the queue, with 64 pools.
    Vmdq64,
    /// The pool and the hash choose the queue, with 32 pools.
    Vmdq32Rss,
    /// The pool and the hash choose the queue, with 64 pools.
    Vmdq64Rss,
}

impl QueueMode {
    /// Returns the mode that bits 3:0 of an MRQC word select.
    #[tactic(auto, unfolding(crate::specs::Mrqc::queue_mode_of))]
    pub fn of(mrqc: u32) -> QueueMode
        ensures { result ≡ queue_mode_of mrqc }
    {
        match mrqc % 16 {
            0x1 => QueueMode::Rss,
            0x8 => QueueMode::Vmdq64,
            0xA => QueueMode::Vmdq32Rss,
            0xB => QueueMode::Vmdq64Rss,
            _ => QueueMode::Single,
        }
    }

    /// Whether frames are hashed in this mode.
    pub fn is_hashing(self) -> bool
        ensures { result ≡ is_hashing self }
    {
        match self {
            QueueMode::Rss | QueueMode::Vmdq32Rss | QueueMode::Vmdq64Rss => true,
            QueueMode::Single | QueueMode::Vmdq64 => false,
        }
    }
}

/// Which types of frames are hashed: bits 16, 17 and 20 to 23 of MRQC.
///
/// Intel 82599 datasheet, section on the register MRQC.
#[derive(Clone, Copy, PartialEq, Eq, Debug)]
pub struct RssFields(u32);

bitflag_items! {
    impl RssFields: u32 {
        const TCP_IPV4 = 0x0001_0000;
        const IPV4 = 0x0002_0000;
        const IPV6 = 0x0010_0000;
        const TCP_IPV6 = 0x0020_0000;
        const UDP_IPV4 = 0x0040_0000;
        const UDP_IPV6 = 0x0080_0000;
    }
}

impl Flags for RssFields {
    type Bits = u32;

    ghost exact = { ⊤ };

    ghost table = { (codes "TCP_IPV4", 0x0001_0000)
        ∷ (codes "IPV4", 0x0002_0000)
        ∷ (codes "IPV6", 0x0010_0000)
        ∷ (codes "TCP_IPV6", 0x0020_0000)
        ∷ (codes "UDP_IPV4", 0x0040_0000)
        ∷ (codes "UDP_IPV6", 0x0080_0000)
        ∷ [] };

    ghost set_of = { λ fields. fields.0 };

    fn flags<'a>() -> &'a [Flag<RssFields>] {
        RssFields::FLAGS
    }

    fn bits(&self) -> u32 {
        self.0
    }

    fn from_bits_retain(bits: u32) -> RssFields {
        RssFields(bits)
    }
}
