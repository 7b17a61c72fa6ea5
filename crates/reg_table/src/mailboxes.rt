//! The mailboxes of the virtual functions.

ghost use Rattle.std.specs.Prelude.{⊤, ◌≡◌, [], ◌∷◌, codes};

use bitflags::{Flag, Flags};

/// The named bits of PFMAILBOX, the mailbox as the physical function sees it.
///
/// Intel 82599 datasheet, section on the register PFMAILBOX.
#[derive(Clone, Copy)]
pub struct Pfmailbox(pub u32);

impl Pfmailbox {
    /// Bit 0: sends a status to the function.
    pub const STS: Pfmailbox = Pfmailbox(0x0000_0001);

    /// Bit 1: sends an acknowledgement to the function.
    pub const ACK: Pfmailbox = Pfmailbox(0x0000_0002);

    /// Bit 2: the function holds the mailbox.
    pub const VFU: Pfmailbox = Pfmailbox(0x0000_0004);

    /// Bit 3: the physical function holds the mailbox.
    pub const PFU: Pfmailbox = Pfmailbox(0x0000_0008);

    /// Bit 4: takes the mailbox from the function.
    pub const RVFU: Pfmailbox = Pfmailbox(0x0000_0010);

    /// A list of PFMAILBOX's named bits, each with its name and mask.
    pub const FLAGS: &'static [Flag<Pfmailbox>] = &[
        Flag {
            name: "STS",
            value: Pfmailbox::STS,
        },
        Flag {
            name: "ACK",
            value: Pfmailbox::ACK,
        },
        Flag {
            name: "VFU",
            value: Pfmailbox::VFU,
        },
        Flag {
            name: "PFU",
            value: Pfmailbox::PFU,
        },
        Flag {
            name: "RVFU",
            value: Pfmailbox::RVFU,
        },
    ];
}

impl Flags for Pfmailbox {
    type Bits = u32;

    ghost exact = { ⊤ };

    ghost table = { (codes "STS", 0x0000_0001)
        ∷ (codes "ACK", 0x0000_0002)
        ∷ (codes "VFU", 0x0000_0004)
        ∷ (codes "PFU", 0x0000_0008)
        ∷ (codes "RVFU", 0x0000_0010)
        ∷ [] };

    ghost set_of = { λ flags. flags.0 };

    fn flags<'a>() -> &'a [Flag<Pfmailbox>] {
        Pfmailbox::FLAGS
    }

    fn bits(&self) -> u32 {
        self.0
    }

    fn from_bits_retain(bits: u32) -> Pfmailbox {
        Pfmailbox(bits)
    }
}

/// The named bits of PVFMAILBOX, the mailbox as the virtual function sees it.
///
/// Intel 82599 datasheet, section on the register PVFMAILBOX.
#[derive(Clone, Copy)]
pub struct Pvfmailbox(pub u32);

impl Pvfmailbox {
    /// Bit 0: sends a request to the physical function.
    pub const REQ: Pvfmailbox = Pvfmailbox(0x0000_0001);

    /// Bit 1: sends an acknowledgement to the physical function.
    pub const ACK: Pvfmailbox = Pvfmailbox(0x0000_0002);

    /// Bit 2: the function holds the mailbox.
    pub const VFU: Pvfmailbox = Pvfmailbox(0x0000_0004);

    /// Bit 3: the physical function holds the mailbox.
    pub const PFU: Pvfmailbox = Pvfmailbox(0x0000_0008);

    /// Bit 4: the physical function sent a status.
    pub const PFSTS: Pvfmailbox = Pvfmailbox(0x0000_0010);

    /// Bit 5: the physical function sent an acknowledgement.
    pub const PFACK: Pvfmailbox = Pvfmailbox(0x0000_0020);

    /// Bit 6: a reset has begun.
    pub const RSTI: Pvfmailbox = Pvfmailbox(0x0000_0040);

    /// Bit 7: a reset is done.
    pub const RSTD: Pvfmailbox = Pvfmailbox(0x0000_0080);

    /// A list of PVFMAILBOX's named bits, each with its name and mask.
    pub const FLAGS: &'static [Flag<Pvfmailbox>] = &[
        Flag {
            name: "REQ",
            value: Pvfmailbox::REQ,
        },
        Flag {
            name: "ACK",
            value: Pvfmailbox::ACK,
        },
        Flag {
            name: "VFU",
            value: Pvfmailbox::VFU,
        },
        Flag {
            name: "PFU",
            value: Pvfmailbox::PFU,
        },
        Flag {
            name: "PFSTS",
            value: Pvfmailbox::PFSTS,
        },
        Flag {
            name: "PFACK",
            value: Pvfmailbox::PFACK,
        },
        Flag {
            name: "RSTI",
            value: Pvfmailbox::RSTI,
        },
        Flag {
            name: "RSTD",
            value: Pvfmailbox::RSTD,
        },
    ];
}

impl Flags for Pvfmailbox {
    type Bits = u32;

    ghost exact = { ⊤ };

    ghost table = { (codes "REQ", 0x0000_0001)
        ∷ (codes "ACK", 0x0000_0002)
        ∷ (codes "VFU", 0x0000_0004)
        ∷ (codes "PFU", 0x0000_0008)
        ∷ (codes "PFSTS", 0x0000_0010)
        ∷ (codes "PFACK", 0x0000_0020)
        ∷ (codes "RSTI", 0x0000_0040)
        ∷ (codes "RSTD", 0x0000_0080)
        ∷ [] };

    ghost set_of = { λ flags. flags.0 };

    fn flags<'a>() -> &'a [Flag<Pvfmailbox>] {
        Pvfmailbox::FLAGS
    }

    fn bits(&self) -> u32 {
        self.0
    }

    fn from_bits_retain(bits: u32) -> Pvfmailbox {
        Pvfmailbox(bits)
    }
}

/// The named bits of PFMBICR, the physical function's mailbox interrupt causes.
///
/// Intel 82599 datasheet, section on the register PFMBICR.
#[derive(Clone, Copy)]
pub struct Pfmbicr(pub u32);

impl Pfmbicr {
    /// Bits 15:0: the requests of 16 functions.
    pub const VFREQ: Pfmbicr = Pfmbicr(0x0000_FFFF);

    /// Bits 31:16: the acknowledgements of the same 16 functions.
    pub const VFACK: Pfmbicr = Pfmbicr(0xFFFF_0000);

    /// A list of PFMBICR's named bits, each with its name and mask.
    pub const FLAGS: &'static [Flag<Pfmbicr>] = &[
        Flag {
            name: "VFREQ",
            value: Pfmbicr::VFREQ,
        },
        Flag {
            name: "VFACK",
            value: Pfmbicr::VFACK,
        },
    ];
}

impl Flags for Pfmbicr {
    type Bits = u32;

    ghost exact = { ⊤ };

    ghost table = { (codes "VFREQ", 0x0000_FFFF)
        ∷ (codes "VFACK", 0xFFFF_0000)
        ∷ [] };

    ghost set_of = { λ flags. flags.0 };

    fn flags<'a>() -> &'a [Flag<Pfmbicr>] {
        Pfmbicr::FLAGS
    }

    fn bits(&self) -> u32 {
        self.0
    }

    fn from_bits_retain(bits: u32) -> Pfmbicr {
        Pfmbicr(bits)
    }
}
