//! The registers of the queues, and the registers that control transmission.

ghost use Rattle.std.specs.Prelude.{⊤, ◌≡◌, [], ◌∷◌, codes};

use bitflags::{Flag, Flags};

/// The named bits of SRRCTL, split receive control.
///
/// Intel 82599 datasheet, section on the register SRRCTL.
#[derive(Clone, Copy)]
pub struct Srrctl(pub u32);

impl Srrctl {
    /// Bit 28: drops a frame if the ring has no free slot for the frame.
    pub const DROP_EN: Srrctl = Srrctl(0x1000_0000);

    /// A list of SRRCTL's named bits, each with its name and mask.
    pub const FLAGS: &'static [Flag<Srrctl>] = &[Flag {
        name: "DROP_EN",
        value: Srrctl::DROP_EN,
    }];
}

impl Flags for Srrctl {
    type Bits = u32;

    ghost exact = { ⊤ };

    ghost table = { (codes "DROP_EN", 0x1000_0000) ∷ [] };

    ghost set_of = { λ flags. flags.0 };

    fn flags<'a>() -> &'a [Flag<Srrctl>] {
        Srrctl::FLAGS
    }

    fn bits(&self) -> u32 {
        self.0
    }

    fn from_bits_retain(bits: u32) -> Srrctl {
        Srrctl(bits)
    }
}

/// The named bits of RXDCTL, receive descriptor control.
///
/// Intel 82599 datasheet, section on the register RXDCTL.
#[derive(Clone, Copy)]
pub struct Rxdctl(pub u32);

impl Rxdctl {
    /// Bit 25: the queue's receive side is enabled.
    pub const ENABLE: Rxdctl = Rxdctl(0x0200_0000);

    /// A list of RXDCTL's named bits, each with its name and mask.
    pub const FLAGS: &'static [Flag<Rxdctl>] = &[Flag {
        name: "ENABLE",
        value: Rxdctl::ENABLE,
    }];
}

impl Flags for Rxdctl {
    type Bits = u32;

    ghost exact = { ⊤ };

    ghost table = { (codes "ENABLE", 0x0200_0000) ∷ [] };

    ghost set_of = { λ flags. flags.0 };

    fn flags<'a>() -> &'a [Flag<Rxdctl>] {
        Rxdctl::FLAGS
    }

    fn bits(&self) -> u32 {
        self.0
    }

    fn from_bits_retain(bits: u32) -> Rxdctl {
        Rxdctl(bits)
    }
}

/// The named bits of TXDCTL, transmit descriptor control.
///
/// Intel 82599 datasheet, section on the register TXDCTL.
#[derive(Clone, Copy)]
pub struct Txdctl(pub u32);

impl Txdctl {
    /// Bit 25: the queue's transmit side is enabled.
    pub const ENABLE: Txdctl = Txdctl(0x0200_0000);

    /// A list of TXDCTL's named bits, each with its name and mask.
    pub const FLAGS: &'static [Flag<Txdctl>] = &[Flag {
        name: "ENABLE",
        value: Txdctl::ENABLE,
    }];
}

impl Flags for Txdctl {
    type Bits = u32;

    ghost exact = { ⊤ };

    ghost table = { (codes "ENABLE", 0x0200_0000) ∷ [] };

    ghost set_of = { λ flags. flags.0 };

    fn flags<'a>() -> &'a [Flag<Txdctl>] {
        Txdctl::FLAGS
    }

    fn bits(&self) -> u32 {
        self.0
    }

    fn from_bits_retain(bits: u32) -> Txdctl {
        Txdctl(bits)
    }
}

/// The named bits of TDWBAL, transmit descriptor completion write-back address low.
///
/// Intel 82599 datasheet, section on the register TDWBAL.
#[derive(Clone, Copy)]
pub struct Tdwbal(pub u32);

impl Tdwbal {
    /// Bit 0: enables head write-back.
    pub const HEAD_WB_EN: Tdwbal = Tdwbal(0x0000_0001);

    /// A list of TDWBAL's named bits, each with its name and mask.
    pub const FLAGS: &'static [Flag<Tdwbal>] = &[Flag {
        name: "HEAD_WB_EN",
        value: Tdwbal::HEAD_WB_EN,
    }];
}

impl Flags for Tdwbal {
    type Bits = u32;

    ghost exact = { ⊤ };

    ghost table = { (codes "HEAD_WB_EN", 0x0000_0001) ∷ [] };

    ghost set_of = { λ flags. flags.0 };

    fn flags<'a>() -> &'a [Flag<Tdwbal>] {
        Tdwbal::FLAGS
    }

    fn bits(&self) -> u32 {
        self.0
    }

    fn from_bits_retain(bits: u32) -> Tdwbal {
        Tdwbal(bits)
    }
}

/// The named bits of DMATXCTL, DMA transmit control.
///
/// Intel 82599 datasheet, section on the register DMATXCTL.
#[derive(Clone, Copy)]
pub struct Dmatxctl(pub u32);

impl Dmatxctl {
    /// Bit 0: enables transmission.
    pub const TE: Dmatxctl = Dmatxctl(0x0000_0001);

    /// A list of DMATXCTL's named bits, each with its name and mask.
    pub const FLAGS: &'static [Flag<Dmatxctl>] = &[Flag {
        name: "TE",
        value: Dmatxctl::TE,
    }];
}

impl Flags for Dmatxctl {
    type Bits = u32;

    ghost exact = { ⊤ };

    ghost table = { (codes "TE", 0x0000_0001) ∷ [] };

    ghost set_of = { λ flags. flags.0 };

    fn flags<'a>() -> &'a [Flag<Dmatxctl>] {
        Dmatxctl::FLAGS
    }

    fn bits(&self) -> u32 {
        self.0
    }

    fn from_bits_retain(bits: u32) -> Dmatxctl {
        Dmatxctl(bits)
    }
}

/// The named bits of HLREG0, MAC core control 0.
///
/// Intel 82599 datasheet, section on the register HLREG0.
#[derive(Clone, Copy)]
pub struct Hlreg0(pub u32);

impl Hlreg0 {
    /// Bit 0: appends the frame check sequence.
    pub const TXCRCEN: Hlreg0 = Hlreg0(0x0000_0001);

    /// Bit 1: strips the frame check sequence.
    pub const RXCRCSTRP: Hlreg0 = Hlreg0(0x0000_0002);

    /// Bit 2: allows frames up to the size in MAXFRS.
    pub const JUMBOEN: Hlreg0 = Hlreg0(0x0000_0004);

    /// Bit 10: pads short frames.
    pub const TXPADEN: Hlreg0 = Hlreg0(0x0000_0400);

    /// A list of HLREG0's named bits, each with its name and mask.
    pub const FLAGS: &'static [Flag<Hlreg0>] = &[
        Flag {
            name: "TXCRCEN",
            value: Hlreg0::TXCRCEN,
        },
        Flag {
            name: "RXCRCSTRP",
            value: Hlreg0::RXCRCSTRP,
        },
        Flag {
            name: "JUMBOEN",
            value: Hlreg0::JUMBOEN,
        },
        Flag {
            name: "TXPADEN",
            value: Hlreg0::TXPADEN,
        },
    ];
}

impl Flags for Hlreg0 {
    type Bits = u32;

    ghost exact = { ⊤ };

    ghost table = { (codes "TXCRCEN", 0x0000_0001)
        ∷ (codes "RXCRCSTRP", 0x0000_0002)
        ∷ (codes "JUMBOEN", 0x0000_0004)
        ∷ (codes "TXPADEN", 0x0000_0400)
        ∷ [] };

    ghost set_of = { λ flags. flags.0 };

    fn flags<'a>() -> &'a [Flag<Hlreg0>] {
        Hlreg0::FLAGS
    }

    fn bits(&self) -> u32 {
        self.0
    }

    fn from_bits_retain(bits: u32) -> Hlreg0 {
        Hlreg0(bits)
    }
}
