//! The registers that select which frames are accepted and which pool accepts them.

ghost use Rattle.std.specs.Prelude.{⊤, ◌≡◌, [], ◌∷◌, codes};

use bitflags::{Flag, Flags};

/// The named bits of RXCTRL, receive control.
///
/// Intel 82599 datasheet, section on the register RXCTRL.
#[derive(Clone, Copy)]
pub struct Rxctrl(pub u32);

impl Rxctrl {
    /// Bit 0: enables reception.
    pub const RXEN: Rxctrl = Rxctrl(0x0000_0001);

    /// A list of RXCTRL's named bits, each with its name and mask.
    pub const FLAGS: &'static [Flag<Rxctrl>] = &[Flag {
        name: "RXEN",
        value: Rxctrl::RXEN,
    }];
}

impl Flags for Rxctrl {
    type Bits = u32;

    ghost exact = { ⊤ };

    ghost table = { (codes "RXEN", 0x0000_0001) ∷ [] };

    ghost set_of = { λ flags. flags.0 };

    fn flags<'a>() -> &'a [Flag<Rxctrl>] {
        Rxctrl::FLAGS
    }

    fn bits(&self) -> u32 {
        self.0
    }

    fn from_bits_retain(bits: u32) -> Rxctrl {
        Rxctrl(bits)
    }
}

/// The named bits of FCTRL, filter control.
///
/// Intel 82599 datasheet, section on the register FCTRL.
#[derive(Clone, Copy)]
pub struct Fctrl(pub u32);

impl Fctrl {
    /// Bit 8: accepts all multicast frames.
    pub const MPE: Fctrl = Fctrl(0x0000_0100);

    /// Bit 9: accepts all unicast frames.
    pub const UPE: Fctrl = Fctrl(0x0000_0200);

    /// Bit 10: accepts broadcast frames.
    pub const BAM: Fctrl = Fctrl(0x0000_0400);

    /// A list of FCTRL's named bits, each with its name and mask.
    pub const FLAGS: &'static [Flag<Fctrl>] = &[
        Flag {
            name: "MPE",
            value: Fctrl::MPE,
        },
        Flag {
            name: "UPE",
            value: Fctrl::UPE,
        },
        Flag {
            name: "BAM",
            value: Fctrl::BAM,
        },
    ];
}

impl Flags for Fctrl {
    type Bits = u32;

    ghost exact = { ⊤ };

    ghost table = { (codes "MPE", 0x0000_0100)
        ∷ (codes "UPE", 0x0000_0200)
        ∷ (codes "BAM", 0x0000_0400)
        ∷ [] };

    ghost set_of = { λ flags. flags.0 };

    fn flags<'a>() -> &'a [Flag<Fctrl>] {
        Fctrl::FLAGS
    }

    fn bits(&self) -> u32 {
        self.0
    }

    fn from_bits_retain(bits: u32) -> Fctrl {
        Fctrl(bits)
    }
}

/// The named bits of MCSTCTRL, multicast control.
///
/// Intel 82599 datasheet, section on the register MCSTCTRL.
#[derive(Clone, Copy)]
pub struct Mcstctrl(pub u32);

impl Mcstctrl {
    /// Bit 2: enables the multicast table, MTA.
    pub const MFE: Mcstctrl = Mcstctrl(0x0000_0004);

    /// A list of MCSTCTRL's named bits, each with its name and mask.
    pub const FLAGS: &'static [Flag<Mcstctrl>] = &[Flag {
        name: "MFE",
        value: Mcstctrl::MFE,
    }];
}

impl Flags for Mcstctrl {
    type Bits = u32;

    ghost exact = { ⊤ };

    ghost table = { (codes "MFE", 0x0000_0004) ∷ [] };

    ghost set_of = { λ flags. flags.0 };

    fn flags<'a>() -> &'a [Flag<Mcstctrl>] {
        Mcstctrl::FLAGS
    }

    fn bits(&self) -> u32 {
        self.0
    }

    fn from_bits_retain(bits: u32) -> Mcstctrl {
        Mcstctrl(bits)
    }
}

/// The named bits of RAH, receive address high.
///
/// Intel 82599 datasheet, section on the register RAH.
#[derive(Clone, Copy)]
pub struct Rah(pub u32);

impl Rah {
    /// Bit 31: the address is valid.
    pub const AV: Rah = Rah(0x8000_0000);

    /// A list of RAH's named bits, each with its name and mask.
    pub const FLAGS: &'static [Flag<Rah>] = &[Flag {
        name: "AV",
        value: Rah::AV,
    }];
}

impl Flags for Rah {
    type Bits = u32;

    ghost exact = { ⊤ };

    ghost table = { (codes "AV", 0x8000_0000) ∷ [] };

    ghost set_of = { λ flags. flags.0 };

    fn flags<'a>() -> &'a [Flag<Rah>] {
        Rah::FLAGS
    }

    fn bits(&self) -> u32 {
        self.0
    }

    fn from_bits_retain(bits: u32) -> Rah {
        Rah(bits)
    }
}

/// The named bits of RXCSUM, receive checksum control.
///
/// Intel 82599 datasheet, section on the register RXCSUM.
#[derive(Clone, Copy)]
pub struct Rxcsum(pub u32);

impl Rxcsum {
    /// Bit 13: makes descriptors report hashes.
    pub const PCSD: Rxcsum = Rxcsum(0x0000_2000);

    /// A list of RXCSUM's named bits, each with its name and mask.
    pub const FLAGS: &'static [Flag<Rxcsum>] = &[Flag {
        name: "PCSD",
        value: Rxcsum::PCSD,
    }];
}

impl Flags for Rxcsum {
    type Bits = u32;

    ghost exact = { ⊤ };

    ghost table = { (codes "PCSD", 0x0000_2000) ∷ [] };

    ghost set_of = { λ flags. flags.0 };

    fn flags<'a>() -> &'a [Flag<Rxcsum>] {
        Rxcsum::FLAGS
    }

    fn bits(&self) -> u32 {
        self.0
    }

    fn from_bits_retain(bits: u32) -> Rxcsum {
        Rxcsum(bits)
    }
}

/// The named bits of VT_CTL, virtual machine control.
///
/// Intel 82599 datasheet, section on the register VT_CTL.
#[derive(Clone, Copy)]
pub struct VtCtl(pub u32);

impl VtCtl {
    /// Bit 0: distributes frames among pools.
    pub const VT_ENA: VtCtl = VtCtl(0x0000_0001);

    /// Bit 29: disables the default pool.
    pub const DIS_DEF_POOL: VtCtl = VtCtl(0x2000_0000);

    /// A list of VT_CTL's named bits, each with its name and mask.
    pub const FLAGS: &'static [Flag<VtCtl>] = &[
        Flag {
            name: "VT_ENA",
            value: VtCtl::VT_ENA,
        },
        Flag {
            name: "DIS_DEF_POOL",
            value: VtCtl::DIS_DEF_POOL,
        },
    ];
}

impl Flags for VtCtl {
    type Bits = u32;

    ghost exact = { ⊤ };

    ghost table = { (codes "VT_ENA", 0x0000_0001)
        ∷ (codes "DIS_DEF_POOL", 0x2000_0000)
        ∷ [] };

    ghost set_of = { λ flags. flags.0 };

    fn flags<'a>() -> &'a [Flag<VtCtl>] {
        VtCtl::FLAGS
    }

    fn bits(&self) -> u32 {
        self.0
    }

    fn from_bits_retain(bits: u32) -> VtCtl {
        VtCtl(bits)
    }
}
