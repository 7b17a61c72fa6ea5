//! The registers of the whole device.

ghost use Rattle.std.specs.Prelude.{⊤, ◌≡◌, [], ◌∷◌, codes};

use bitflags::{Flag, Flags};

/// The named bits of CTRL, device control.
///
/// Intel 82599 datasheet, section on the register CTRL.
#[derive(Clone, Copy)]
pub struct Ctrl(pub u32);

impl Ctrl {
    /// Bit 2: keeps the device from taking steps.
    pub const MASTER_DISABLE: Ctrl = Ctrl(0x0000_0004);

    /// Bit 3: requests a link reset.
    pub const LRST: Ctrl = Ctrl(0x0000_0008);

    /// Bit 26: requests a device reset.
    pub const RST: Ctrl = Ctrl(0x0400_0000);

    /// A list of CTRL's named bits, each with its name and mask.
    pub const FLAGS: &'static [Flag<Ctrl>] = &[
        Flag {
            name: "MASTER_DISABLE",
            value: Ctrl::MASTER_DISABLE,
        },
        Flag {
            name: "LRST",
            value: Ctrl::LRST,
        },
        Flag {
            name: "RST",
            value: Ctrl::RST,
        },
    ];
}

impl Flags for Ctrl {
    type Bits = u32;

    ghost exact = { ⊤ };

    ghost table = { (codes "MASTER_DISABLE", 0x0000_0004)
        ∷ (codes "LRST", 0x0000_0008)
        ∷ (codes "RST", 0x0400_0000)
        ∷ [] };

    ghost set_of = { λ flags. flags.0 };

    fn flags<'a>() -> &'a [Flag<Ctrl>] {
        Ctrl::FLAGS
    }

    fn bits(&self) -> u32 {
        self.0
    }

    fn from_bits_retain(bits: u32) -> Ctrl {
        Ctrl(bits)
    }
}

/// The named bits of PVFCTRL, control of a virtual function.
///
/// Intel 82599 datasheet, section on the register PVFCTRL.
#[derive(Clone, Copy)]
pub struct Pvfctrl(pub u32);

impl Pvfctrl {
    /// Bit 26: requests a reset of the pool.
    pub const RST: Pvfctrl = Pvfctrl(0x0400_0000);

    /// A list of PVFCTRL's named bits, each with its name and mask.
    pub const FLAGS: &'static [Flag<Pvfctrl>] = &[Flag {
        name: "RST",
        value: Pvfctrl::RST,
    }];
}

impl Flags for Pvfctrl {
    type Bits = u32;

    ghost exact = { ⊤ };

    ghost table = { (codes "RST", 0x0400_0000) ∷ [] };

    ghost set_of = { λ flags. flags.0 };

    fn flags<'a>() -> &'a [Flag<Pvfctrl>] {
        Pvfctrl::FLAGS
    }

    fn bits(&self) -> u32 {
        self.0
    }

    fn from_bits_retain(bits: u32) -> Pvfctrl {
        Pvfctrl(bits)
    }
}

/// The named bits of CTRL_EXT, extended device control.
///
/// Intel 82599 datasheet, section on the register CTRL_EXT.
#[derive(Clone, Copy)]
pub struct CtrlExt(pub u32);

impl CtrlExt {
    /// Bit 14: reports to the virtual functions that a reset is done.
    pub const PFRSTD: CtrlExt = CtrlExt(0x0000_4000);

    /// Bit 28: a driver is loaded.
    pub const DRV_LOAD: CtrlExt = CtrlExt(0x1000_0000);

    /// A list of CTRL_EXT's named bits, each with its name and mask.
    pub const FLAGS: &'static [Flag<CtrlExt>] = &[
        Flag {
            name: "PFRSTD",
            value: CtrlExt::PFRSTD,
        },
        Flag {
            name: "DRV_LOAD",
            value: CtrlExt::DRV_LOAD,
        },
    ];
}

impl Flags for CtrlExt {
    type Bits = u32;

    ghost exact = { ⊤ };

    ghost table = { (codes "PFRSTD", 0x0000_4000)
        ∷ (codes "DRV_LOAD", 0x1000_0000)
        ∷ [] };

    ghost set_of = { λ flags. flags.0 };

    fn flags<'a>() -> &'a [Flag<CtrlExt>] {
        CtrlExt::FLAGS
    }

    fn bits(&self) -> u32 {
        self.0
    }

    fn from_bits_retain(bits: u32) -> CtrlExt {
        CtrlExt(bits)
    }
}

/// The named bits of EERD, EEPROM read.
///
/// Intel 82599 datasheet, section on the register EERD.
#[derive(Clone, Copy)]
pub struct Eerd(pub u32);

impl Eerd {
    /// Bit 0: requests a word.
    pub const START: Eerd = Eerd(0x0000_0001);

    /// Bit 1: the requested word is available.
    pub const DONE: Eerd = Eerd(0x0000_0002);

    /// A list of EERD's named bits, each with its name and mask.
    pub const FLAGS: &'static [Flag<Eerd>] = &[
        Flag {
            name: "START",
            value: Eerd::START,
        },
        Flag {
            name: "DONE",
            value: Eerd::DONE,
        },
    ];
}

impl Flags for Eerd {
    type Bits = u32;

    ghost exact = { ⊤ };

    ghost table = { (codes "START", 0x0000_0001)
        ∷ (codes "DONE", 0x0000_0002)
        ∷ [] };

    ghost set_of = { λ flags. flags.0 };

    fn flags<'a>() -> &'a [Flag<Eerd>] {
        Eerd::FLAGS
    }

    fn bits(&self) -> u32 {
        self.0
    }

    fn from_bits_retain(bits: u32) -> Eerd {
        Eerd(bits)
    }
}

/// The named bits of GPIE, general purpose interrupt enable.
///
/// Intel 82599 datasheet, section on the register GPIE.
#[derive(Clone, Copy)]
pub struct Gpie(pub u32);

impl Gpie {
    /// Bit 5: makes a read of EICR clear only the other causes.
    pub const OCD: Gpie = Gpie(0x0000_0020);

    /// Bit 30: applies the auto-mask to messages instead of accesses to the physical function's registers.
    pub const EIAME: Gpie = Gpie(0x4000_0000);

    /// A list of GPIE's named bits, each with its name and mask.
    pub const FLAGS: &'static [Flag<Gpie>] = &[
        Flag {
            name: "OCD",
            value: Gpie::OCD,
        },
        Flag {
            name: "EIAME",
            value: Gpie::EIAME,
        },
    ];
}

impl Flags for Gpie {
    type Bits = u32;

    ghost exact = { ⊤ };

    ghost table = { (codes "OCD", 0x0000_0020)
        ∷ (codes "EIAME", 0x4000_0000)
        ∷ [] };

    ghost set_of = { λ flags. flags.0 };

    fn flags<'a>() -> &'a [Flag<Gpie>] {
        Gpie::FLAGS
    }

    fn bits(&self) -> u32 {
        self.0
    }

    fn from_bits_retain(bits: u32) -> Gpie {
        Gpie(bits)
    }
}
