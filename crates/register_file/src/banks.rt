//! Registers outside `Cells` that belong neither to a queue nor to an interrupt group.

/// Single registers with a nonzero reset value.
#[derive(Clone, Copy)]
pub(crate) struct Settings {
    pub(crate) rdrxctl: u32,
    pub(crate) hlreg0: u32,
    pub(crate) maxfrs: u32,
    pub(crate) dmatxctl: u32,
}

/// The redirection table and the registers that exist once per pool.
#[derive(Clone, Copy)]
pub(crate) struct Tables {
    pub(crate) reta: [u32; 32],
    pub(crate) psrtype: [u32; 64],
}

/// The statistics counters of the virtual functions.
#[derive(Clone, Copy)]
pub(crate) struct Counters {
    pub(crate) vfgprc: [u32; 64],
    pub(crate) vfgptc: [u32; 64],
}

impl Settings {
    /// The registers after a reset.
    pub(crate) const AT_RESET: Settings = Settings {
        rdrxctl: 0x0000_0008,
        hlreg0: 0x0000_0403,
        maxfrs: 0x05EE_0000,
        dmatxctl: 0x8100_0000,
    };
}

impl Tables {
    /// The registers after a reset.
    pub(crate) const AT_RESET: Tables = Tables {
        reta: [0; 32],
        psrtype: [0; 64],
    };
}

impl Counters {
    /// The counters after a reset.
    pub(crate) const AT_RESET: Counters = Counters {
        vfgprc: [0; 64],
        vfgptc: [0; 64],
    };
}
