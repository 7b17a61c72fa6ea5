//! Positions of the multi-bit fields in the receive registers, under the datasheet's names.

/// MCSTCTRL.MO selects the 12 bits of a destination that index MTA. The field has two bits.
pub(crate) const MO: u32 = 0;

/// VT_CTL.DEF_PL is the default pool. The field has six bits.
pub(crate) const DEF_PL: u32 = 7;
