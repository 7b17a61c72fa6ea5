//! Device settings in single bits and fields of registers.

ghost use Rattle.std.specs.Prelude.{◌≡◌, ◌≤◌, ◌<◌};
ghost use Rattle.reg_table.specs.declared.rows.RowId.TheVariants.{Srrctl};
ghost use Rattle.register_file.specs.Registers.{word_of};
ghost use Rattle.register_file.specs.Settings.{is_stopped, can_receive, can_transmit, frame_limit, pads, drops, writeback_of};

use crate::register_file::RegisterFile;
use reg_table::{Ctrl, Dmatxctl, Hlreg0, RowId, Rxctrl, Tdwbal, has_flag};

/// The longest frame in bytes, without the frame check sequence, if HLREG0 doesn't enable jumbo frames.
const USUAL_LIMIT: u16 = 1514;

/// The bytes of the MAXFRS length that are the frame check sequence. The model's frames carry none.
const FRAME_CHECK: u32 = 4;

impl RegisterFile {
    /// Whether the device is stopped: it takes no steps, because bus mastering is disabled (CTRL bit 2 is 1).
    #[inline(always)]
    pub fn is_stopped(&self) -> bool
        ensures { result ≡ is_stopped self.now }
    {
        has_flag(self.word(RowId::Ctrl, 0), Ctrl::MASTER_DISABLE)
    }

    /// Whether reception is enabled: RXCTRL bit 0 is 1.
    #[inline(always)]
    pub fn can_receive(&self) -> bool
        ensures { result ≡ can_receive self.now }
    {
        has_flag(self.word(RowId::Rxctrl, 0), Rxctrl::RXEN)
    }

    /// Whether transmission is enabled: DMATXCTL bit 0 is 1.
    #[inline(always)]
    pub fn can_transmit(&self) -> bool
        ensures { result ≡ can_transmit self.now }
    {
        has_flag(self.word(RowId::Dmatxctl, 0), Dmatxctl::TE)
    }

    /// Returns the longest frame in bytes, without the frame check sequence. This is 1,514, or, if HLREG0 bit 2 (jumbo
    /// frames) is set, MAXFRS bits 31 to 16 minus 4, but at least 0.
    #[inline(always)]
    pub fn frame_limit(&self) -> u16
        ensures { result ≡ frame_limit self.now }
    {
        if has_flag(self.word(RowId::Hlreg0, 0), Hlreg0::JUMBOEN) {
            return (self.word(RowId::Maxfrs, 0) / 0x1_0000).saturating_sub(FRAME_CHECK) as u16;
        }
        USUAL_LIMIT
    }

    /// Whether short frames are padded: HLREG0 bit 10 is 1.
    #[inline(always)]
    pub fn pads(&self) -> bool
        ensures { result ≡ pads self.now }
    {
        has_flag(self.word(RowId::Hlreg0, 0), Hlreg0::TXPADEN)
    }

    /// Returns the SRRCTL value of a receive queue below `QUEUES`.
    #[inline(always)]
    pub fn receive_control(&self, queue: u16) -> u32
        requires { queue < 128 }
        ensures { result ≡ word_of self.now Srrctl queue }
    {
        self.word(RowId::Srrctl, queue)
    }

    /// Whether a receive queue below `QUEUES` drops a frame when the queue has no free descriptor: SRRCTL bit 28 is 1.
    #[inline(always)]
    pub fn drops(&self, queue: u16) -> bool
        requires { queue < 128 }
        ensures { result ≡ drops self.now queue }
    {
        has_flag(self.word(RowId::Srrctl, queue), reg_table::Srrctl::DROP_EN)
    }

    /// Returns the head write-back address of a transmit queue below `QUEUES`: TDWBAH and TDWBAL bits 31 to 2. Returns
    /// `None` if TDWBAL bit 0 is 0.
    #[inline(always)]
    pub fn writeback(&self, queue: u16) -> Option<u64>
        requires { queue < 128 }
        ensures { result ≡ writeback_of self.now queue }
    {
        let low = self.word(RowId::Tdwbal, queue);
        if !has_flag(low, Tdwbal::HEAD_WB_EN) {
            return None;
        }
        let high = self.word(RowId::Tdwbah, queue);
        Some(u64::from(high) * 0x1_0000_0000 + u64::from(low / 4 * 4))
    }
}
