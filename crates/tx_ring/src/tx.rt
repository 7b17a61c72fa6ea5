/// A transmit queue's settings for sending, from the device's registers.
#[derive(Clone, Copy, PartialEq, Eq, Debug)]
pub struct Tx {
    /// The maximum length of a frame in bytes, without padding.
    pub limit: usize,
    /// Whether short frames are padded with zeros to 60 bytes: HLREG0.TXPADEN.
    pub pad: bool,
    /// The bus address to which the new head is written, if head write-back is enabled: TDWBAL and TDWBAH.
    pub writeback: Option<u64>,
}
