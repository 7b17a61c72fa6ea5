use dma_arena::Octets;

/// The result of fetching one descriptor.
#[derive(Debug, Drop)]
pub struct Fetched {
    /// The index of the descriptor in the ring.
    pub slot: u16,
    /// The new head of the ring.
    pub head: u16,
    /// The bus address of the write-back: the descriptor's address or the head write-back address. `None` if nothing
    /// was written back.
    pub back: Option<u64>,
    /// Whether the descriptor is a data descriptor that requested a report (RS). If so, the report was written back.
    pub rs: bool,
    /// The frame to send, if the packet ends with this descriptor.
    pub frame: Option<Octets>,
}
