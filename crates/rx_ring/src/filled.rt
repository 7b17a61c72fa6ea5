/// The result of filling one descriptor's slot.
#[derive(Clone, Copy, PartialEq, Eq, Debug)]
pub struct Filled {
    /// The index of the descriptor in the ring.
    pub slot: u16,
    /// Whether the frame ends in this descriptor's buffer.
    pub end: bool,
    /// The bus address of the descriptor, which was written back.
    pub desc: u64,
    /// The bus address of the first byte that was written into the buffer.
    pub at: u64,
    /// The number of frame bytes written into the buffer, at most 31,744.
    pub len: usize,
    /// The new head of the ring.
    pub head: u16,
}
