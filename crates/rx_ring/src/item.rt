/// The bytes to write: a frame's bytes, starting at an offset.
#[derive(Clone, Copy, Debug)]
pub struct Item<'a> {
    /// All bytes of the frame, without its frame check sequence.
    pub frame: &'a [u8],
    /// The number of bytes that were already written for earlier descriptors.
    pub offset: usize,
    /// The first half of the descriptor to write back: the packet's types and its RSS hash.
    pub first: u64,
}
