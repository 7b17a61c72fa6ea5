/// A frame's receive queue, and what its descriptors report about its hash.
#[derive(Clone, Copy, PartialEq, Eq, Debug)]
pub struct Target {
    /// The receive queue, 0 to 127.
    pub queue: u16,
    /// The RSS type, 0 to 15.
    pub rss: u8,
    /// The RSS hash, or 0 if descriptors report no hash.
    pub hash: u32,
}
