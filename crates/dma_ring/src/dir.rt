/// A side of a queue, identified by the direction of its frames.
#[derive(Clone, Copy, PartialEq, Eq, Debug)]
pub enum Dir {
    /// The receive side: frames from the link to memory.
    Rx,
    /// The transmit side: frames from memory to the link.
    Tx,
}
