/// Why a frame is dropped before it joins a queue.
#[derive(Clone, Copy, PartialEq, Eq, Debug)]
pub enum Unwanted {
    /// The frame's destination address isn't accepted.
    Filter,
    /// No pool is selected for the frame, or its pool has no queues.
    NoPool,
    /// The frame's pool has reception disabled in VFRE.
    PoolOff,
}
