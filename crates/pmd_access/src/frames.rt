//! The length of a driver's frames, including the frame check sequence of 4 bytes.

ghost use Rattle.std.specs.Prelude.{◌≡◌, ◌≤◌, true};
ghost use Rattle.pmd_access.specs.Frames.{is_frame, longest_frame, most_blocks, packet_limit, shortest_frame};

/// The smallest permitted limit on the length of a frame, in bytes with the frame check sequence.
pub const SHORTEST_FRAME: u16 = 1518;

/// The largest permitted limit on the length of a frame, in bytes with the frame check sequence.
pub const LONGEST_FRAME: u16 = 9728;

/// Returns whether `frame` is a permitted limit on the length of a driver's frames: 1,518 to 9,728 bytes.
pub fn is_frame(frame: u16) -> bool
    ensures { result ≡ is_frame frame }
{
    SHORTEST_FRAME <= frame && frame <= LONGEST_FRAME
}

/// Returns the maximum length of a packet in bytes, if a frame is at most `frame` bytes long with its check sequence.
pub fn packet_limit(frame: u16) -> u16
    requires { is_frame frame ≡ true }
    ensures limit { result ≡ packet_limit frame }
    // At most 9,724.
    ensures few { result ≤ 9724 }
{
    frame - 4
}

/// Returns the maximum number of blocks in a packet, if a frame is at most `frame` bytes long with its check sequence.
pub fn most_blocks(frame: u16) -> u16
    requires { is_frame frame ≡ true }
    ensures most { result ≡ most_blocks frame }
    // At least 1.
    ensures some { 1 ≤ result }
    // At most 5.
    ensures few { result ≤ 5 }
{
    (packet_limit(frame) + 2047) / 2048
}
