//! The frames that arrive from the link.

use std::alloc::{AllocError, Global};

/// A frame with a TCP segment over IPv4, from the published test vectors of the RSS hash, padded to 60 bytes.
pub const OVER_IPV4: &[u8] =
    b"\x02\x00\x00\x00\x00\x01\x02\x00\x00\x00\x00\x02\x08\x00\x45\x00\x00\x28\x00\x00\
\x00\x00\x40\x06\x00\x00\x42\x09\x95\xbb\xa1\x8e\x64\x50\x0a\xea\x06\xe6\x00\x00\
\x00\x00\x00\x00\x00\x00\x50\x10\x00\x00\x00\x00\x00\x00\x00\x00\x00\x00\x00\x00";

/// A frame with a TCP segment over IPv6, from the published test vectors of the RSS hash: 74 bytes.
pub const OVER_IPV6: &[u8] =
    b"\x02\x00\x00\x00\x00\x01\x02\x00\x00\x00\x00\x02\x86\xdd\x60\x00\x00\x00\x00\x14\
\x06\x40\x3f\xfe\x25\x01\x02\x00\x1f\xff\x00\x00\x00\x00\x00\x00\x00\x07\x3f\xfe\
\x25\x01\x02\x00\x00\x03\x00\x00\x00\x00\x00\x00\x00\x01\x0a\xea\x06\xe6\x00\x00\
\x00\x00\x00\x00\x00\x00\x50\x10\x00\x00\x00\x00\x00\x00";

/// Returns `count` frames, alternating between IPv4 and IPv6.
pub(crate) fn frames(alloc: Global, count: u8) -> Result<Vec<Vec<u8>>, AllocError> {
    let mut frames = Vec::with_capacity(alloc, usize::from(count))?;
    for number in 0..count {
        let frame = if number % 2 == 0 {
            OVER_IPV4
        } else {
            OVER_IPV6
        };
        frames.push(frame.to_vec(alloc)?)?;
    }
    Ok(frames)
}
