ghost use Rattle.std.specs.Prelude.{◌≡◌, ◌+◌, ◌≤◌, [], ◌++◌, length};

use std::marker::Model;

/// The hashed part of a frame: its addresses, and its ports if they are hashed, in network order. The hashed part is at
/// most 36 bytes long, and the remaining bytes of the array are 0. Contracts view an `Input` as the list of its hashed
/// bytes.
#[derive(Clone, Copy, PartialEq, Eq, Debug)]
pub struct Input {
    /// The hashed bytes, followed by zeros.
    pub bytes: [u8; 36],
    /// The number of bytes that are hashed. In values that this crate creates, the number is 0, 8, 12, 32 or 36.
    pub len: usize,
}

impl Model for Input {
    ghost use Rattle.std.specs.Prelude.{ℕ, List, length};

    ghost Value = { List ℕ };

    ghost use Rattle.rss_hash.specs.Input.{padded, bytes_of, IsFilled, unpadded};

    ghost view = { bytes_of };

    ghost invariant = { IsFilled };

    ghost inverse = { λ bytes. record { bytes = padded bytes; len = length bytes } };

    ghost inverse_ok = { unpadded };
}

impl Input {
    /// Returns an input without bytes.
    pub(crate) fn empty() -> Input
        ensures { result ≡ [] }
    {
        Input {
            bytes: [0; 36],
            len: 0,
        }
    }

    /// Appends these bytes to the input.
    pub(crate) fn with(mut self, more: &[u8]) -> Input
        requires { length self + length more.now ≤ 36 }
        ensures { result ≡ self ++ more.now }
    {
        let start = self.len;
        let end = start + more.len();
        self.bytes[start..end].copy_from_slice(more);
        self.len = end;
        self
    }

    /// Returns the bytes that are hashed, at most 36.
    pub fn as_slice(&self) -> &[u8]
        ensures bytes { result.now ≡ self.now }
        // There are at most 36 bytes.
        ensures fits { length result.now ≤ 36 }
    {
        &self.bytes[..self.len]
    }
}
