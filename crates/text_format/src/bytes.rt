//! Prints bytes in hex.
ghost use Rattle.std.specs.Prelude.{Some};
ghost use Rattle.text_format.specs.Bytes.{bytes_text};

use std::{fmt, str};

/// The number of bytes formatted in one write.
const CHUNK: usize = 256;

/// Displays bytes as lower-case hex, two digits per byte, without separators.
#[derive(Clone, Copy)]
pub struct BytesText<'a>(
    /// The bytes to print, in order.
    pub &'a [u8],
);

impl fmt::Display for BytesText<'_> {
    ghost output = { λ b. Some (bytes_text b.0.now) };

    fn fmt<W: fmt::Write>(&self, f: &mut fmt::Formatter<W>) -> fmt::Result {
        let mut digits = [0u8; 2 * CHUNK];
        for chunk in self.0.chunks(CHUNK) {
            let digits = &mut digits[..2 * chunk.len()];
            let Ok(()) = hex::encode_to_slice(chunk, digits) else {
                unreachable!();
            };
            let Ok(text) = str::from_utf8(digits) else {
                unreachable!();
            };
            f.write_str(text)?;
        }
        Ok(())
    }
}
