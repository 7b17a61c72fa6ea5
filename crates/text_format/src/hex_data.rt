//! Parses hex digits into bytes.

ghost use Rattle.std.specs.Prelude.{◌≡◌, ◌≢◌, Some, None, IfOk};
ghost use Rattle.text_format.specs.HexData.{hex_bytes_of};

use hex::FromHexError;
use std::alloc::Global;
use thiserror::Error;

/// Why a word isn't hex data.
#[derive(Clone, Copy, Debug, PartialEq, Eq, Error)]
pub enum HexFault {
    /// The word contains a character that isn't a hex digit, or an odd number of digits.
    #[error("no whole bytes of hex")]
    Malformed,
    /// There isn't enough memory for the bytes.
    #[error("out of memory")]
    OutOfMemory,
}

/// Returns the fault for an error from the crate `hex`.
fn fault_of(error: FromHexError) -> HexFault
    ensures { result ≡ HexFault.Malformed → error ≢ FromHexError.OutOfMemory }
{
    match error {
        FromHexError::OutOfMemory => HexFault::OutOfMemory,
        FromHexError::InvalidHexCharacter { .. }
        | FromHexError::OddLength
        | FromHexError::InvalidStringLength => HexFault::Malformed,
    }
}

/// Returns the bytes that a word spells in hex: two digits of either case per byte, the high digit first.
///
/// Returns `Malformed` exactly if the word contains a character that isn't a hex digit, or an odd number of digits.
/// `OutOfMemory` may be returned in place of any result.
pub fn hex_bytes(alloc: Global, word: &str) -> Result<Vec<u8>, HexFault>
    ensures ok { IfOk result (λ bytes. hex_bytes_of word.now ≡ Some bytes.items) }
    ensures malformed { result ≡ Err HexFault.Malformed → hex_bytes_of word.now ≡ None }
{
    match hex::decode(alloc, word) {
        Ok(bytes) => Ok(bytes),
        Err(error) => Err(fault_of(error)),
    }
}
