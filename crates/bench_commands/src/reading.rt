//! Reads all input, up to a limit.
ghost use Rattle.std.specs.Prelude.{◌≡◌, ◌<◌, ◌≤◌, length, Err, IfOk, IfSome, vec_len};
ghost use Rattle.bench_commands.specs.Reading.{CouldNotBeRead};

use crate::input::{Input, READS};
use std::alloc::{AllocError, Global};
use std::io::Read;

/// The maximum size of an input in bytes: 8 MiB.
pub const BYTES: usize = 8_388_608;

/// The maximum number of bytes that one read returns.
const READ_BYTES: usize = 65_536;

/// Why an input wasn't read.
#[derive(Clone, Copy, Debug, PartialEq, Eq)]
pub enum InputFault {
    /// The input is longer than `BYTES` bytes.
    TooLong,
    /// A read failed, or the input didn't end within `READS` reads.
    Unread,
    /// There isn't enough memory for the bytes.
    OutOfMemory,
}

impl From<AllocError> for InputFault {
    ghost use Rattle.bench_commands.specs.declared.reading.InputFault.TheVariants.{OutOfMemory};

    ghost from_gives = { λ _ e. e ≡ OutOfMemory };

    fn from(_error: AllocError) -> InputFault {
        InputFault::OutOfMemory
    }
}

/// Returns a buffer for one read.
fn buffer(alloc: Global) -> Result<Vec<u8>, AllocError>
    ensures { IfOk result (λ v. 0 < vec_len v) }
{
    vec![in alloc; 0u8; READ_BYTES]
}

/// Reads all bytes up to the input's end, at most 8,388,608. After an error, some bytes may have been read.
pub fn read_input<R: Read>(alloc: Global, input: &mut Input<R>) -> Result<Vec<u8>, InputFault>
    ensures whole { IfOk result (λ v. IfSome (R.remaining input.old.reader) (λ bytes. v.items ≡ bytes)) }
    ensures fits { IfOk result (λ v. vec_len v ≤ BYTES) }
    // `TooLong`, only if the input is longer than 8,388,608 bytes.
    ensures too_long { result ≡ Err InputFault.TooLong
        → IfSome (R.remaining input.old.reader) (λ bytes. BYTES < length bytes) }
    // `Unread`, only if a read failed, or if a million reads were made from a reader with at least a million bytes.
    ensures unread { result ≡ Err InputFault.Unread
        → CouldNotBeRead (R.remaining input.old.reader) input.new }
{
    let mut buffer = buffer(alloc)?;
    let mut bytes = Vec::new(alloc);
    input.begin();
    for _ in 0..READS {
        match input.read(&mut buffer) {
            Err(_) => return Err(InputFault::Unread),
            Ok(0) => return Ok(bytes),
            Ok(n) => {
                if n > BYTES - bytes.len() {
                    return Err(InputFault::TooLong);
                }
                bytes.extend_from_slice(&buffer[..n])?;
            }
        }
    }
    Err(InputFault::Unread)
}
