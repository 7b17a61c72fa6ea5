//! What a command line requests.
use crate::debug_options::DebugOptions;
use crate::run_options::RunOptions;
use crate::threads_options::ThreadsOptions;

/// What a command line requests.
#[derive(Clone, Copy, Debug, PartialEq, Eq)]
pub enum Asked {
    /// A command that reads the input and answers it.
    Input(Request),
    /// `nicbench threads` with these options: workers on threads drive the queues of one device. The command reads no
    /// input.
    Threads(ThreadsOptions),
}

/// How to read and answer the input.
#[derive(Clone, Copy, Debug, PartialEq, Eq)]
pub enum Request {
    /// A command that reads text.
    Text(TextRequest),
    /// A command that reads bytes.
    Bytes(BytesRequest),
}

/// A command that reads its input as text.
#[derive(Clone, Copy, Debug, PartialEq, Eq)]
pub enum TextRequest {
    /// `nicbench run` with these options: runs a script.
    Run(RunOptions),
    /// `nicbench debug` with these options: debugs a script with the commands that follow the script.
    Debug(DebugOptions),
    /// `nicbench hash`: hashes lines of hex.
    Hash,
    /// `nicbench asm`: assembles a script into an object.
    Asm,
    /// `nicbench eeprom`: creates an EEPROM image from its source.
    Eeprom,
}

/// A command that reads its input as bytes.
#[derive(Clone, Copy, Debug, PartialEq, Eq)]
pub enum BytesRequest {
    /// `nicbench dis`: prints an object as a script.
    Dis,
    /// `nicbench eeprom --load`: prints the register writes in an EEPROM image.
    LoadEeprom,
}
