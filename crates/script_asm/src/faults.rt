//! Why an input isn't a script.

ghost use Rattle.std.specs.Prelude.{◌≡◌};
ghost use Rattle.script_asm.specs.Fault.{both, reported_first, fault_at};

use std::alloc::{AllocError, AllocFailed};
use text_format::NumberFault;
use thiserror::Error;

/// Why an input isn't a script. The number in a variant is the line, counted from 1.
///
/// The first line with `Syntax`, `UnknownName`, `Range`, `TwoLabels` or `TooLong` is reported. If that line has several
/// of these faults, the first in this list is reported. If no line has one of these faults, labels and data names are
/// looked up. Then the first line with `UnknownLabel`, or with `Range` for poked data that isn't 16 bytes long, is
/// reported.
#[derive(Clone, Copy, Debug, PartialEq, Eq, Error)]
pub enum ScriptFault {
    /// The line isn't a statement of the language.
    #[error("line {0}: no statement of the script language")]
    Syntax(usize),
    /// The line names a register that isn't in the register table.
    #[error("line {0}: no register of this name")]
    UnknownName(usize),
    /// The line uses a label or data name that no line defines. Reported only if no line has a fault of its own.
    #[error("line {0}: no label or data of this name")]
    UnknownLabel(usize),
    /// The line defines a label or data name that an earlier line already defined.
    #[error("line {0}: a name given twice")]
    TwoLabels(usize),
    /// A number is out of its range, or an index isn't below the number of registers in its row. If no line has a fault
    /// of its own, this fault is also reported for a line that pokes data that isn't 16 bytes long.
    #[error("line {0}: a number out of range")]
    Range(usize),
    /// A limit is exceeded: 4,096 instructions, 1,024 data strings, 16,384 bytes in a data string, or 32 bytes in the
    /// name of a label or data string.
    #[error("beyond a limit of scripts")]
    TooLong,
    /// There is no memory for the program. This fault may be returned in place of any other result.
    #[error("out of memory")]
    OutOfMemory,
}

impl From<AllocError> for ScriptFault {
    ghost use Rattle.script_asm.specs.declared.faults.ScriptFault.TheVariants.{OutOfMemory};

    ghost from_gives = { λ _ fault. fault ≡ OutOfMemory };

    fn from(_error: AllocError) -> ScriptFault {
        ScriptFault::OutOfMemory
    }
}

impl<T: Drop> From<AllocFailed<T>> for ScriptFault {
    ghost use Rattle.script_asm.specs.declared.faults.ScriptFault.TheVariants.{OutOfMemory};

    ghost from_gives = { λ _ fault. fault ≡ OutOfMemory };

    fn from(_error: AllocFailed<T>) -> ScriptFault {
        ScriptFault::OutOfMemory
    }
}

/// The faults that a line can have by itself, in the order in which they are reported.
#[derive(Clone, Copy, Debug, PartialEq, Eq, Error)]
pub enum LineFault {
    /// The line isn't a statement of the language.
    #[error("no statement of the script language")]
    Syntax,
    /// The line names a register that isn't in the register table.
    #[error("no register of this name")]
    UnknownName,
    /// A number is out of its range.
    #[error("a number out of range")]
    Range,
    /// A name is longer than 32 bytes.
    #[error("a name of more than 32 bytes")]
    TooLong,
}

impl From<NumberFault> for LineFault {
    ghost use Rattle.script_asm.specs.Fault.{number_fault};

    ghost from_gives = { λ fault reported. reported ≡ number_fault fault };

    fn from(fault: NumberFault) -> LineFault {
        match fault {
            NumberFault::Malformed => LineFault::Syntax,
            NumberFault::TooLarge => LineFault::Range,
        }
    }
}

impl LineFault {
    /// If a line has these two faults, returns the one that is reported.
    fn reported_first(self, other: LineFault) -> LineFault
        ensures { result ≡ reported_first self other }
    {
        match (self, other) {
            (LineFault::Syntax, _) | (_, LineFault::Syntax) => LineFault::Syntax,
            (LineFault::UnknownName, _) | (_, LineFault::UnknownName) => LineFault::UnknownName,
            (LineFault::Range, _) | (_, LineFault::Range) => LineFault::Range,
            (LineFault::TooLong, LineFault::TooLong) => LineFault::TooLong,
        }
    }

    /// Returns the script's fault for this fault in the line with this number.
    pub(crate) fn at(self, number: usize) -> ScriptFault
        ensures { result ≡ fault_at number self }
    {
        match self {
            LineFault::Syntax => ScriptFault::Syntax(number),
            LineFault::UnknownName => ScriptFault::UnknownName(number),
            LineFault::Range => ScriptFault::Range(number),
            LineFault::TooLong => ScriptFault::TooLong,
        }
    }
}

/// Returns two operands of a line. If an operand is faulty, returns the fault that is reported first.
pub(crate) fn both<A: Drop, B: Drop>(
    a: Result<A, LineFault>,
    b: Result<B, LineFault>,
) -> Result<(A, B), LineFault>
    ensures { result ≡ both a b }
{
    match (a, b) {
        (Ok(a), Ok(b)) => Ok((a, b)),
        (Ok(_), Err(fault)) => Err(fault),
        (Err(fault), Ok(_)) => Err(fault),
        (Err(fault), Err(other)) => Err(fault.reported_first(other)),
    }
}
