//! Why bytes aren't the object of a program.

ghost use Rattle.std.specs.Prelude.{◌≡◌};
ghost use Rattle.program.specs.Object.{fault_at};

use crate::meaning::FieldFault;
use std::alloc::{AllocError, AllocFailed};
use thiserror::Error;

/// Why bytes aren't a program's object. The first variant that applies is returned. If several instructions are faulty,
/// the first faulty instruction is reported. Instructions are numbered from 0. Missing bytes count as wrong bytes.
#[derive(Clone, Copy, Debug, PartialEq, Eq, Error)]
pub enum ObjectFault {
    /// The first four bytes aren't `NBSC`.
    #[error("no object")]
    Magic,
    /// The next two bytes aren't version 1, little-endian.
    #[error("an object of another version")]
    Version,
    /// The header is cut off, its reserved field before the length isn't 0, or its length isn't the number of bytes. Or
    /// the instructions and data strings don't fill exactly this length, or their counts exceed a limit.
    #[error("an object of another length")]
    Length,
    /// The instruction with this number has an unknown operation.
    #[error("instruction {0}: no such operation")]
    Opcode(u16),
    /// The instruction with this number has a field that is out of range or an unused field that isn't 0, or its data
    /// string doesn't exist or has a wrong length.
    #[error("instruction {0}: a wrong operand")]
    Operand(u16),
    /// The instruction with this number jumps beyond the end of the program.
    #[error("instruction {0}: a jump beyond the end")]
    Target(u16),
    /// There isn't enough memory for the program. This fault may be returned instead of any other result.
    #[error("out of memory")]
    OutOfMemory,
}

impl From<AllocError> for ObjectFault {
    ghost use Rattle.program.specs.declared.fault.ObjectFault.TheVariants.{OutOfMemory};

    ghost from_gives = { λ _ fault. fault ≡ OutOfMemory };

    fn from(_error: AllocError) -> ObjectFault {
        ObjectFault::OutOfMemory
    }
}

impl<T: Drop> From<AllocFailed<T>> for ObjectFault {
    ghost use Rattle.program.specs.declared.fault.ObjectFault.TheVariants.{OutOfMemory};

    ghost from_gives = { λ _ fault. fault ≡ OutOfMemory };

    fn from(_error: AllocFailed<T>) -> ObjectFault {
        ObjectFault::OutOfMemory
    }
}

impl FieldFault {
    /// Returns the object's fault if instruction `pc` has this fault.
    pub(crate) fn at(self, pc: u16) -> ObjectFault
        ensures { result ≡ fault_at pc self }
    {
        match self {
            FieldFault::Opcode => ObjectFault::Opcode(pc),
            FieldFault::Operand => ObjectFault::Operand(pc),
            FieldFault::Target => ObjectFault::Target(pc),
        }
    }
}
