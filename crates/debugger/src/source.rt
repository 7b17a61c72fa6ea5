//! The object of a debugger's program, from which the program is recreated.

ghost use Rattle.std.specs.Prelude.{◌≡◌, IfOk, IsOk, Ok};
ghost use Rattle.program.specs.Object.{read_of};

use program::{ObjectFault, OutOfMemory, Program, read};
use std::alloc::Global;

/// Returns the object of the debugger's program.
pub(crate) fn object_of(alloc: Global, program: &Program) -> Result<Vec<u8>, OutOfMemory>
    ensures { IfOk result (λ object. read_of object.items ≡ Ok program.now) }
{
    match program.to_bytes(alloc) {
        Ok(object) => Ok(object),
        Err(_) => Err(OutOfMemory),
    }
}

/// Returns the program that an object encodes.
pub(crate) fn program_of(alloc: Global, object: &[u8]) -> Result<Program, OutOfMemory>
    requires { IsOk (read_of object.now) }
    ensures { IfOk result (λ program. read_of object.now ≡ Ok program) }
{
    match read(alloc, object) {
        Ok(program) => Ok(program),
        Err(ObjectFault::OutOfMemory) => Err(OutOfMemory),
        Err(_fault) => unreachable!(),
    }
}
