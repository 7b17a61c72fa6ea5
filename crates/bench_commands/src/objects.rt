//! The commands `nicbench asm` and `nicbench dis`: convert a script to an object, and an object to a script.
ghost use Rattle.std.specs.Prelude.{◌≡◌, ◌≢◌, MatchOption};
ghost use Rattle.bench_commands.specs.Answer.{Gives, refused};
ghost use Rattle.bench_commands.specs.Objects.{asm_answer, dis_answer, object_refused};

use crate::failure::Failure;
use crate::output::Output;
use crate::refusal::{Refusal, write_refusal};
use crate::script_run::refusal_of_script;
use crate::status::DONE;
use program::{ObjectFault, read};
use script_asm::{assemble, disassemble};
use std::alloc::Global;
use std::io::Write;

/// Returns the refusal for bytes that aren't an object, or `None` if memory ran out.
fn refusal_of_object(fault: ObjectFault) -> Option<Refusal>
    ensures { MatchOption result (fault ≡ ObjectFault.OutOfMemory) (λ refusal.
        (fault ≢ ObjectFault.OutOfMemory)
        × (refused refusal.name.now refusal.number ≡ object_refused fault)) }
{
    match fault {
        ObjectFault::Magic => Some(Refusal::named("Magic")),
        ObjectFault::Version => Some(Refusal::named("Version")),
        ObjectFault::Length => Some(Refusal::named("Length")),
        ObjectFault::Opcode(pc) => Some(Refusal::numbered("Opcode", pc as usize)),
        ObjectFault::Operand(pc) => Some(Refusal::numbered("Operand", pc as usize)),
        ObjectFault::Target(pc) => Some(Refusal::numbered("Target", pc as usize)),
        ObjectFault::OutOfMemory => None,
    }
}

/// Assembles a script, and writes its program as an object.
pub(crate) fn write_object<W: Write>(
    alloc: Global,
    text: &str,
    output: &mut Output<W>,
) -> Result<u8, Failure>
    ensures { Gives result (W.contents output.old.writer) (W.contents output.new.writer)
        output.new.has_failed (asm_answer text.now) }
{
    match assemble(alloc, text) {
        Ok(program) => {
            let bytes = program.to_bytes(alloc)?;
            output.write_bytes(&bytes)?;
            Ok(DONE)
        }
        Err(fault) => match refusal_of_script(fault) {
            Some(refusal) => write_refusal(output, &refusal),
            None => Err(Failure::OutOfMemory),
        },
    }
}

/// Disassembles an object, and writes its program as a script.
pub(crate) fn write_script<W: Write>(
    alloc: Global,
    bytes: &[u8],
    output: &mut Output<W>,
) -> Result<u8, Failure>
    ensures { Gives result (W.contents output.old.writer) (W.contents output.new.writer)
        output.new.has_failed (dis_answer bytes.now) }
{
    match read(alloc, bytes) {
        Ok(program) => {
            let Ok(text) = disassemble(alloc, &program) else {
                return Err(Failure::OutOfMemory);
            };
            output.write_bytes(text.as_bytes())?;
            Ok(DONE)
        }
        Err(fault) => match refusal_of_object(fault) {
            Some(refusal) => write_refusal(output, &refusal),
            None => Err(Failure::OutOfMemory),
        },
    }
}
