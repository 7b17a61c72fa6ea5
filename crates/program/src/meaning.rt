//! Decoding an instruction's fields.

ghost use Rattle.std.specs.Prelude.{◌≡◌, length, IfOk};
ghost use Rattle.program.specs.Listing.{IsSound, string_at};
ghost use Rattle.program.specs.Meaning.{low_byte, group_of, direction_of, instruction_in, unless, fault_in, meaning};

use crate::fields::Fields;
use crate::instruction::Instruction;
use dma_arena::Octets;
use dma_ring::Dir;
use intr_unit::Group;
use vf_map::MAX_VFS;

/// Faults in an instruction's fields, in the order in which they are reported.
#[derive(Clone, Copy)]
pub(crate) enum FieldFault {
    /// The operation is unknown.
    Opcode,
    /// A field is out of range, an unused field isn't 0, or the data string doesn't exist or has a wrong length.
    Operand,
    /// The target of a jump is beyond the end of the program.
    Target,
}

/// Returns the lower 8 bits of a 16-bit number.
fn low_byte(x: u16) -> u8
    ensures { result ≡ low_byte x }
{
    (x % 256) as u8
}

/// Returns the interrupt group with this kind and number.
fn group_of(sub: u8, x: u16) -> Group
    ensures { result ≡ group_of sub x }
{
    if sub == 0 {
        Group::Pf
    } else {
        Group::Vf(low_byte(x))
    }
}

/// Returns the side of a queue that this variant encodes.
fn direction_of(sub: u8) -> Dir
    ensures { result ≡ direction_of sub }
{
    if sub == 0 { Dir::Rx } else { Dir::Tx }
}

/// Returns the instruction with this operation and the fields that it uses, or `None` if the operation is unknown.
fn instruction_in(fields: Fields) -> Option<Instruction>
    ensures { result ≡ instruction_in fields }
{
    let Fields { op, sub, x, a, b } = fields;
    match op {
        1 => Some(Instruction::Write(a, b)),
        2 => Some(Instruction::Read(a)),
        3 => Some(Instruction::VfWrite {
            function: low_byte(x),
            offset: a,
            word: b,
        }),
        4 => Some(Instruction::VfRead {
            function: low_byte(x),
            offset: a,
        }),
        5 => Some(Instruction::Lend(x)),
        6 => Some(Instruction::Unlend(x)),
        7 => Some(Instruction::Poke(a, x)),
        8 => Some(Instruction::Peek(a, sub)),
        9 => Some(Instruction::Arrive(x)),
        10 => Some(Instruction::RxStep),
        11 => Some(Instruction::TxStep(x)),
        12 => Some(Instruction::IntStep(group_of(sub, x))),
        13 => Some(Instruction::QueueStep(direction_of(sub), x)),
        14 => Some(Instruction::EepromStep),
        15 => Some(Instruction::Link(sub != 0)),
        16 => Some(Instruction::Collect),
        17 => Some(Instruction::Expect { want: a, mask: b }),
        18 => Some(Instruction::And(a)),
        19 => Some(Instruction::JumpIfEqual(a, x)),
        20 => Some(Instruction::JumpUnlessEqual(a, x)),
        21 => Some(Instruction::Jump(x)),
        22 => Some(Instruction::Halt),
        0 | 23..=u8::MAX => None,
    }
}

/// Returns the fault, unless the condition holds.
fn unless(fits: bool, fault: FieldFault) -> Option<FieldFault>
    ensures { result ≡ unless fits fault }
{
    if fits { None } else { Some(fault) }
}

/// Returns the length in bytes of the data string with this number, or 0 if no data string has this number.
fn bytes_of(strings: &[Octets], number: u16) -> usize
    ensures { result ≡ length (string_at strings.now number) }
{
    match strings.get(usize::from(number)) {
        Some(string) => string.bytes().len(),
        None => 0,
    }
}

/// Returns the fault if the instruction refers to something that doesn't exist in a program with these data strings and
/// `count` instructions.
fn fault_in(strings: &[Octets], count: u16, instruction: Instruction) -> Option<FieldFault>
    ensures { result ≡ fault_in strings.now count instruction }
{
    match instruction {
        Instruction::VfWrite { function, .. }
        | Instruction::VfRead { function, .. }
        | Instruction::IntStep(Group::Vf(function)) => unless(
            function < MAX_VFS,
            FieldFault::Operand,
        ),
        Instruction::Poke(_, data) => unless(bytes_of(strings, data) == 16, FieldFault::Operand),
        Instruction::Peek(_, word) => unless(word < 4, FieldFault::Operand),
        Instruction::Arrive(data) => {
            unless(usize::from(data) < strings.len(), FieldFault::Operand)
        }
        Instruction::JumpIfEqual(_, target)
        | Instruction::JumpUnlessEqual(_, target)
        | Instruction::Jump(target) => unless(target <= count, FieldFault::Target),
        Instruction::Write(..)
        | Instruction::Read(_)
        | Instruction::Lend(_)
        | Instruction::Unlend(_)
        | Instruction::RxStep
        | Instruction::TxStep(_)
        | Instruction::IntStep(Group::Pf)
        | Instruction::QueueStep(..)
        | Instruction::EepromStep
        | Instruction::Link(_)
        | Instruction::Collect
        | Instruction::Expect { .. }
        | Instruction::And(_)
        | Instruction::Halt => None,
    }
}

/// Returns the instruction that the fields encode in a program with these data strings and `count` instructions, or the
/// fault in the fields.
pub(crate) fn meaning(
    strings: &[Octets],
    count: u16,
    fields: Fields,
) -> Result<Instruction, FieldFault>
    ensures exact { result ≡ meaning strings.now count fields }
    ensures sound { IfOk result (IsSound strings.now count) }
{
    let Some(instruction) = instruction_in(fields) else {
        return Err(FieldFault::Opcode);
    };
    if !Fields::of(instruction).are(fields) {
        return Err(FieldFault::Operand);
    }
    match fault_in(strings, count, instruction) {
        None => Ok(instruction),
        Some(fault) => Err(fault),
    }
}
