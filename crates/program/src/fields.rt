//! The fields of an instruction in an object, and how they are encoded in twelve bytes.

ghost use Rattle.std.specs.Prelude.{◌≡◌, ◌≤◌, ◌++◌, length, OnOk};
ghost use Rattle.program.specs.Encoding.{fields_of, same_fields, HaveWidths};
ghost use Rattle.program.specs.Bytes.{bytes_of_fields, fields_in};

use crate::instruction::Instruction;
use crate::numbers::{number16_at, number32_at};
use dma_ring::Dir;
use intr_unit::Group;
use std::alloc::AllocError;

/// The size in bytes of an instruction in an object.
pub(crate) const INSTRUCTION_BYTES: usize = 12;

/// The fields of an instruction. Fields that the operation doesn't use are 0.
#[derive(Clone, Copy)]
pub(crate) struct Fields {
    /// The operation: 1 to 22.
    pub(crate) op: u8,
    /// The variant of the operation: which word a peek loads, the kind of interrupt group, the queue's side, or the
    /// link's state.
    pub(crate) sub: u8,
    /// A 16-bit number: the number of a block, a queue, a virtual function, a data string or an instruction.
    pub(crate) x: u16,
    /// The first word: an address, an offset or a 32-bit value.
    pub(crate) a: u32,
    /// The second word: a 32-bit value or a mask.
    pub(crate) b: u32,
}

/// Returns the fields of an operation with a variant and a 16-bit number.
fn of_kind(op: u8, sub: u8, x: u16) -> Fields
    ensures { result ≡ record { op = op; sub = sub; x = x; a = 0; b = 0 } }
{
    Fields {
        op,
        sub,
        x,
        a: 0,
        b: 0,
    }
}

/// Returns the fields of an operation with a 16-bit number and two words.
fn of_words(op: u8, x: u16, a: u32, b: u32) -> Fields
    ensures { result ≡ record { op = op; sub = 0; x = x; a = a; b = b } }
{
    Fields {
        op,
        sub: 0,
        x,
        a,
        b,
    }
}

impl Fields {
    /// Returns the fields of an instruction, as the encoding table defines them for each operation.
    pub(crate) fn of(instruction: Instruction) -> Fields
        ensures fields { result ≡ fields_of instruction }
        ensures widths { HaveWidths (fields_of instruction) }
    {
        match instruction {
            Instruction::Write(address, word) => of_words(1, 0, address, word),
            Instruction::Read(address) => of_words(2, 0, address, 0),
            Instruction::VfWrite {
                function,
                offset,
                word,
            } => of_words(3, u16::from(function), offset, word),
            Instruction::VfRead { function, offset } => of_words(4, u16::from(function), offset, 0),
            Instruction::Lend(block) => of_kind(5, 0, block),
            Instruction::Unlend(block) => of_kind(6, 0, block),
            Instruction::Poke(address, data) => of_words(7, data, address, 0),
            Instruction::Peek(address, word) => Fields {
                op: 8,
                sub: word,
                x: 0,
                a: address,
                b: 0,
            },
            Instruction::Arrive(data) => of_kind(9, 0, data),
            Instruction::RxStep => of_kind(10, 0, 0),
            Instruction::TxStep(queue) => of_kind(11, 0, queue),
            Instruction::IntStep(Group::Pf) => of_kind(12, 0, 0),
            Instruction::IntStep(Group::Vf(function)) => of_kind(12, 1, u16::from(function)),
            Instruction::QueueStep(Dir::Rx, queue) => of_kind(13, 0, queue),
            Instruction::QueueStep(Dir::Tx, queue) => of_kind(13, 1, queue),
            Instruction::EepromStep => of_kind(14, 0, 0),
            Instruction::Link(up) => of_kind(15, u8::from(up), 0),
            Instruction::Collect => of_kind(16, 0, 0),
            Instruction::Expect { want, mask } => of_words(17, 0, want, mask),
            Instruction::And(word) => of_words(18, 0, word, 0),
            Instruction::JumpIfEqual(word, target) => of_words(19, target, word, 0),
            Instruction::JumpUnlessEqual(word, target) => of_words(20, target, word, 0),
            Instruction::Jump(target) => of_kind(21, 0, target),
            Instruction::Halt => of_kind(22, 0, 0),
        }
    }

    /// Whether all fields are equal.
    pub(crate) fn are(self, other: Fields) -> bool
        ensures { result ≡ same_fields self other }
    {
        self.op == other.op
            && self.sub == other.sub
            && self.x == other.x
            && self.a == other.a
            && self.b == other.b
    }

    /// Decodes the fields in the first twelve bytes.
    pub(crate) fn in_bytes(bytes: &[u8]) -> Fields
        requires { 12 ≤ length bytes.now }
        ensures { result ≡ fields_in bytes.now }
    {
        Fields {
            op: bytes[0],
            sub: bytes[1],
            x: number16_at(bytes, 2),
            a: number32_at(bytes, 4),
            b: number32_at(bytes, 8),
        }
    }

    /// Appends the twelve bytes that encode the fields.
    pub(crate) fn put(self, out: &mut Vec<u8>) -> Result<(), AllocError>
        ensures { OnOk result (out.new.items ≡ out.old.items ++ bytes_of_fields self) }
    {
        out.extend_from_slice(&[self.op, self.sub])?;
        out.extend_from_slice(&self.x.to_le_bytes())?;
        out.extend_from_slice(&self.a.to_le_bytes())?;
        out.extend_from_slice(&self.b.to_le_bytes())?;
        Ok(())
    }
}
