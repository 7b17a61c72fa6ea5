//! The instructions of the register-script language.

ghost use Rattle.std.specs.Prelude.{◌≡◌, Ok, Result};
ghost use Rattle.program.specs.Mapped.{AnswersBy, IsLaterNameless, IsNameless, try_map, without_names};

use dma_ring::Dir;
use intr_unit::Group;
use std::alloc::AllocError;

/// One instruction of a program, or of a script during assembly.
///
/// `L` is the type of a jump's target, and `D` the type of a data string. In a program, a jump's target is an
/// instruction's number, and a data string is given by its number, both counted from 0. Addresses and words are 32 bits
/// wide; block and queue numbers are 16 bits wide. Reads and peeks load a word into the accumulator `acc`, which is
/// initially 0.
#[derive(Copy, Debug, Drop, PartialEq, Eq)]
pub enum Instruction<L = u16, D = u16> {
    /// `w`: writes a register through the physical function. The operands are the register's address and the new value.
    Write(u32, u32),
    /// `r`: reads the register at an address through the physical function into `acc`.
    Read(u32),
    /// `vw`: writes a register through a virtual function.
    VfWrite {
        /// The number of the virtual function, 0 to 62.
        function: u8,
        /// The byte offset in the virtual function's register space.
        offset: u32,
        /// The word to write.
        word: u32,
    },
    /// `vr`: reads a register through a virtual function into `acc`.
    VfRead {
        /// The number of the virtual function, 0 to 62.
        function: u8,
        /// The byte offset in the virtual function's register space.
        offset: u32,
    },
    /// `lend`: takes the block with this number from the machine's arena and lends it to the device.
    Lend(u16),
    /// `unlend`: takes the block with this number back from the device and returns it to the arena.
    Unlend(u16),
    /// `poke`: writes 16 bytes to lent memory. The operands are the bus address and a 16-byte data string.
    Poke(u32, D),
    /// `peek`: reads 16 bytes of lent memory at a bus address. The second operand, 0 to 3, selects which 32-bit word of
    /// these bytes is loaded into `acc`.
    Peek(u32, u8),
    /// `arrive`: a frame with the bytes of a data string arrives from the link.
    Arrive(D),
    /// `rx`: runs one receive step of the device.
    RxStep,
    /// `tx`: runs one transmit step for a queue.
    TxStep(u16),
    /// `int`: sends the next message of an interrupt group: the physical function's, or a virtual function's (0 to 62).
    IntStep(Group),
    /// `qstep`: enables or disables one side of a queue, as the side's enable bit requests.
    QueueStep(Dir, u16),
    /// `eestep`: completes the EEPROM read that EERD requests.
    EepromStep,
    /// `link`: sets the link up (`true`) or down (`false`).
    Link(bool),
    /// `collect`: removes the oldest transmitted frame.
    Collect,
    /// `expect`: the program fails unless the bits of `acc` in the mask, with all other bits 0, equal the expected
    /// word.
    Expect {
        /// The expected word.
        want: u32,
        /// The bits of `acc` to compare.
        mask: u32,
    },
    /// `and`: clears the bits in `acc` that are 0 in this word.
    And(u32),
    /// `jeq`: jumps to the target if `acc` equals this word.
    JumpIfEqual(u32, L),
    /// `jne`: jumps to the target unless `acc` equals this word.
    JumpUnlessEqual(u32, L),
    /// `jmp`: jumps to the target.
    Jump(L),
    /// `halt`: ends the program.
    Halt,
}

impl<L: Copy, D: Copy> Clone for Instruction<L, D> {
    ghost use Rattle.std.specs.Prelude.{◌≡◌, ⊤};

    ghost is_clone = { λ x y. y ≡ x };

    ghost is_infallible = { λ _. ⊤ };

    fn clone(&self) -> Result<Self, AllocError> {
        Ok(*self)
    }
}

impl<L, D> Instruction<L, D> {
    /// Returns the instruction with `label` applied to its jump target and `string` applied to its data string. If one
    /// of these functions returns an error, returns that error. If the instruction has no jump target, `label` doesn't
    /// affect the result; if it has no data string, `string` doesn't.
    pub fn try_map<M, N, E, F, G>(&self, label: F, string: G) -> Result<Instruction<M, N>, E>
    where
        F: FnOnce(&L) -> Result<M, E> + Drop,
        G: FnOnce(&D) -> Result<N, E> + Drop,
        requires label { F.IsAlwaysCallable label }
        requires string { G.IsAlwaysCallable string }
        ensures { (to_label : L → Result M E) (to_string : D → Result N E) → AnswersBy F.FnOnce label to_label
            → AnswersBy G.FnOnce string to_string → result ≡ try_map to_label to_string self.now }
    {
        match *self {
            Instruction::Poke(address, ref name) => Ok(Instruction::Poke(address, string(name)?)),
            Instruction::Arrive(ref name) => Ok(Instruction::Arrive(string(name)?)),
            Instruction::JumpIfEqual(word, ref name) => Ok(Instruction::JumpIfEqual(
                word,
                label(name)?,
            )),
            Instruction::JumpUnlessEqual(word, ref name) => Ok(Instruction::JumpUnlessEqual(
                word,
                label(name)?,
            )),
            Instruction::Jump(ref name) => Ok(Instruction::Jump(label(name)?)),
            _ => Ok(self.nameless()),
        }
    }

    /// Converts an instruction that has neither a jump target nor a data string to an instruction with other types for
    /// these operands.
    fn nameless<M, N>(&self) -> Instruction<M, N>
        requires { IsNameless self.now }
        ensures { without_names self.now ≡ Ok result }
    {
        match *self {
            Instruction::Write(address, word) => Instruction::Write(address, word),
            Instruction::Read(address) => Instruction::Read(address),
            Instruction::VfWrite {
                function,
                offset,
                word,
            } => Instruction::VfWrite {
                function,
                offset,
                word,
            },
            Instruction::VfRead { function, offset } => Instruction::VfRead { function, offset },
            Instruction::Lend(block) => Instruction::Lend(block),
            Instruction::Unlend(block) => Instruction::Unlend(block),
            Instruction::Peek(address, word) => Instruction::Peek(address, word),
            Instruction::RxStep => Instruction::RxStep,
            Instruction::TxStep(queue) => Instruction::TxStep(queue),
            _ => self.later_nameless(),
        }
    }

    /// The second half of `nameless`: the instructions after `tx`.
    fn later_nameless<M, N>(&self) -> Instruction<M, N>
        requires { IsLaterNameless self.now }
        ensures { without_names self.now ≡ Ok result }
    {
        match *self {
            Instruction::IntStep(group) => Instruction::IntStep(group),
            Instruction::QueueStep(direction, queue) => Instruction::QueueStep(direction, queue),
            Instruction::EepromStep => Instruction::EepromStep,
            Instruction::Link(up) => Instruction::Link(up),
            Instruction::Collect => Instruction::Collect,
            Instruction::Expect { want, mask } => Instruction::Expect { want, mask },
            Instruction::And(word) => Instruction::And(word),
            Instruction::Halt => Instruction::Halt,
            _ => unreachable!(),
        }
    }
}
