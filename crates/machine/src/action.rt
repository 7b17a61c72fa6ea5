//! The actions of instructions.

ghost use Rattle.std.specs.Prelude.{◌≡◌, length};
ghost use Rattle.program.specs.Listing.{IsSound};
ghost use Rattle.machine.specs.Action.{action_of, IsSoundAction};

use nic_device::{Event, Port};
use program::{Instruction, Program};

/// Which part of the device's reply an instruction stores in `acc`.
#[derive(Clone, Copy)]
pub(crate) enum Kept {
    /// Nothing: `acc` keeps its value.
    Nothing,
    /// The value that was read, even if the read reached no register.
    Word,
    /// The word with this number, 0 to 3, in the 16 bytes that were read.
    Part(u8),
}

/// What an instruction does if it runs no device event.
#[derive(Clone, Copy)]
pub(crate) enum LocalAction {
    /// Compares `acc` under a mask, which is the second value, with the first value. If they differ, the machine fails.
    Expect(u32, u32),
    /// Clears those bits of `acc` that are 0 in this value.
    And(u32),
    /// Jumps to this instruction, or to the end of the program, if `acc` equals this value.
    JumpIfEqual(u32, u16),
    /// Jumps to this instruction, or to the end of the program, unless `acc` equals this value.
    JumpUnlessEqual(u32, u16),
    /// Jumps to this instruction, or to the end of the program.
    Jump(u16),
    /// Ends the program normally.
    Halt,
}

/// What an instruction does.
pub(crate) enum Action {
    /// Runs an event that moves no block, and stores a part of the reply in `acc`.
    Make(Event, Kept),
    /// Takes the block with this number from the arena and lends it.
    Lend(u16),
    /// Takes the block with this number back and returns it to the arena.
    TakeBack(u16),
    /// A copy of the data string with this number arrives as a frame.
    Arrive(u16),
    /// Runs no device event.
    Local(LocalAction),
}

/// Returns the bytes of a 16-byte data string.
fn sixteen(string: &[u8]) -> [u8; 16]
    requires { length string.now ≡ 16 }
    ensures { result ≡ string.now }
{
    let mut bytes = [0; 16];
    bytes.copy_from_slice(string);
    bytes
}

/// Returns the action of an instruction of the program.
pub(crate) fn action_of(program: &Program, instruction: Instruction) -> Action
    requires { IsSound program.now.strings (length program.now.instructions) instruction }
    ensures action { result ≡ action_of program.now instruction }
    ensures sound { IsSoundAction program.now result }
{
    match instruction {
        Instruction::Write(address, word) => {
            Action::Make(Event::Write(Port::Pf, address, word), Kept::Nothing)
        }
        Instruction::Read(address) => Action::Make(Event::Read(Port::Pf, address), Kept::Word),
        Instruction::VfWrite {
            function,
            offset,
            word,
        } => Action::Make(
            Event::Write(Port::Vf(function), offset, word),
            Kept::Nothing,
        ),
        Instruction::VfRead { function, offset } => {
            Action::Make(Event::Read(Port::Vf(function), offset), Kept::Word)
        }
        Instruction::Lend(block) => Action::Lend(block),
        Instruction::Unlend(block) => Action::TakeBack(block),
        Instruction::Poke(address, number) => {
            let bytes = sixteen(program.string(number));
            Action::Make(Event::Poke16(address, bytes), Kept::Nothing)
        }
        Instruction::Peek(address, word) => Action::Make(Event::Peek16(address), Kept::Part(word)),
        Instruction::Arrive(number) => Action::Arrive(number),
        Instruction::RxStep => Action::Make(Event::RxStep, Kept::Nothing),
        Instruction::TxStep(queue) => Action::Make(Event::TxStep(queue), Kept::Nothing),
        Instruction::IntStep(group) => Action::Make(Event::IntStep(group), Kept::Nothing),
        Instruction::QueueStep(direction, queue) => {
            Action::Make(Event::QueueStep(direction, queue), Kept::Nothing)
        }
        Instruction::EepromStep => Action::Make(Event::EepromStep, Kept::Nothing),
        Instruction::Link(up) => Action::Make(Event::Link(up), Kept::Nothing),
        Instruction::Collect => Action::Make(Event::Collect, Kept::Nothing),
        Instruction::Expect { want, mask } => Action::Local(LocalAction::Expect(want, mask)),
        Instruction::And(word) => Action::Local(LocalAction::And(word)),
        Instruction::JumpIfEqual(word, target) => Action::Local(LocalAction::JumpIfEqual(
            word, target,
        )),
        Instruction::JumpUnlessEqual(word, target) => {
            Action::Local(LocalAction::JumpUnlessEqual(word, target))
        }
        Instruction::Jump(target) => Action::Local(LocalAction::Jump(target)),
        Instruction::Halt => Action::Local(LocalAction::Halt),
    }
}
