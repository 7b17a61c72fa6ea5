//! A second description of objects, the machine, the debugger, arenas and devices. It states each byte of an
//! instruction, what each instruction does, how breakpoints work, the number of the last block, and how large a device
//! can be. The description is written by hand, independently of the definitions that the contracts of lower crates
//! cite.
//!
//! Each law is the contract of a function that does nothing, or that calls one function with fixed numbers.
#![tactic(auto)]

ghost use Rattle.std.specs.Prelude.{◌≡◌, Ok, Err, IfOk, IfErr};
ghost use Rattle.dma_arena.specs.Numbers.{all_free};
ghost use Rattle.script_laws.specs.Arenas.{ArenasAreSplit};
ghost use Rattle.script_laws.specs.Commands.{BreakpointsAreBounded, BreakpointsHoldRuns, SessionsGoBack};
ghost use Rattle.script_laws.specs.Objects.{InstructionsAreBytes, ObjectsAreBytes, ObjectsHaveFaults};
ghost use Rattle.script_laws.specs.Steps.{InstructionsAct, InstructionsMakeEvents};

use dma_arena::{Arena, ArenaFault};
use nic_device::{Config, Device, NewFault};
use std::alloc::Global;

/// In an object, an instruction is twelve bytes long. It consists of the operation (1 to 22), its kind, 16 bits for a
/// block, queue, function, data string or target, and two 32-bit words. Each number has the low byte first. The fields
/// that an operation doesn't use are 0. As an example, the object of an `arrive` with a three-byte data string,
/// followed by a `halt`, consists of 45 bytes. Its header is 4e 42 53 43, version 1, two instructions, one data string,
/// 0, and the total number of bytes, 45. Both instructions follow, then the length of the data string, and the string.
#[tactic(auto, using(crate::proofs::Objects::instructions, crate::proofs::Objects::objects))]
pub fn instructions_are_bytes()
    ensures each { InstructionsAreBytes }
    ensures object { ObjectsAreBytes }
{}

/// Bytes that aren't an object are refused with their first fault. 37 lists of bytes show this, and three more lists
/// are objects. Faults are reported in this order: in the first four bytes, in the version, and in the numbers of the
/// header or the parts that they describe. Then the first faulty instruction is reported with its number. Within an
/// instruction, the order is: its operation, an operand that is out of its range or unused but not 0, and its target.
/// If bytes of the header are missing, they count as wrong.
#[tactic(auto, using(crate::proofs::Objects::faults))]
pub fn objects_have_an_order_of_faults()
    ensures { ObjectsHaveFaults }
{}

/// A step of a running machine runs the event of the next instruction, with that instruction's operands, and returns
/// the device's reply. A read leaves the value in the accumulator, even the value of a stray access. A peek at 16 bytes
/// leaves the word that the peek's operand selects, with the low byte first. No other event changes the accumulator. A
/// block that the step lends is no longer free, and a block that a reply returns is free again. If the block to lend
/// isn't free, no event is run. After the step, the following instruction is next; after the last instruction, the
/// machine has ended.
#[tactic(auto, using(crate::proofs::Steps::make))]
pub fn instructions_make_events()
    ensures { InstructionsMakeEvents }
{}

/// An `expect` of V under a mask M continues exactly if acc & M is V, where acc is the accumulator. Otherwise the
/// `expect` fails with acc & M and V, and the machine stays at that instruction. An `and` with V leaves acc & V in the
/// accumulator. A conditional jump is taken or not, depending on whether the accumulator equals the jump's word. A jump
/// that is taken continues at its target, and any other jump at the next instruction. A `halt` ends the machine at the
/// `halt`. None of these instructions changes the device or the blocks, and each counts as a step.
#[tactic(auto, using(crate::proofs::Steps::act_so))]
pub fn instructions_act()
    ensures { InstructionsAct }
{}

/// A breakpoint is set at an instruction of the program. Setting a breakpoint that is already set has no effect, even
/// if 32 are set. If 32 are set, a new breakpoint is refused with `TooManyBreaks`. Setting a breakpoint after the last
/// instruction is refused with `NoSuchPc`, and so is clearing a breakpoint that isn't set. Going back reduces the
/// number of steps by the number requested. Going back before the first step is refused with `AtStart`.
#[tactic(auto, using(crate::proofs::Commands::breakpoints, crate::proofs::Commands::back))]
pub fn breakpoints_are_bounded()
    ensures breaks { BreakpointsAreBounded }
    ensures back { SessionsGoBack }
{}

/// A debugger's `Step` takes as many steps as requested, regardless of breakpoints, or fewer if the machine stops.
/// `Continue` also ends after a step if the next instruction has a breakpoint. It takes at least one step if the
/// machine can, even from an instruction with a breakpoint. With a count of 0, neither command takes a step.
pub fn breakpoints_hold_runs()
    ensures { BreakpointsHoldRuns }
{}

/// An arena can consist of block 65,535 alone, which is then free. Such an arena is refused only for lack of memory.
pub fn last_block_is_there(alloc: Global) -> Result<Arena, ArenaFault>
    ensures made { IfOk result (λ arena. arena ≡ all_free 65535 1) }
    ensures refused { IfErr result (λ fault. fault ≡ ArenaFault.OutOfMemory) }
{
    Arena::new(alloc, 65_535, 1)
}

/// An arena can be split at each of its block numbers except the first, and at no other number. Blocks with lower
/// numbers are then in the first part, and the block with this number is the first block in the second part.
#[tactic(auto, using(crate::proofs::Arenas::split_so))]
pub fn arenas_are_split_inside()
    ensures { ArenasAreSplit }
{}

/// A device with 63 virtual functions and a receive list of 4,096 frames is refused only for lack of memory.
pub fn largest_device_is_there(alloc: Global) -> Result<Device, NewFault>
    ensures { IfErr result (λ fault. fault ≡ NewFault.OutOfMemory) }
{
    Device::new(
        alloc,
        Config {
            vfs: 63,
            fifo: 4096,
        },
    )
}

/// A device with 64 virtual functions is refused because of their number, even if its receive list has room for no
/// frame, which isn't allowed either.
pub fn no_device_has_64_functions(alloc: Global) -> Result<Device, NewFault>
    ensures { result ≡ Err NewFault.TooManyVfs }
{
    Device::new(alloc, Config { vfs: 64, fifo: 0 })
}

/// A receive list with room for no frame is refused; in this example, without virtual functions.
pub fn no_receive_list_is_empty(alloc: Global) -> Result<Device, NewFault>
    ensures { result ≡ Err NewFault.Fifo }
{
    Device::new(alloc, Config { vfs: 0, fifo: 0 })
}

/// A receive list with room for 4,097 frames is refused; in this example, with 63 virtual functions.
pub fn no_receive_list_is_longer(alloc: Global) -> Result<Device, NewFault>
    ensures { result ≡ Err NewFault.Fifo }
{
    Device::new(
        alloc,
        Config {
            vfs: 63,
            fifo: 4097,
        },
    )
}

/// An arena of no blocks is refused as `Empty`; in this example, with the first number 70,000, which no block can have.
pub fn no_arena_is_empty(alloc: Global) -> Result<Arena, ArenaFault>
    ensures { result ≡ Err ArenaFault.Empty }
{
    Arena::new(alloc, 70_000, 0)
}

/// An arena of blocks 65,535 and 65,536 is refused as `TooMany`.
pub fn no_block_is_after_it(alloc: Global) -> Result<Arena, ArenaFault>
    ensures { result ≡ Err ArenaFault.TooMany }
{
    Arena::new(alloc, 65_535, 2)
}
