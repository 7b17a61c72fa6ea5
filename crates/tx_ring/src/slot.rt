//! Fetches the slot at the head: tests its descriptor, then completes it in one call.

ghost use Rattle.std.specs.Prelude.{◌≡◌, ◌↔◌, ◌+◌, ◌-◌, ◌≤◌, ◌<◌, ◌&&◌, if◌then◌else◌, length, true, IsTrue, IsFalse, OnOk, OnErr, IfOk, Some};
ghost use Rattle.dma_arena.specs.Memory.{is_lent};
ghost use Rattle.dma_ring.specs.Ring.{is_outside, slots_of};
ghost use Rattle.dma_ring.specs.declared.fault.RingFault.{RingFault};
ghost use Rattle.tx_ring.specs.Report.{head_address, can_report, back_of, report_address, report_length, reported};
ghost use Rattle.tx_ring.specs.Fetch.{IsReady, command_in, buffer_in, fault_of, descriptor_fault_of, data_fault_of, CanSend, data_outcome, fetch_of, bytes_held};

use crate::fetched::Fetched;
use crate::refused::TxRefused;
use crate::staged::Staged;
use crate::tx::Tx;
use dma_arena::LentMemory;
use dma_ring::{Ring, RingFault, command_in, done, first_half, of_halves, second_half};
use std::alloc::{AllocError, Global};

/// The type of a context descriptor.
const CONTEXT: u8 = 2;

/// The type of a data descriptor.
const DATA: u8 = 3;

/// The minimum length of a frame in bytes if short frames are padded.
const SHORTEST_FRAME: usize = 60;

/// Fetches the slot at the head of a transmit ring. The call stages the bytes of the descriptor's buffer, returns the
/// frame at the end of a packet, and writes back a report if the descriptor requests one. A context descriptor only
/// advances the head. If the head and the tail are in the ring, the device must own at least one of the ring's slots.
/// The ring must have at most 65,536 slots.
///
/// Errors, in the order of the tests: `Outside` if the head or the tail isn't a slot; `NotLent` with the descriptor's
/// address; `Legacy`; `UnknownType`. Then, for a data descriptor: `Offload`; `TooLong` if the staged bytes plus the
/// descriptor's bytes exceed the limit; `NotLent` with the buffer's address; `NotLent` with the address of the
/// write-back. `OutOfMemory` is returned only if all tests succeed and more bytes must be stored than before. Each
/// error leaves the memory and the staged bytes unchanged.
///
/// Intel 82599 datasheet, section on advanced transmit descriptors.
#[tactic(auto, unfolding(crate::specs::Fetch::fetch_of, crate::specs::Fetch::fault_of))]
pub fn fetch(
    alloc: Global,
    memory: &mut LentMemory,
    ring: &Ring,
    tx: &Tx,
    staged: &mut Staged,
) -> Result<Fetched, TxRefused>
    requires ready { IsReady ring.now }
    requires slots { slots_of ring.now ≤ 65536 }
    ensures fault { (f : RingFault) → (result ≡ Err (TxRefused.Fault f))
        ↔ (fault_of memory.old ring.now tx.now (length staged.old) ≡ Some f) }
    // All clauses hold for every setting, every memory, and any staged bytes.
    ensures answer { IfOk result (λ f. (fetch_of memory.old staged.old ring.now tx.now).answer ≡ Ok f) }
    ensures memory { OnOk result (memory.new ≡ (fetch_of memory.old staged.old ring.now tx.now).memory) }
    ensures staged { OnOk result (staged.new ≡ (fetch_of memory.old staged.old ring.now tx.now).staged) }
    ensures memory_kept { OnErr result (memory.new ≡ memory.old) }
    ensures staged_kept { OnErr result (staged.new ≡ staged.old) }
    ensures full { result ≡ Err TxRefused.OutOfMemory
        → length staged.old < length (bytes_held (fetch_of memory.old staged.old ring.now tx.now)) }
{
    if ring.outside() {
        return Err(TxRefused::Fault(RingFault::Outside));
    }
    let address = ring.descriptor(ring.head);
    if !memory.is_lent(address, 16) {
        return Err(TxRefused::Fault(RingFault::NotLent(address)));
    }
    let descriptor = memory.read16(address);
    if let Some(fault) = descriptor_fault(memory, ring, tx, staged.bytes().len(), &descriptor) {
        return Err(TxRefused::Fault(fault));
    }
    if command_in(second_half(&descriptor)).kind == CONTEXT {
        return Ok(Fetched {
            slot: ring.head,
            head: ring.next(ring.head),
            back: None,
            rs: false,
            frame: None,
        });
    }
    Ok(send(alloc, memory, ring, tx, staged, &descriptor)?)
}

/// Returns the fault of the first test that a descriptor fails, given that `staged` bytes are staged. Returns `None` if
/// no test fails.
#[tactic(auto, unfolding(crate::specs::Fetch::descriptor_fault_of))]
fn descriptor_fault(
    memory: &LentMemory,
    ring: &Ring,
    tx: &Tx,
    staged: usize,
    descriptor: &[u8; 16],
) -> Option<RingFault>
    ensures { result ≡ descriptor_fault_of memory.now ring.now tx.now staged descriptor.now }
{
    let command = command_in(second_half(descriptor));
    if !command.extended {
        return Some(RingFault::Legacy);
    }
    match command.kind {
        CONTEXT => None,
        DATA => data_fault(memory, ring, tx, staged, descriptor),
        _ => Some(RingFault::UnknownType),
    }
}

/// Returns the fault of the first test that a data descriptor fails, given that `staged` bytes are staged. Returns
/// `None` if no test fails.
#[tactic(auto, unfolding(crate::specs::Fetch::data_fault_of))]
fn data_fault(
    memory: &LentMemory,
    ring: &Ring,
    tx: &Tx,
    staged: usize,
    descriptor: &[u8; 16],
) -> Option<RingFault>
    ensures { result ≡ data_fault_of memory.now ring.now tx.now staged descriptor.now }
{
    let command = command_in(second_half(descriptor));
    if command.offload {
        return Some(RingFault::Offload);
    }
    let len = usize::from(command.len);
    if tx.limit < staged || tx.limit - staged < len {
        return Some(RingFault::TooLong);
    }
    let buffer = first_half(descriptor);
    if !memory.is_lent(buffer, len) {
        return Some(RingFault::NotLent(buffer));
    }
    if command.report && !is_report_lent(memory, ring, tx) {
        return Some(RingFault::NotLent(report_address(ring, tx)));
    }
    None
}

/// Executes a data descriptor that passed its tests: stages its bytes, returns the frame at the end of the packet, and
/// writes back a requested report. Only the staging allocates memory, and the staging is done first.
fn send(
    alloc: Global,
    memory: &mut LentMemory,
    ring: &Ring,
    tx: &Tx,
    staged: &mut Staged,
    descriptor: &[u8; 16],
) -> Result<Fetched, AllocError>
    requires inside { IsFalse (is_outside ring.now) }
    requires slots { slots_of ring.now ≤ 65536 }
    requires descriptor { IsTrue (is_lent memory.old (head_address ring.now) 16) }
    requires passed { CanSend memory.old ring.now tx.now (length staged.old) descriptor.now }
    ensures answer { IfOk result
        (λ f. (data_outcome memory.old staged.old ring.now tx.now descriptor.now).answer ≡ Ok f) }
    ensures memory { OnOk result
        (memory.new ≡ (data_outcome memory.old staged.old ring.now tx.now descriptor.now).memory) }
    ensures staged { OnOk result
        (staged.new ≡ (data_outcome memory.old staged.old ring.now tx.now descriptor.now).staged) }
    ensures memory_kept { OnErr result (memory.new ≡ memory.old) }
    ensures staged_kept { OnErr result (staged.new ≡ staged.old) }
    ensures full { OnErr result (length staged.old
        < length (bytes_held (data_outcome memory.old staged.old ring.now tx.now descriptor.now))) }
{
    let command = command_in(second_half(descriptor));
    let len = usize::from(command.len);
    let zeros = padding(tx, command.end, staged.bytes().len() + len);
    staged.stage(memory, first_half(descriptor), len, zeros)?;
    let back = report(memory, ring, tx, descriptor, command.report);
    let frame = staged.frame(alloc, command.end);
    Ok(Fetched {
        slot: ring.head,
        head: ring.next(ring.head),
        back,
        rs: command.report,
        frame,
    })
}

/// Returns the number of zero bytes to add to `len` bytes of a packet. The number is 0 unless the packet ends here, is
/// short, and is padded.
fn padding(tx: &Tx, end: bool, len: usize) -> usize
    ensures { result ≡ (if end && tx.now.pad then 60 - len else 0) }
{
    if end && tx.pad {
        SHORTEST_FRAME.saturating_sub(len)
    } else {
        0
    }
}

/// Returns the bus address to which a queue reports.
fn report_address(ring: &Ring, tx: &Tx) -> u64
    ensures { result ≡ report_address ring.now tx.now }
{
    tx.writeback.unwrap_or(ring.descriptor(ring.head))
}

/// Whether the bytes of a queue's report are lent.
fn is_report_lent(memory: &LentMemory, ring: &Ring, tx: &Tx) -> bool
    ensures { result ≡ is_lent memory.now (report_address ring.now tx.now) (report_length tx.now.writeback) }
{
    let len = if tx.writeback.is_some() { 4 } else { 16 };
    memory.is_lent(report_address(ring, tx), len)
}

/// Writes back that the slot at the head is done, if the descriptor requests a report. Returns the write-back address,
/// or `None` if nothing is written back.
fn report(
    memory: &mut LentMemory,
    ring: &Ring,
    tx: &Tx,
    descriptor: &[u8; 16],
    asked: bool,
) -> Option<u64>
    requires inside { IsFalse (is_outside ring.now) }
    requires slots { slots_of ring.now ≤ 65536 }
    requires lent { IsTrue (can_report memory.old ring.now tx.now asked) }
    ensures address { result ≡ back_of ring.now tx.now asked }
    ensures memory { memory.new ≡ reported memory.old ring.now tx.now asked descriptor.now }
{
    if !asked {
        return None;
    }
    write_back(memory, ring, tx, descriptor);
    Some(report_address(ring, tx))
}

/// Writes back that the slot at the head is done: the new head, or the descriptor with its done bit set.
fn write_back(memory: &mut LentMemory, ring: &Ring, tx: &Tx, descriptor: &[u8; 16])
    requires inside { IsFalse (is_outside ring.now) }
    requires slots { slots_of ring.now ≤ 65536 }
    requires lent { IsTrue (can_report memory.old ring.now tx.now true) }
    ensures { memory.new ≡ reported memory.old ring.now tx.now true descriptor.now }
{
    match tx.writeback {
        Some(address) => {
            let head = u32::from(ring.next(ring.head));
            memory.write_at(address, &head.to_le_bytes());
        }
        None => {
            let second = done(second_half(descriptor));
            memory.write16(
                ring.descriptor(ring.head),
                of_halves(first_half(descriptor), second),
            );
        }
    }
}
