//! Snapshots of devices and machines, and their restored copies.

use crate::device::{CONFIG, device, make, stepped, write};
use crate::images::image;
use crate::outcome::{Hand, done, holds, refused, same, some};
use dma_arena::Arena;
use nic_device::{Device, Event, Parts, Reply, RestoreRefused, Snapshot};
use script_asm::{Machine, assemble};

/// Returns an arena of this many blocks, starting at block 0.
fn arena(rt: &impl Hand, count: u32) -> Arena {
    done(rt, Arena::new(rt.alloc(), 0, count))
}

/// Closes a device to which block 4 is lent, and the arena of that block.
fn end(rt: &impl Hand, device: Device, mut arena: Arena) {
    let Parts {
        mut memory,
        frames: _,
        image: _,
    } = device.dismantle();
    let four = some(rt, memory.take(4));
    done(rt, memory.finish());
    done(rt, arena.give(four));
    done(rt, arena.close());
}

/// Returns a snapshot of a device with a changed CTRL_EXT, to which block 4 is lent with contents.
fn snapshot(rt: &impl Hand) -> Snapshot {
    let mut arena = arena(rt, 8);
    let mut device = device(rt);
    let four = some(rt, arena.take_at(4));
    make(rt, &mut device, Event::Lend(four));
    make(rt, &mut device, Event::Poke16(0x2010, [7; 16]));
    write(rt, &mut device, 0x00018, 0x0400_0000);
    let snapshot = done(rt, device.snapshot());
    end(rt, device, arena);
    snapshot
}

/// Checks whether block 4 of an arena is free, and the number of free blocks.
fn are_free(rt: &impl Hand, arena: &Arena, is_four: bool, count: u64) {
    holds(rt, "whether block 4 is free", arena.is_free(4) == is_four);
    same(rt, u64::from(arena.free_blocks()), count);
}

/// If the arena doesn't contain block 4, restoring fails and takes no block from the arena.
#[test]
fn a_device_needs_its_blocks(rt: HostRuntime) {
    let rt = &rt;
    let mut arena = arena(rt, 4);
    let why = refused(rt, Device::restore(&snapshot(rt), &mut arena));
    holds(rt, "block 4 isn't free", why == RestoreRefused::NotFree(4));
    are_free(rt, &arena, false, 4);
    done(rt, arena.close());
}

/// Checks that a device has the same CTRL_EXT and the same contents of block 4 as the snapshot's device.
fn is_the_one(rt: &impl Hand, device: &mut Device) {
    holds(
        rt,
        "CTRL_EXT",
        device.peek_register(0x00018) == Some(0x0400_0000),
    );
    match stepped(rt, device, Event::Peek16(0x2010)) {
        Reply::Bytes(bytes) => holds(rt, "the bytes of block 4", bytes == [7; 16]),
        _other => panic!(rt; "no bytes"),
    }
}

/// Restoring takes block 4 from an arena that contains it, and the device equals the original.
#[test]
fn a_device_is_restored(rt: HostRuntime) {
    let rt = &rt;
    let mut arena = arena(rt, 8);
    let mut device = done(rt, Device::restore(&snapshot(rt), &mut arena));
    are_free(rt, &arena, false, 7);
    is_the_one(rt, &mut device);
    end(rt, device, arena);
}

/// Returns a machine after three steps.
fn machine(rt: &impl Hand) -> Machine {
    let program = done(
        rt,
        assemble(rt.alloc(), "lend 3\nr STATUS\nand 0xff\nhalt\n"),
    );
    let mut machine = match Machine::new(rt.alloc(), program, CONFIG) {
        Ok(machine) => machine,
        Err(_refused) => panic!(rt; "no machine"),
    };
    for _ in 0..3 {
        let _answer = done(rt, machine.step());
    }
    machine
}

/// A machine that is restored from a snapshot has taken as many steps as the original.
#[test]
fn a_machine_is_restored(rt: HostRuntime) {
    let rt = &rt;
    let machine = machine(rt);
    let snapshot = done(rt, machine.snapshot());
    same(rt, snapshot.steps(), 3);
    let restored = done(rt, Machine::restore(&snapshot));
    same(rt, restored.steps(), 3);
    same(rt, u64::from(restored.pc()), 3);
    same(rt, u64::from(restored.acc()), u64::from(machine.acc()));
    restored.finish();
    machine.finish();
}

/// Assembles an image from a source. Checks that a copy of the image has the same words, and this word at index 0x3F.
fn is_copied(rt: &impl Hand, text: &str, last: u16) {
    let image = image(rt, text);
    let copy = done(rt, image.copy());
    holds(rt, text, copy.words() == image.words());
    same(rt, u64::from(copy.word(0x3F)), u64::from(last));
}

/// A copy of an image has the same words.
#[test]
fn an_image_is_copied(rt: HostRuntime) {
    is_copied(&rt, "size 64\n", 0xBAF9);
    is_copied(&rt, "size 128\ncsr 0x05080 0x400\n", 0xA298);
}
