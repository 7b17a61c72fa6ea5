//! Calls that create something new and change nothing else.

use crate::outcome::done;
use crate::sums::{START, end_arena, with, with_bytes, with_device};
use crate::trial::{Maker, makes};
use dma_arena::ArenaFault;
use nic_device::{
    Arena, AsmFault, Config, Device, Image, LoadFault, NewFault, Parts, assemble as image_of, load,
};
use std::alloc::Global;
use std::process::Abort;
use std::sync::Wait;

/// An image with a word and a register write.
const EEPROM: &str = "size 128\nword 0 5\ncsr 0x05080 0x00000400\n";

/// The kinds of values to create.
#[derive(Clone, Copy)]
enum Kind {
    Arena,
    Blank,
    Image,
    Load,
    ImageBytes,
    ImageCopy,
    Device,
}

/// A call, and its input.
#[derive(Drop)]
struct Fresh {
    kind: Kind,
    image: Image,
}

/// Returns the file of a blank image.
fn blank_file() -> [u8; 128] {
    let mut file = [0xFF; 128];
    file[0x7E] = 0xF9;
    file[0x7F] = 0xBA;
    file
}

fn sum_of_image(image: &Image) -> u64 {
    let mut sum = START;
    for word in image.words() {
        sum = with(sum, u64::from(*word));
    }
    sum
}

fn sum_of_device<R: Abort>(rt: &R, device: Device) -> u64 {
    let mut device = device;
    let sum = with_device(rt, START, &mut device);
    let Parts {
        memory,
        frames: _,
        image: _,
    } = device.dismantle();
    done(rt, memory.finish());
    sum
}

/// Creates an arena of two blocks, and returns a checksum of it.
fn arena<R: Abort>(rt: &R, alloc: Global) -> Option<u64> {
    match Arena::new(alloc, 4, 2) {
        Ok(arena) => Some(end_arena(rt, START, arena)),
        Err(ArenaFault::OutOfMemory) => None,
        Err(ArenaFault::Empty | ArenaFault::TooMany) => panic!(rt; "another refusal"),
    }
}

/// Creates a device with two virtual functions, and returns a checksum of it.
fn device<R: Abort>(rt: &R, alloc: Global) -> Option<u64> {
    match Device::new(alloc, Config { vfs: 2, fifo: 64 }) {
        Ok(device) => Some(sum_of_device(rt, device)),
        Err(NewFault::OutOfMemory) => None,
        Err(NewFault::TooManyVfs | NewFault::Fifo) => panic!(rt; "another refusal"),
    }
}

/// Assembles the image that a source describes, and returns a checksum of it.
fn assembled_image<R: Abort>(rt: &R, alloc: Global) -> Option<u64> {
    match image_of(alloc, EEPROM) {
        Ok(image) => Some(sum_of_image(&image)),
        Err(AsmFault::OutOfMemory) => None,
        Err(_fault) => panic!(rt; "another refusal"),
    }
}

/// Loads the image in a file, and returns a checksum of it.
fn loaded_image<R: Abort>(rt: &R, alloc: Global) -> Option<u64> {
    match load(alloc, &blank_file()) {
        Ok(image) => Some(sum_of_image(&image)),
        Err(LoadFault::OutOfMemory) => None,
        Err(_fault) => panic!(rt; "another refusal"),
    }
}

impl Fresh {
    fn new<R: Abort>(rt: &R, alloc: Global, kind: Kind) -> Fresh {
        Fresh {
            kind,
            image: done(rt, image_of(alloc, EEPROM)),
        }
    }
}

impl Maker for Fresh {
    fn make<R: Abort>(&self, rt: &R, alloc: Global) -> Option<u64> {
        match self.kind {
            Kind::Arena => arena(rt, alloc),
            Kind::Blank => Some(sum_of_image(&Image::blank(alloc).ok()?)),
            Kind::Image => assembled_image(rt, alloc),
            Kind::Load => loaded_image(rt, alloc),
            Kind::Device => device(rt, alloc),
            Kind::ImageBytes => Some(with_bytes(START, &self.image.to_bytes(alloc).ok()?)),
            Kind::ImageCopy => Some(sum_of_image(&self.image.copy().ok()?)),
        }
    }

    fn picture(&self) -> u64 {
        sum_of_image(&self.image)
    }
}

/// Tests a call that creates a value of this kind.
fn made<R: Abort + Wait + Print>(rt: &R, alloc: Global, kind: Kind) {
    let subject = Fresh::new(rt, alloc, kind);
    let calm = Fresh::new(rt, alloc, kind);
    makes(rt, alloc, subject, calm);
}

#[test]
fn a_new_arena(rt: HostRuntime) {
    made(&rt, rt.alloc(), Kind::Arena);
}

#[test]
fn a_blank_image(rt: HostRuntime) {
    made(&rt, rt.alloc(), Kind::Blank);
}

#[test]
fn an_assembled_image(rt: HostRuntime) {
    made(&rt, rt.alloc(), Kind::Image);
}

#[test]
fn a_loaded_image(rt: HostRuntime) {
    made(&rt, rt.alloc(), Kind::Load);
}

#[test]
fn the_bytes_of_an_image(rt: HostRuntime) {
    made(&rt, rt.alloc(), Kind::ImageBytes);
}

#[test]
fn a_copied_image(rt: HostRuntime) {
    made(&rt, rt.alloc(), Kind::ImageCopy);
}

#[test]
fn a_new_device(rt: HostRuntime) {
    made(&rt, rt.alloc(), Kind::Device);
}
