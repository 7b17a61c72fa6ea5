//! An EEPROM image in a device.

use crate::device::{device, end, make, reads, write};
use crate::outcome::{Hand, done, same};
use nic_device::{Device, Event, Image, assemble};

/// Returns the image that a source describes.
pub fn image(rt: &impl Hand, text: &str) -> Image {
    done(rt, assemble(rt.alloc(), text))
}

/// Returns a device with this image.
fn device_with(rt: &impl Hand, image: Image) -> Device {
    let mut device = device(rt);
    let _blank = device.install(image);
    device
}

/// A reset applies the image's write to FCTRL after the image's writes to CTRL and EERD. EEC reports the image's size,
/// and EERD reads word 0x0D, which points to the CSR section.
#[test]
fn an_image_is_applied_and_read(rt: HostRuntime) {
    let rt = &rt;
    let text = "size 128\ncsr 0 0x04000000\ncsr 0x10014 1\ncsr 0x05080 0x400\n";
    let mut device = device_with(rt, image(rt, text));
    reads(rt, &mut device, 0x10010, 0xB00);
    reads(rt, &mut device, 0x05080, 0);
    write(rt, &mut device, 0, 0x0400_0000);
    reads(rt, &mut device, 0x05080, 0x400);
    reads(rt, &mut device, 0x00000, 0);
    reads(rt, &mut device, 0x10014, 0);
    reads(rt, &mut device, 0x10010, 0xB00);
    write(rt, &mut device, 0x10014, 0x35);
    make(rt, &mut device, Event::EepromStep);
    reads(rt, &mut device, 0x10014, 0x0040_0036);
    let image = end(rt, device);
    same(rt, u64::from(image.word(0x0D)), 0x40);
}

/// Checks that the word at this index is read through EERD.
fn is_read(rt: &impl Hand, device: &mut Device, index: u32, wanted: u16) {
    let asked = index << 2;
    write(rt, device, 0x10014, asked | 1);
    make(rt, device, Event::EepromStep);
    reads(rt, device, 0x10014, u32::from(wanted) << 16 | asked | 2);
}

/// Checks that each word of an image is read through EERD at its index.
fn every_word_is_read(rt: &impl Hand, text: &str) {
    let mut device = device_with(rt, image(rt, text));
    let image = image(rt, text);
    for (index, wanted) in image.words().iter().enumerate() {
        is_read(rt, &mut device, done(rt, u32::try_from(index)), *wanted);
    }
    let _image = end(rt, device);
}

/// All words of a small, a medium and the largest image are read.
#[test]
fn every_word_of_an_image_is_read(rt: HostRuntime) {
    every_word_is_read(&rt, "size 64\nword 0 1\nword 0x3e 0x1234\n");
    every_word_is_read(
        &rt,
        "size 128\nword 1 2\nword 0x7f 0xabcd\ncsr 0x05080 0x400\n",
    );
    every_word_is_read(&rt, "size 16384\nword 2 3\nword 0x3fff 7\n");
}
