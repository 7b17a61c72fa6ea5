//! An owned device without virtual functions.

use crate::outcome::{Hand, done, same};
use nic_device::{Config, Device, Event, Image, Parts, Port, Reply};

/// The configuration of devices.
pub const CONFIG: Config = Config { vfs: 0, fifo: 64 };

/// Returns a new device with this configuration.
pub fn device(rt: &impl Hand) -> Device {
    done(rt, Device::new(rt.alloc(), CONFIG))
}

/// Returns the reply to an event, which must not run out of memory.
pub fn stepped(rt: &impl Hand, device: &mut Device, event: Event) -> Reply {
    done(rt, device.step(event))
}

/// Runs an event and checks that the reply is `Done`.
pub fn make(rt: &impl Hand, device: &mut Device, event: Event) {
    match stepped(rt, device, event) {
        Reply::Done => {}
        _other => panic!(rt; "not done"),
    }
}

/// Writes a register and checks that the reply is `Done`.
pub fn write(rt: &impl Hand, device: &mut Device, address: u32, word: u32) {
    make(rt, device, Event::Write(Port::Pf, address, word));
}

/// Checks the word that a read of this address returns.
pub fn reads(rt: &impl Hand, device: &mut Device, address: u32, wanted: u32) {
    match stepped(rt, device, Event::Read(Port::Pf, address)) {
        Reply::Word(word) => same(rt, u64::from(word), u64::from(wanted)),
        _other => panic!(rt; "no word"),
    }
}

/// Closes a device without lent memory and transmitted frames. Returns its image.
pub fn end(rt: &impl Hand, device: Device) -> Image {
    let Parts {
        memory,
        frames,
        image,
    } = device.dismantle();
    same(rt, frames.len() as u64, 0);
    done(rt, memory.finish());
    image
}
