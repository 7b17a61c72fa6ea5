//! A list of events.

use crate::device::{device, end};
use crate::outcome::{Hand, done, some};
use nic_device::{Device, Event, Port, Reply};

/// Returns the replies of a device to two reads in a list.
fn two_replies(rt: &impl Hand, device: &mut Device, first: u32, second: u32) -> Vec<Reply> {
    let list = [Event::Read(Port::Pf, first), Event::Read(Port::Pf, second)];
    let events = match Vec::from_array(rt.alloc(), list) {
        Ok(events) => events,
        Err(_refused) => panic!(rt; "memory"),
    };
    done(rt, device.run(rt.alloc(), events))
}

/// If a list contains a read of HLREG0 and a read of an address without a register, the device replies to both in
/// order.
#[test]
fn a_run_answers_in_order(rt: HostRuntime) {
    let rt = &rt;
    let mut device = device(rt);
    let mut replies = two_replies(rt, &mut device, 0x04240, 0x0000C);
    match some(rt, replies.pop()) {
        Reply::Stray(0) => {}
        _other => panic!(rt; "an address of nothing"),
    }
    match some(rt, replies.pop()) {
        Reply::Word(0x403) => {}
        _other => panic!(rt; "HLREG0"),
    }
    assert!(rt; replies.is_empty());
    replies.destroy_empty();
    let _blank = end(rt, device);
}
