//! A configured device, a driver of its queue 0, and frames.

use crate::outcome::{Hand, done, empty, fail, push, refused, same, same_bytes, same_pair, sees};
use device_lock::Calls;
use nic_device::{Arena, Buf, Config, Device, Event, LentMemory, Mode, Octets, Parts, Port, Reply};
use pmd::{Direct, Home, Nic, Packet, Pmd, PmdFault, Setup, StopRefused, TxAnswer, pf_setup};
use std::process::Abort;

/// A promiscuous setup with neither pools nor RSS.
pub const PLAIN: Setup = Setup {
    mode: Mode::Off,
    mrqc: 0,
    key: [0; 40],
    reta: [0; 128],
    promiscuous: true,
    frame: 1518,
};

/// The number of calls, including the calls that ran idle steps.
pub fn count_calls(calls: &Calls) -> usize {
    let (made, rested) = calls.kept();
    let mut steps = rested.count();
    for it in made {
        steps = steps.saturating_add(it.rested.count());
    }
    made.len().saturating_add(steps)
}

/// Why a driver call is refused: the fault, in a comparable form.
#[derive(Clone, Copy, PartialEq, Eq)]
pub enum Why {
    BadSize,
    ForeignBlock,
    StartTimeout,
    NoBuffer,
    DeviceFault,
    Call,
}

/// The reason that a fault states.
pub fn reason(fault: &PmdFault) -> Why {
    match fault {
        PmdFault::BadSize => Why::BadSize,
        PmdFault::ForeignBlock => Why::ForeignBlock,
        PmdFault::StartTimeout => Why::StartTimeout,
        PmdFault::NoBuffer => Why::NoBuffer,
        PmdFault::DeviceFault => Why::DeviceFault,
        PmdFault::Call(_) => Why::Call,
    }
}

/// Checks that a driver call is refused for this reason.
pub fn is_why(rt: &impl Abort, fault: &PmdFault, wanted: Why) {
    sees(rt, reason(fault) == wanted);
}

/// A 60-byte frame with a TCP segment over IPv4, from 02:00:00:00:00:02 to 02:00:00:00:00:01.
pub const TCP_FRAME: [u8; 60] = [
    0x02, 0x00, 0x00, 0x00, 0x00, 0x01, 0x02, 0x00, 0x00, 0x00, 0x00, 0x02, 0x08, 0x00, 0x45, 0x00,
    0x00, 0x28, 0x00, 0x00, 0x00, 0x00, 0x40, 0x06, 0x00, 0x00, 0x42, 0x09, 0x95, 0xbb, 0xa1, 0x8e,
    0x64, 0x50, 0x0a, 0xea, 0x06, 0xe6, 0x00, 0x00, 0x00, 0x00, 0x00, 0x00, 0x00, 0x00, 0x50, 0x10,
    0x00, 0x00, 0x00, 0x00, 0x00, 0x00, 0x00, 0x00, 0x00, 0x00, 0x00, 0x00,
];

/// A 74-byte frame with a TCP segment over IPv6, with the same MAC addresses.
pub const TCP6_FRAME: [u8; 74] = [
    0x02, 0x00, 0x00, 0x00, 0x00, 0x01, 0x02, 0x00, 0x00, 0x00, 0x00, 0x02, 0x86, 0xdd, 0x60, 0x00,
    0x00, 0x00, 0x00, 0x14, 0x06, 0x40, 0x3f, 0xfe, 0x25, 0x01, 0x02, 0x00, 0x1f, 0xff, 0x00, 0x00,
    0x00, 0x00, 0x00, 0x00, 0x00, 0x07, 0x3f, 0xfe, 0x25, 0x01, 0x02, 0x00, 0x00, 0x03, 0x00, 0x00,
    0x00, 0x00, 0x00, 0x00, 0x00, 0x01, 0x0a, 0xea, 0x06, 0xe6, 0x00, 0x00, 0x00, 0x00, 0x00, 0x00,
    0x00, 0x00, 0x50, 0x10, 0x00, 0x00, 0x00, 0x00, 0x00, 0x00,
];

/// Creates a promiscuous device with one virtual function and a receive list of `fifo` frames. The steps that serve
/// this queue run before each call.
pub fn opened(rt: &impl Hand, fifo: u16, queue: u16) -> Direct {
    set_up(rt, fifo, queue, &PLAIN)
}

/// Like `opened`, with a different setup.
pub fn set_up(rt: &impl Hand, fifo: u16, queue: u16, setup: &Setup) -> Direct {
    let mut direct = untouched(rt, fifo, queue);
    done(rt, pf_setup(rt.alloc(), &mut direct, setup));
    direct
}

/// Like `opened`, but without a setup.
pub fn untouched(rt: &impl Hand, fifo: u16, queue: u16) -> Direct {
    let device = done(rt, Device::new(rt.alloc(), Config { vfs: 1, fifo }));
    Direct::new(rt.alloc(), device, queue)
}

/// Gives access to a device. The steps that serve queue 0 run before each call.
pub fn stepped(rt: &impl Hand, device: Device) -> Direct {
    Direct::new(rt.alloc(), device, 0)
}

/// Gives access to the same device. The steps that serve this queue run before each later call.
pub fn stepped_on(rt: &impl Hand, direct: Direct, queue: u16) -> Direct {
    Direct::new(rt.alloc(), in_hand(direct), queue)
}

/// Finishes a `Direct` and returns its device.
pub fn in_hand(direct: Direct) -> Device {
    let (device, _calls) = direct.finish();
    device
}

/// An arena of blocks 4 to 35, all free.
pub fn blocks(rt: &impl Hand) -> Arena {
    done(rt, Arena::new(rt.alloc(), 4, 32))
}

/// A driver of queue 0 with rings of 8 descriptors.
pub fn started<N: Nic>(rt: &impl Hand, nic: &mut N) -> Pmd {
    started_with(rt, nic, 8, (4, 32))
}

/// A driver of queue 0 with rings of this size, and an arena of these blocks.
pub fn started_with<N: Nic>(
    rt: &impl Hand,
    nic: &mut N,
    size: u16,
    (first, count): (u32, u32),
) -> Pmd {
    let arena = done(rt, Arena::new(rt.alloc(), first, count));
    done(
        rt,
        Pmd::start(rt.alloc(), nic, Port::Pf, 0, size, 1518, arena),
    )
}

/// Closes a device. Returns the memory that was lent to it, and its transmitted frames.
pub fn taken_apart(device: Device) -> (LentMemory, Vec<(u8, Octets)>) {
    let Parts {
        memory,
        frames,
        image: _,
    } = device.dismantle();
    (memory, frames)
}

/// Closes a device without lent memory. Returns its transmitted frames.
pub fn end(rt: &impl Hand, device: Device) -> Vec<(u8, Octets)> {
    let (memory, frames) = taken_apart(device);
    done(rt, memory.finish());
    frames
}

/// What a stopped driver leaves: its arena, and the numbers of lost blocks, returned packets and accepted packets.
pub fn left_by(home: Home) -> (Arena, u32, usize, usize) {
    let Home {
        arena,
        lost,
        handed,
        accepted,
    } = home;
    (arena, lost, handed.len(), accepted.len())
}

/// Checks that no block is lost and all blocks are free. Returns the numbers of returned and accepted packets.
pub fn close(rt: &impl Hand, home: Home) -> (usize, usize) {
    let (arena, lost, handed, accepted) = left_by(home);
    same(rt, lost as usize, 0);
    done(rt, arena.close());
    (handed, accepted)
}

/// Checks that the reply is `Done`.
pub fn is_done(rt: &impl Abort, reply: Reply) {
    match reply {
        Reply::Done => {}
        _other => fail(rt, "not done"),
    }
}

/// The value in a reply to a read.
pub fn word_in(rt: &impl Abort, reply: Reply) -> u32 {
    match reply {
        Reply::Word(word) => word,
        _other => fail(rt, "no word"),
    }
}

/// The block in a reply to a `Take`.
pub fn block_in(rt: &impl Abort, reply: Reply) -> Buf {
    match reply {
        Reply::Buf(block) => block,
        _other => fail(rt, "no block"),
    }
}

/// Applies an event, and checks that the reply is `Done`.
pub fn make<N: Nic>(rt: &impl Hand, nic: &mut N, event: Event) {
    is_done(rt, done(rt, nic.call(rt.alloc(), event)));
}

/// Delivers a frame, and checks that it is appended to the receive list.
pub fn arrive<N: Nic>(rt: &impl Hand, nic: &mut N, bytes: Vec<u8>) {
    make(rt, nic, Event::Arrive(Octets::of(bytes)));
}

/// The frame with this number, which is 60 to 315 bytes long and starts with the number.
pub fn frame_of(rt: &impl Hand, number: u16) -> Vec<u8> {
    let [low, high] = number.to_le_bytes();
    let mut bytes = empty(rt);
    let mut word = u32::from(number);
    for _word in 0..15 + low / 4 {
        done(rt, bytes.extend_from_slice(&word.to_le_bytes()));
        word = word.wrapping_mul(1_664_525).wrapping_add(1_013_904_223);
    }
    for _byte in 0..low % 4 {
        push(rt, &mut bytes, high);
    }
    bytes
}

/// A TCP segment with this low byte in a port number. The byte changes the segment's hash.
pub fn segment(rt: &impl Hand, number: u8) -> Vec<u8> {
    let mut frame = TCP_FRAME;
    frame[35] = number;
    done(rt, Vec::from_array(rt.alloc(), frame))
}

/// Checks that the transmitted frames are those with numbers 0 to `count` - 1, in order.
pub fn are_first_frames(rt: &impl Hand, frames: &[(u8, Octets)], count: u16) {
    same(rt, frames.len(), usize::from(count));
    let mut number: u16 = 0;
    for (_queue, bytes) in frames {
        is_frame(rt, bytes, number);
        number = number.saturating_add(1);
    }
}

/// Checks that these are the bytes of the frame with this number.
pub fn is_frame(rt: &impl Hand, bytes: &Octets, number: u16) {
    same_bytes(rt, bytes.bytes(), frame_of(rt, number).as_slice());
}

/// Whether these are the packet's bytes.
pub fn has_bytes(packet: &Packet, frame: &[u8]) -> bool {
    let mut rest = frame;
    for number in 0..packet.bufs.count() {
        let bytes: &[u8] = packet.bufs.get(number).bytes();
        let more = rest.len().min(2048);
        if bytes[..more] != rest[..more] {
            return false;
        }
        rest = &rest[more..];
    }
    rest.is_empty() && usize::from(packet.len) == frame.len()
}

/// Checks that these are the packet's bytes.
pub fn holds_bytes(rt: &impl Abort, packet: &Packet, frame: &[u8]) {
    sees(rt, has_bytes(packet, frame));
}

/// Checks that the packet contains the frame with this number.
pub fn holds_frame(rt: &impl Hand, packet: &Packet, number: u16) {
    holds_bytes(rt, packet, frame_of(rt, number).as_slice());
}

/// The next received packet, if there is one.
pub fn received<N: Nic>(rt: &impl Hand, nic: &mut N, pmd: &mut Pmd) -> Option<Packet> {
    done(rt, pmd.rx(rt.alloc(), nic))
}

/// Sends a packet. The ring must have room for it.
pub fn send<N: Nic>(rt: &impl Hand, nic: &mut N, pmd: &mut Pmd, packet: Packet) {
    match done(rt, pmd.tx(rt.alloc(), nic, packet)) {
        TxAnswer::Taken => {}
        TxAnswer::RingFull(_packet) => fail(rt, "the ring is full"),
    }
}

/// Returns a packet's blocks to the driver.
pub fn release(rt: &impl Hand, pmd: &mut Pmd, packet: Packet) {
    done(rt, pmd.release(packet));
}

/// Reaps once. Returns whether no packet is outstanding.
pub fn reap_once<N: Nic>(rt: &impl Hand, nic: &mut N, pmd: &mut Pmd) -> bool {
    done(rt, pmd.reap(rt.alloc(), nic)).idle
}

/// Reaps until no packet is outstanding.
pub fn reap<N: Nic>(rt: &impl Hand, nic: &mut N, pmd: &mut Pmd) {
    for _turn in 0..10 {
        if reap_once(rt, nic, pmd) {
            return;
        }
    }
    fail(rt, "packets stay outstanding");
}

/// Stops a driver. The stop must succeed.
pub fn stopped<N: Nic>(rt: &impl Hand, nic: &mut N, pmd: Pmd) -> Home {
    done(rt, pmd.stop(rt.alloc(), nic))
}

/// Stops a driver and checks that all its blocks are free again. Returns the numbers of returned and accepted packets.
pub fn stop<N: Nic>(rt: &impl Hand, nic: &mut N, pmd: Pmd) -> (usize, usize) {
    close(rt, stopped(rt, nic, pmd))
}

/// Stops a driver. Checks its numbers of returned and accepted packets, and that all its blocks are free again.
pub fn stops<N: Nic>(rt: &impl Hand, nic: &mut N, pmd: Pmd, packets: (usize, usize)) {
    same_pair(rt, stop(rt, nic, pmd), packets);
}

/// Checks that stopping a driver times out because the steps of its queue don't run.
pub fn stop_times_out<N: Nic>(rt: &impl Hand, nic: &mut N, pmd: Pmd) -> Pmd {
    let StopRefused { fault, pmd } = refused(rt, pmd.stop(rt.alloc(), nic));
    is_why(rt, &fault, Why::StartTimeout);
    pmd
}
