//! A driver of one queue: a frame arrives, and the driver receives it and sends it back.

use nic_device::{Arena, Config, Device, Mode, Parts, Port};
use pmd::{Arrived, Direct, Home, Packet, Pmd, PmdFault, Setup, StartRefused, StopRefused, leave};
use std::collections::VecDeque;
use thiserror::Error;

/// Why the program fails.
#[derive(Debug, Drop, Error)]
pub enum Failure {
    #[error("there was no memory for a device, or for the blocks")]
    NoMemory,
    #[error("the driver: {0:?}")]
    Driver(#[from] PmdFault),
    #[error("the frame wasn't sent back")]
    Unsent,
    #[error("a block isn't home")]
    Away,
    #[error("no line was written")]
    Unwritten(#[from] std::io::Error),
}

type Done = Result<(), Failure>;

/// A TCP segment over IPv4 from a published RSS hash test vector, padded to 60 bytes.
const FRAME: &[u8] =
    b"\x02\x00\x00\x00\x00\x01\x02\x00\x00\x00\x00\x02\x08\x00\x45\x00\x00\x28\x00\x00\
\x00\x00\x40\x06\x00\x00\x42\x09\x95\xbb\xa1\x8e\x64\x50\x0a\xea\x06\xe6\x00\x00\
\x00\x00\x00\x00\x00\x00\x50\x10\x00\x00\x00\x00\x00\x00\x00\x00\x00\x00\x00\x00";

/// Accepts frames to any address. For TCP over IPv4, the hash is computed with the key of the published vectors; the
/// frames go to queue 0.
const SETUP: Setup = Setup {
    mode: Mode::Off,
    mrqc: 0x0001_0001,
    key: *b"\x6D\x5A\x56\xDA\x25\x5B\x0E\xC2\x41\x67\x25\x3D\x43\xA3\x8F\xB0\xD0\xCA\x2B\xCB\
\xAE\x7B\x30\xB4\x77\xCB\x2D\xA3\x80\x30\xF2\x0C\x6A\x42\xB7\x3B\xBE\xAC\x01\xFA",
    reta: [0; 128],
    promiscuous: true,
    frame: 1518,
};

/// Runs the program.
pub fn run(rt: &HostRuntime) -> Done {
    let made = Device::new(rt.alloc(), Config { vfs: 0, fifo: 64 });
    let mut nic = Direct::new(rt.alloc(), made.map_err(|_| Failure::NoMemory)?, 0);
    let driven = drive(rt, &mut nic);
    let (device, _calls) = nic.finish();
    let Parts {
        memory,
        frames,
        image: _,
    } = device.dismantle();
    let ended = memory.finish().map_err(|it| leave(it, Failure::Away));
    driven?;
    for (queue, frame) in frames.iter() {
        println!(rt; "queue {queue} sent {} bytes", frame.bytes().len())?;
    }
    ended
}

/// Sets up the device and drives its queue 0 from start to stop.
fn drive(rt: &HostRuntime, nic: &mut Direct) -> Done {
    let alloc = rt.alloc();
    pmd::pf_setup(alloc, nic, &SETUP)?;
    let arena = Arena::new(alloc, 4, 32).map_err(|_| Failure::NoMemory)?;
    let mut pmd = match Pmd::start(alloc, nic, Port::Pf, 0, 8, SETUP.frame, arena) {
        Ok(pmd) => pmd,
        Err(StartRefused { fault, rest }) => return Err(leave(rest, Failure::Driver(fault))),
    };
    let mut packets = VecDeque::new(alloc);
    let echoed = echo(rt, nic, &mut pmd, &mut packets);
    while let Some(packet) = packets.pop_front() {
        if let Err(packet) = pmd.release(packet) {
            leave(packet, Failure::Away);
        }
    }
    packets.destroy_empty();
    let Home {
        arena,
        lost,
        handed,
        accepted,
    } = match pmd.stop(alloc, nic) {
        Ok(home) => home,
        Err(StopRefused { fault, pmd }) => return Err(leave(pmd, Failure::Driver(fault))),
    };
    arena.close().map_err(|it| leave(it, Failure::Away))?;
    let (handed, accepted) = (handed.len(), accepted.len());
    println!(rt; "stopped: handed out {handed}, accepted {accepted}, lost {lost}")?;
    echoed
}

/// Delivers a frame, then polls. Each poll sends back what was received, and frees the blocks of sent packets.
fn echo(rt: &HostRuntime, nic: &mut Direct, pmd: &mut Pmd, packets: &mut VecDeque<Packet>) -> Done {
    println!(rt; "started")?;
    let arrived = pmd::arrive(rt.alloc(), nic, FRAME)?;
    for _look in 0..10 {
        let _came = pmd.rx_burst(rt.alloc(), nic, 32, packets)?;
        let _gone = pmd.tx_burst(rt.alloc(), nic, 0, packets)?;
        let _freed = pmd.reap(rt.alloc(), nic)?;
    }
    for it in pmd.handed() {
        let (len, rss, hash) = (it.bytes.bytes().len(), it.rss, it.hash);
        println!(rt; "received {len} bytes, RSS type {rss}, hash {hash:#010x}")?;
    }
    if arrived != Arrived::Taken || pmd.accepted().is_empty() || pmd.outstanding() > 0 {
        return Err(Failure::Unsent);
    }
    Ok(println!(rt; "reaped")?)
}
