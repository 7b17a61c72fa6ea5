//! A driver that is started repeatedly, on one device and one arena. The data of each life, which lasts from a start to
//! a stop, is freed when the life ends.

use nic_device::{Arena, Config, Device, Mode, Parts, Port};
use pmd::{Direct, Home, Packet, Pmd, PmdFault, Setup, StartRefused, StopRefused, leave};
use std::alloc::Global;
use std::collections::VecDeque;
use thiserror::Error;

/// Why the program fails.
#[derive(Debug, Drop, Error)]
pub enum Failure {
    #[error("there was no memory for a device, or for the blocks")]
    NoMemory,
    #[error("the driver: {0:?}")]
    Driver(#[from] PmdFault),
    #[error("a block isn't home")]
    Away,
    #[error("no line was written")]
    Unwritten(#[from] std::io::Error),
}

type Done = Result<(), Failure>;

/// How many times the driver is started.
const LIVES: u32 = 3;

/// How many frames the driver sends back in each life.
const FRAMES: u32 = 5;

/// A 60-byte frame to the broadcast address.
const FRAME: [u8; 60] = [0xFF; 60];

/// Accepts frames to any address. All of them go to queue 0.
const SETUP: Setup = Setup {
    mode: Mode::Off,
    mrqc: 0,
    key: [0; 40],
    reta: [0; 128],
    promiscuous: true,
    frame: 1518,
};

/// Runs the program.
pub fn run(rt: &HostRuntime) -> Done {
    let mut kept = begin(rt.alloc())?;
    for _life in 0..LIVES {
        kept = live(rt, kept)?;
    }
    let (device, arena) = kept;
    let away = arena.close().map_err(|it| leave(it, Failure::Away));
    let Parts {
        memory,
        frames,
        image: _,
    } = device.dismantle();
    memory.finish().map_err(|it| leave(it, Failure::Away))?;
    println!(rt; "the device sent {} frames", frames.len())?;
    away
}

/// Creates a device and sets it up, and creates the arena for its driver.
fn begin(alloc: Global) -> Result<(Device, Arena), Failure> {
    let made = Device::new(alloc, Config { vfs: 0, fifo: 64 });
    let mut nic = Direct::new(alloc, made.map_err(|_| Failure::NoMemory)?, 0);
    let set_up = pmd::pf_setup(alloc, &mut nic, &SETUP);
    let (device, _calls) = nic.finish();
    if let Err(fault) = set_up {
        return Err(leave(device, Failure::Driver(fault)));
    }
    match Arena::new(alloc, 4, 32) {
        Ok(arena) => Ok((device, arena)),
        Err(_) => Err(leave(device, Failure::NoMemory)),
    }
}

/// Runs one life of the driver. Its recorded calls are then freed; the device and the arena are kept.
fn live(rt: &HostRuntime, kept: (Device, Arena)) -> Result<(Device, Arena), Failure> {
    let (device, arena) = kept;
    let mut nic = Direct::new(rt.alloc(), device, 0);
    let home = drive(rt, &mut nic, arena);
    let (device, _calls) = nic.finish();
    match home {
        Ok(arena) => Ok((device, arena)),
        Err(failure) => Err(leave(device, failure)),
    }
}

/// Drives queue 0 from start to stop. After the stop, all blocks are back in the arena, and the packets' records are
/// freed.
fn drive(rt: &HostRuntime, nic: &mut Direct, arena: Arena) -> Result<Arena, Failure> {
    let alloc = rt.alloc();
    let mut pmd = match Pmd::start(alloc, nic, Port::Pf, 0, 8, SETUP.frame, arena) {
        Ok(pmd) => pmd,
        Err(StartRefused { fault, rest }) => return Err(leave(rest, Failure::Driver(fault))),
    };
    let mut packets = VecDeque::new(alloc);
    let echoed = echo(alloc, nic, &mut pmd, &mut packets);
    while let Some(packet) = packets.pop_front() {
        if let Err(packet) = pmd.release(packet) {
            leave(packet, Failure::Away);
        }
    }
    packets.destroy_empty();
    let home = match pmd.stop(alloc, nic) {
        Ok(home) => home,
        Err(StopRefused { fault, pmd }) => return Err(leave(pmd, Failure::Driver(fault))),
    };
    let reported = tell(rt, nic, &home);
    let Home {
        arena,
        lost: _,
        handed: _,
        accepted: _,
    } = home;
    match echoed.and(reported) {
        Ok(()) => Ok(arena),
        Err(failure) => Err(leave(arena, failure)),
    }
}

/// Delivers frames one after another, and sends each frame back.
fn echo(alloc: Global, nic: &mut Direct, pmd: &mut Pmd, packets: &mut VecDeque<Packet>) -> Done {
    for _frame in 0..FRAMES {
        let _arrived = pmd::arrive(alloc, nic, &FRAME)?;
        for _look in 0..3 {
            let _came = pmd.rx_burst(alloc, nic, 32, packets)?;
            let _gone = pmd.tx_burst(alloc, nic, 0, packets)?;
            let _freed = pmd.reap(alloc, nic)?;
        }
    }
    Ok(())
}

/// Prints the results of a life.
fn tell(rt: &HostRuntime, nic: &Direct, home: &Home) -> Done {
    let (handed, accepted) = (home.handed.len(), home.accepted.len());
    let (free, calls) = (home.arena.free_blocks(), nic.calls().kept().0.len());
    println!(rt; "handed out {handed}, accepted {accepted}, free blocks {free}, calls {calls}")?;
    Ok(())
}
