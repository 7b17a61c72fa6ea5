//! Two drivers, one for each of two queues of a pool, run while 10,000 frames arrive. A stranger resets the device, the
//! pool and the function, and takes and lends blocks of the drivers' rings. The stranger also writes random values to
//! registers on which the queues rely.

use crate::bench::segment;
use crate::hostile::offer;
use crate::others::Random;
use crate::outcome::{Hand, done, empty, none, put, sees, some};
use crate::random::SEEDS;
use crate::schedule::let_reply_go;
use crate::stranger::reply;
use crate::team::{BLOCKS, Bench, apart, blocks_of, parting, sent_in, set_up};
use device_lock::Pass;
use nic_device::{Arena, Buf, Event, Mode, Octets, Port};
use pmd::{Home, Pmd, Rest, StartRefused, StopRefused, ThroughLock};

/// The number of rounds in a run. Four frames arrive in each round. Each of twenty seeds determines one run.
const TURNS: u32 = 125;

/// The number of rounds after which everything is set up again.
const SPELL: u32 = 25;

/// The addresses of queue 0's registers. Those of queue 1 are 64 bytes higher.
#[rattlefmt::skip]
const ROWS: [u32; 12] = [
    0x01000, 0x01008, 0x01010, 0x01014, 0x01018, 0x01028,  // RDBAL, RDLEN, RDH, SRRCTL, RDT, RXDCTL
    0x06000, 0x06008, 0x06010, 0x06018, 0x06028, 0x06038,  // TDBAL, TDLEN, TDH, TDT, TXDCTL, TDWBAL
];

/// A driver of a queue, running or stopped, and the number of blocks lost so far.
struct Driver {
    queue: u16,
    pass: Option<Pass>,
    pmd: Option<Pmd>,
    arena: Option<Arena>,
    lost: u32,
}

impl Driver {
    /// Creates a stopped driver.
    fn new(rt: &impl Hand, pass: Pass) -> Driver {
        let queue = u16::from(pass.tag() % 2);
        Driver {
            queue,
            pass: Some(pass),
            pmd: None,
            arena: Some(blocks_of(rt, queue)),
            lost: 0,
        }
    }

    /// Takes over what remains of a stopped driver.
    fn come_home(&mut self, rt: &impl Hand, home: Home) {
        let Home {
            arena,
            lost,
            handed: _,
            accepted: _,
        } = home;
        self.lost = self.lost.saturating_add(lost);
        put(rt, &mut self.arena, arena);
    }

    /// Starts the driver if it is stopped. A driver that started only partly is stopped later.
    fn start(&mut self, rt: &impl Hand, bench: &Bench) {
        let Some(arena) = self.arena.take() else {
            return;
        };
        let mut nic = ThroughLock::new(rt, bench, some(rt, self.pass.take()), self.queue);
        match Pmd::start(rt.alloc(), &mut nic, Port::Pf, self.queue, 8, 1518, arena) {
            Ok(pmd) => put(rt, &mut self.pmd, pmd),
            Err(StartRefused { fault: _, rest }) => match rest {
                Rest::Home(home) => self.come_home(rt, home),
                Rest::Running(pmd) => put(rt, &mut self.pmd, pmd),
            },
        }
        put(rt, &mut self.pass, nic.finish());
    }

    /// Stops the driver if it runs. If the stop is refused, the driver keeps running.
    fn stop(&mut self, rt: &impl Hand, bench: &Bench) {
        let Some(pmd) = self.pmd.take() else {
            return;
        };
        let mut nic = ThroughLock::new(rt, bench, some(rt, self.pass.take()), self.queue);
        match pmd.stop(rt.alloc(), &mut nic) {
            Ok(home) => self.come_home(rt, home),
            Err(StopRefused { fault: _, pmd }) => put(rt, &mut self.pmd, pmd),
        }
        put(rt, &mut self.pass, nic.finish());
    }

    /// Receives up to two packets and sends them back, whatever the results are.
    fn turn(&mut self, rt: &impl Hand, bench: &Bench) {
        let Some(mut pmd) = self.pmd.take() else {
            return;
        };
        let mut nic = ThroughLock::new(rt, bench, some(rt, self.pass.take()), self.queue);
        for _packet in 0..2 {
            match pmd.rx(rt.alloc(), &mut nic) {
                Ok(Some(packet)) => offer(rt, &mut nic, &mut pmd, packet),
                Ok(None) | Err(_) => {}
            }
        }
        let _reaped = pmd.reap(rt.alloc(), &mut nic);
        put(rt, &mut self.pmd, pmd);
        put(rt, &mut self.pass, nic.finish());
    }

    /// Returns the pass and the arena. Checks that all blocks are free or counted as lost.
    fn end(self, rt: &impl Hand) -> (Pass, Arena) {
        let Driver {
            queue: _,
            pass,
            pmd,
            arena,
            lost,
        } = self;
        none(rt, pmd);
        let arena = some(rt, arena);
        sees(rt, arena.free_blocks().saturating_add(lost) == BLOCKS);
        (some(rt, pass), arena)
    }
}

/// A random event by the stranger.
fn event(random: &mut Random, bufs: &mut Vec<Buf>) -> Event {
    let queue = u32::from(random.byte() % 2);
    match random.byte() % 8 {
        0 => Event::Write(Port::Pf, 0, 0x0400_0000), // CTRL, resets the device
        1 => Event::Write(Port::Pf, 0x00300, 0x0400_0000), // PVFCTRL, resets the pool
        2 => Event::Write(Port::Vf(0), 0, 0x0400_0000), // VFCTRL, resets the function
        3 | 4 => Event::Take(random.next() % (2 * BLOCKS)),
        5 => match bufs.pop() {
            Some(buf) => Event::Lend(buf),
            None => Event::RxStep,
        },
        _more => {
            let row = ROWS[usize::from(random.byte() % 12)];
            Event::Write(Port::Pf, row + 64 * queue, random.next())
        }
    }
}

/// Two drivers, the host that sets everything up and delivers frames, and a stranger.
struct Storm {
    random: Random,
    drivers: [Driver; 2],
    host: Option<Pass>,
    stranger: Pass,
    bufs: Vec<Buf>,
}

impl Storm {
    fn new(rt: &impl Hand, passes: Vec<Pass>, seed: u32) -> Storm {
        let mut passes = passes;
        let stranger = some(rt, passes.pop());
        let host = passes.pop();
        let second = Driver::new(rt, some(rt, passes.pop()));
        let first = Driver::new(rt, some(rt, passes.pop()));
        Storm {
            random: Random::of(seed),
            drivers: [first, second],
            host,
            stranger,
            bufs: empty(rt),
        }
    }

    /// Stops each of the two drivers that is running.
    fn stop(&mut self, rt: &impl Hand, bench: &Bench) {
        for driver in self.drivers.iter_mut() {
            driver.stop(rt, bench);
        }
    }

    /// Stops both drivers, sets the device up, and starts them. Both queues belong to pool 0, and frames are
    /// distributed between them using their hash.
    fn begin(&mut self, rt: &impl Hand, bench: &Bench) {
        self.stop(rt, bench);
        let host = some(rt, self.host.take());
        put(
            rt,
            &mut self.host,
            set_up(rt, bench, host, &parting(Mode::Pools64, 0x0001_000B)),
        );
        for driver in self.drivers.iter_mut() {
            driver.start(rt, bench);
        }
    }

    /// Delivers a frame from the link.
    fn arrive(&mut self, rt: &impl Hand, bench: &Bench) {
        let mut host = some(rt, self.host.take());
        let arriving = Event::Arrive(Octets::of(segment(rt, self.random.byte())));
        let arrived = reply(rt, bench, &mut host, arriving);
        let_reply_go(rt, &mut self.bufs, arrived);
        put(rt, &mut self.host, host);
    }

    /// Delivers four frames, applies an event by the stranger in a quarter of the rounds, and has both drivers receive
    /// and send.
    fn turn(&mut self, rt: &impl Hand, bench: &Bench) {
        for _frame in 0..4 {
            self.arrive(rt, bench);
        }
        if self.random.byte() % 4 == 0 {
            let event = event(&mut self.random, &mut self.bufs);
            let made = reply(rt, bench, &mut self.stranger, event);
            let_reply_go(rt, &mut self.bufs, made);
        }
        for driver in self.drivers.iter_mut() {
            driver.turn(rt, bench);
        }
    }
}

/// What remains after a storm: all passes, the drivers' arenas, and the stranger's blocks.
struct Over {
    passes: Vec<Pass>,
    arenas: Vec<Arena>,
    bufs: Vec<Buf>,
}

/// Ends a storm with stopped drivers.
fn end_storm(rt: &impl Hand, storm: Storm) -> Over {
    let Storm {
        random: _,
        drivers: [first, second],
        host,
        stranger,
        bufs,
    } = storm;
    let (of_first, below) = first.end(rt);
    let (of_second, above) = second.end(rt);
    let passes = [of_first, of_second, some(rt, host), stranger];
    Over {
        passes: done(rt, Vec::from_array(rt.alloc(), passes)),
        arenas: done(rt, Vec::from_array(rt.alloc(), [below, above])),
        bufs,
    }
}

/// Runs all rounds of a storm, and sets everything up again every `SPELL` rounds.
fn all_turns(rt: &impl Hand, bench: &Bench, storm: &mut Storm) {
    for number in 0..TURNS {
        if number % SPELL == 0 {
            storm.begin(rt, bench);
        }
        storm.turn(rt, bench);
    }
    storm.stop(rt, bench);
}

/// Runs a storm from a seed. Returns the number of transmitted frames.
fn run_of(rt: &impl Hand, seed: u32) -> usize {
    let (bench, passes) = done(rt, Bench::new(rt.alloc(), 1, 4, 1_000_000));
    let mut storm = Storm::new(rt, passes, seed);
    all_turns(rt, &bench, &mut storm);
    let Over {
        passes,
        arenas,
        bufs,
    } = end_storm(rt, storm);
    let closed = done(rt, bench.close(passes));
    let sent = sent_in(rt, closed.history());
    let _away = apart(rt, closed.into_device(), &sent, bufs, arenas);
    sent.len()
}

/// Every call returns, and the history closes. Each block is free, or is counted as lost and found with the stranger or
/// the device. The transmitted frames agree with the history.
#[test]
fn two_drivers_endure_a_storm(rt: HostRuntime) {
    let mut sent: usize = 0;
    for seed in SEEDS {
        sent = sent.saturating_add(run_of(&rt, seed));
    }
    sees(&rt, sent > 500);
}
