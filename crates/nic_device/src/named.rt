//! What a register number refers to.

ghost use Rattle.std.specs.Prelude.{◌≡◌, ◌<◌};
ghost use Rattle.register_file.specs.RegTable.Place.{place_among, view_among};
ghost use Rattle.register_file.specs.RegTable.Runs.{runs};
ghost use Rattle.register_file.specs.VfMap.Laws.{IsInRange as IsLocatedInRange};
ghost use Rattle.nic_device.specs.Named.{at_place, at_location, named, IsInRange};

use crate::engine::Engine;
use crate::event::Port;
use register_file::{Located, Place, locate, resolve};

/// What a read returns at a hole (`HOLE`) and through a nonexistent virtual function (`ABSENT`).
const HOLE: u32 = 0;

const ABSENT: u32 = 0xFFFF_FFFF;

/// What a register number refers to at a port.
#[derive(Clone, Copy, PartialEq, Eq, Debug)]
pub enum Named {
    /// No register. A read returns this value.
    Nothing(u32),
    /// The place of a register, and a mask of the bits that the address shows.
    Register(Place, u32),
}

impl Engine {
    /// Returns what a register number refers to at a port.
    #[inline(always)]
    pub(crate) fn named(&self, port: Port, number: u32) -> Named
        ensures value { result ≡ named self.now port number }
        ensures in_range { IsInRange result }
    {
        match port {
            Port::Pf => at_address(number),
            Port::Vf(v) => at_location(locate(self.mode(), self.config.vfs, v, number)),
        }
    }
}

/// Returns what an address of the physical function refers to.
#[inline(always)]
fn at_address(address: u32) -> Named
    ensures value { result ≡ at_place (place_among runs address) (view_among runs address) }
    ensures in_range { IsInRange result }
{
    match resolve(address) {
        Some(access) => Named::Register(access.place, access.view),
        None => Named::Nothing(HOLE),
    }
}

/// Returns what an offset of a virtual function refers to, given where the map locates the offset.
#[inline(always)]
fn at_location(located: Located) -> Named
    requires { IsLocatedInRange located }
    ensures value { result ≡ at_location located }
    ensures in_range { IsInRange result }
{
    match located {
        Located::Absent => Named::Nothing(ABSENT),
        Located::Hole => Named::Nothing(HOLE),
        Located::Register(place) => Named::Register(place, 0xFFFF_FFFF),
    }
}
