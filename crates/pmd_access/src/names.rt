//! The numbers of a queue's registers at a port.

ghost use Rattle.std.specs.Prelude.{◌≡◌, ◌+◌, ◌*◌, ◌<◌, ◌↔◌, true, IfSome, IsNone};
ghost use Rattle.pmd_access.specs.Setup.{IsAddressOf};
ghost use Rattle.pmd_access.specs.Named.{CanName, IsNumberOf, IsDriven, is_driven, offset_of};
ghost use Rattle.device_lock.specs.NicDevice.RegisterFile.Queue.{tail_row};

use device_lock::{Dir, Place, Port, QUEUES, RowId, addr_of};
use std::marker::Model;

/// The number of queues that a virtual function's register offsets have room for.
const OWN_QUEUES: u16 = 64;

/// The offset of the receive side of a virtual function's first queue. The transmit side starts at twice this offset.
const SIDE: u32 = 0x1000;

/// The size in bytes of the offset range of one side of a queue.
const QUEUE: u32 = 0x40;

/// A queue that a port can address.
#[derive(Debug, Drop)]
pub struct Queue {
    port: Port,
    queue: u16,
}

impl Model for Queue {
    ghost use Rattle.pmd_access.specs.Named.{AtPort, CanName};

    ghost Value = { AtPort };

    ghost view = { λ q. record { port = q.port; queue = q.queue } };

    ghost invariant = { λ q. CanName (record { port = q.port; queue = q.queue }) };
}

impl Queue {
    /// Returns the queue with this number at a port. Through the physical function, this is one of the device's 128
    /// queues; through a virtual function, one of the function's own queues. Returns `None` if the port can't address
    /// the queue: the number is 128 or more at the physical function, or 64 or more at a virtual function.
    pub fn new(port: Port, queue: u16) -> Option<Queue>
        ensures some { IfSome result (λ q. q ≡ record { port = port; queue = queue }) }
        ensures none { IsNone result ↔ ¬ CanName (record { port = port; queue = queue }) }
    {
        let named = match port {
            Port::Pf => QUEUES,
            Port::Vf(_) => OWN_QUEUES,
        };
        if queue < named {
            Some(Queue { port, queue })
        } else {
            None
        }
    }

    /// Returns the port through which the queue is reached: the physical function or a virtual function.
    pub fn port(&self) -> Port
        ensures { result ≡ self.now.port }
    {
        self.port
    }

    /// Returns the queue's number at the port.
    pub fn queue(&self) -> u16
        ensures { result ≡ self.now.queue }
    {
        self.queue
    }

    /// Returns the number of a side's tail register at the port.
    pub fn tail_number(&self, side: Dir) -> u32
        ensures { IsNumberOf self.now.port (tail_row side) self.now.queue result }
    {
        match side {
            Dir::Rx => self.number_of(RowId::Rdt),
            Dir::Tx => self.number_of(RowId::Tdt),
        }
    }

    /// Returns the number of one of the queue's registers at the port.
    pub(crate) fn number_of(&self, row: RowId) -> u32
        requires { IsDriven row }
        ensures { IsNumberOf self.now.port row self.now.queue result }
    {
        match self.port {
            Port::Pf => addr_of(Place {
                row,
                index: self.queue,
            }),
            Port::Vf(_) => offset_of(row, self.queue),
        }
    }
}

/// Returns the offset of a register that belongs to a virtual function's own queue.
#[rattlefmt::skip]
fn offset_of(row: RowId, queue: u16) -> u32
    requires driven { is_driven row ≡ true }
    requires own { queue < 64 }
    ensures { result ≡ offset_of row queue }
{
    let start = QUEUE * u32::from(queue);
    match row {
        RowId::Rdbal  => start + SIDE,
        RowId::Rdbah  => start + SIDE + 0x04,
        RowId::Rdlen  => start + SIDE + 0x08,
        RowId::Rdh    => start + SIDE + 0x10,
        RowId::Srrctl => start + SIDE + 0x14,
        RowId::Rdt    => start + SIDE + 0x18,
        RowId::Rxdctl => start + SIDE + 0x28,
        RowId::Tdbal  => start + 2 * SIDE,
        RowId::Tdbah  => start + 2 * SIDE + 0x04,
        RowId::Tdlen  => start + 2 * SIDE + 0x08,
        RowId::Tdh    => start + 2 * SIDE + 0x10,
        RowId::Tdt    => start + 2 * SIDE + 0x18,
        RowId::Txdctl => start + 2 * SIDE + 0x28,
        RowId::Tdwbal => start + 2 * SIDE + 0x38,
        _ => unreachable!(),
    }
}
