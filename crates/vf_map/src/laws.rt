//! Laws about the map from virtual functions' offsets to registers. Each law is the contract of a function with an
//! empty body.

ghost use Rattle.vf_map.specs.Laws.{OffsetsHaveOneRegister, AddressesReadBack, RegistersAreThePools, FunctionsAreApart, AddressesAreAligned, PoolsAreApart, EachQueueHasOnePool, QueueRegistersAreThere, PoolIsWhereTheQueueIs};

/// No offset of a virtual function is listed twice.
pub fn offsets_have_one_register()
    ensures { OffsetsHaveOneRegister }
{}

/// If an offset reaches a register, the offset is mapped to an address of that register, and this address shows all
/// bits of the register's word.
pub fn addresses_read_back()
    ensures { AddressesReadBack }
{}

/// A register that a virtual function reaches belongs to that function's pool, or is STATUS or LINKS.
pub fn registers_are_the_pools()
    ensures { RegistersAreThePools }
{}

/// A register that two virtual functions reach in the same mode is STATUS or LINKS.
pub fn functions_are_apart()
    ensures { FunctionsAreApart }
{}

/// Offsets that reach a register, and the addresses that they are mapped to, are multiples of 4.
pub fn addresses_are_aligned()
    ensures { AddressesAreAligned }
{}

/// No two pools have a queue in common, and every queue of a pool is below 128.
pub fn pools_are_apart()
    ensures { PoolsAreApart }
{}

/// In a mode with pools, each of the 128 queues belongs to exactly one pool.
pub fn each_queue_has_one_pool()
    ensures { EachQueueHasOnePool }
{}

/// The offsets of a queue's registers depend on the queue's index `x` among the function's queues. The receive
/// registers start at 0x1000 + 0x40 * x and the transmit registers at 0x2000 + 0x40 * x, with the same distances
/// between registers as in the device. Each pair of queues has one vector register: the register for pair `y` is at
/// 0x120 + 4 * y.
pub fn queue_registers_are_there()
    ensures { QueueRegistersAreThere }
{}

/// `pool_of` returns pool v for a queue if and only if the range of queues that `queues_of` returns for v contains the
/// queue.
pub fn pool_is_where_the_queue_is()
    ensures { PoolIsWhereTheQueueIs }
{}
