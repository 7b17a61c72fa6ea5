//! What a driver author can rely on. Each law is the contract of a function that does nothing.

ghost use Rattle.rx_filter.specs.Laws.{FieldsStandAtTheirBits, BroadcastIsAllOnes, BroadcastIsLetIn, MulticastIsLetIn, UnicastIsLetIn, FilteredIsNotLetIn, ResetRefusesAll, SingleIsQueue0, OffPoolsGetNone, PoolOfAFrame, QueuesByMode, PoolsBeyondGetNone, FunctionsGetTheirs};

/// Each field of the registers is at the datasheet's bits: MPE, UPE and BAM of FCTRL, MO and MFE of MCSTCTRL, AV of
/// RAH, VT_ENA, DEF_PL and DIS_DEF_POOL of VT_CTL, and PCSD of RXCSUM.
pub fn fields_stand_at_their_bits()
    ensures { FieldsStandAtTheirBits }
{}

/// A broadcast frame (all six destination bytes are 0xFF) is accepted if and only if FCTRL BAM or MPE is 1.
pub fn broadcast_is_let_in()
    ensures destination { BroadcastIsAllOnes }
    ensures exact { BroadcastIsLetIn }
{}

/// A multicast frame other than a broadcast is accepted if and only if one of these holds: FCTRL MPE is 1; a valid
/// receive address equals the frame's destination; MCSTCTRL MFE and the destination's bit in MTA are both 1.
pub fn multicast_is_let_in()
    ensures { MulticastIsLetIn }
{}

/// A unicast frame is accepted if and only if FCTRL UPE is 1 or a valid receive address equals the frame's destination.
pub fn unicast_is_let_in()
    ensures { UnicastIsLetIn }
{}

/// A frame is dropped for the reason `Filter` if and only if its destination isn't accepted.
pub fn filtered_is_not_let_in()
    ensures { FilteredIsNotLetIn }
{}

/// After a reset no frame is accepted.
pub fn reset_refuses_all()
    ensures { ResetRefusesAll }
{}

/// If VT_CTL bit 0 is 0 (no pools) and MRQC has the code for a single queue, each accepted frame goes to queue 0 with
/// RSS type 0 and hash 0.
pub fn single_queue_is_queue_0()
    ensures { SingleIsQueue0 }
{}

/// The premises: VT_CTL bit 0 is 1, and MRQC has a code that gives pools their own queues. A queue receives frames only
/// while reception is enabled in VFRE for the queue's pool.
pub fn off_pools_get_none()
    ensures { OffPoolsGetNone }
{}

/// A frame's pool is the lowest pool of the first receive address that equals the frame's destination. If there is no
/// such pool, the frame's pool is the default pool, if any.
pub fn pool_is_the_lowest_of_the_first_match()
    ensures { PoolOfAFrame }
{}

/// While VT_CTL bit 0 is 1, an accepted frame for a pool without queues is dropped for the reason `NoPool`. If GCR_EXT
/// selects 16 pools and MRQC has a code for pools, the pools above 15 have no queues. If GCR_EXT doesn't select 16
/// pools and MRQC has the code for 32 pools, the pools above 31 have no queues.
pub fn pools_beyond_get_none()
    ensures { PoolsBeyondGetNone }
{}

/// The premises: GCR_EXT selects 16 pools, VT_CTL bit 0 is 1, and MRQC has a code for pools. A frame reaches only
/// queues that belong to the virtual function of the frame's pool.
pub fn functions_get_theirs()
    ensures { FunctionsGetTheirs }
{}

/// The queue that receives a frame depends on the mode. With MRQC's code for hashing alone, the queue is the frame's
/// entry. The entry is bits 3 to 0 of the RETA byte that the low seven bits of the frame's hash select, or 0 if the
/// frame's RSS type is 0. If VT_CTL bit 0 is 1 and MRQC has a code for pools, the queue belongs to the frame's pool p.
/// If GCR_EXT selects 16 pools, the queue is 8p + entry mod 8 with hashing, and 8p without hashing. Otherwise, the
/// queue is 4p + entry mod 4 with 32 pools, 2p + entry mod 2 with 64 pools and hashing, and 2p with 64 pools alone.
pub fn queue_is_by_the_mode()
    ensures { QueuesByMode }
{}
