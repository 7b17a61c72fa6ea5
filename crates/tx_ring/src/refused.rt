ghost use Rattle.std.specs.Prelude.{◌≡◌};
ghost use Rattle.tx_ring.specs.declared.refused.TxRefused.TheVariants.{Fault, OutOfMemory};

use dma_ring::RingFault;
use std::alloc::AllocError;

/// Why a descriptor wasn't fetched. Memory and staged bytes are unchanged.
#[derive(Clone, Copy, PartialEq, Eq, Debug)]
pub enum TxRefused {
    /// The ring or its descriptor failed this test.
    Fault(RingFault),
    /// There isn't enough memory for the bytes of the frame.
    OutOfMemory,
}

impl From<AllocError> for TxRefused {
    ghost from_gives = { λ _ e. e ≡ OutOfMemory };

    fn from(_: AllocError) -> TxRefused {
        TxRefused::OutOfMemory
    }
}
