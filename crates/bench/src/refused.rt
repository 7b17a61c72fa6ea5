//! Why a run prints no summary.

ghost use Rattle.std.specs.Prelude.{◌≡◌, ◌↔◌};
ghost use Rattle.bench.specs.Refused.{both_done, status_of};

use bench_commands::{FAILED, NO_MEMORY};
use pmd::{CallFault, CloseFault, NewFault, PmdFault, RunFault, WorkerFault};
use std::alloc::AllocError;

/// Why a run prints no summary.
#[derive(Clone, Copy, PartialEq, Eq, Debug)]
pub(crate) enum Refused {
    /// Memory ran out.
    OutOfMemory,
    /// A refusal for any other reason.
    Other,
}

impl Refused {
    /// Returns the exit status after this refusal.
    pub(crate) fn status(self) -> u8
        ensures { result ≡ status_of self }
    {
        match self {
            Refused::OutOfMemory => NO_MEMORY,
            Refused::Other => FAILED,
        }
    }
}

/// Combines two results. The combined result is done if both are done. Otherwise it is refused, for lack of memory if
/// either was refused for that reason.
pub(crate) fn both(first: Result<(), Refused>, second: Result<(), Refused>) -> Result<(), Refused>
    ensures { result ≡ both_done first second }
{
    match (first, second) {
        (Ok(()), second) => second,
        (Err(Refused::OutOfMemory), _) => Err(Refused::OutOfMemory),
        (Err(Refused::Other), Err(Refused::OutOfMemory)) => Err(Refused::OutOfMemory),
        (Err(Refused::Other), _) => Err(Refused::Other),
    }
}

impl From<AllocError> for Refused {
    ghost use Rattle.bench.specs.declared.refused.Refused.TheVariants.{OutOfMemory};

    ghost from_gives = { λ _ refused. refused ≡ OutOfMemory };

    fn from(_refused: AllocError) -> Refused {
        Refused::OutOfMemory
    }
}

impl From<NewFault> for Refused {
    ghost use Rattle.pmd.specs.DeviceLock.declared.fault.NewFault.{NewFault};
    ghost use Rattle.bench.specs.declared.refused.Refused.TheVariants.{OutOfMemory};

    ghost from_gives = { λ fault refused. (refused ≡ OutOfMemory) ↔ (fault ≡ NewFault.OutOfMemory) };

    fn from(fault: NewFault) -> Refused {
        match fault {
            NewFault::OutOfMemory => Refused::OutOfMemory,
            NewFault::Passes | NewFault::Limit => Refused::Other,
        }
    }
}

impl From<CloseFault> for Refused {
    ghost use Rattle.pmd.specs.DeviceLock.declared.fault.CloseFault.{CloseFault};
    ghost use Rattle.bench.specs.declared.refused.Refused.TheVariants.{OutOfMemory};

    ghost from_gives = { λ fault refused. (refused ≡ OutOfMemory) ↔ (fault ≡ CloseFault.OutOfMemory) };

    fn from(fault: CloseFault) -> Refused {
        match fault {
            CloseFault::OutOfMemory => Refused::OutOfMemory,
            CloseFault::MissingPass(_) | CloseFault::ForeignPass | CloseFault::Mismatch(_) =>
                Refused::Other,
        }
    }
}

impl From<PmdFault> for Refused {
    ghost use Rattle.pmd.specs.DeviceLock.declared.fault.CallFault.{CallFault};
    ghost use Rattle.pmd.specs.PmdAccess.declared.fault.PmdFault.{PmdFault};
    ghost use Rattle.bench.specs.declared.refused.Refused.TheVariants.{OutOfMemory};

    ghost from_gives = { λ fault refused. (refused ≡ OutOfMemory)
        ↔ (fault ≡ PmdFault.Call (CallFault.OutOfMemory tt)) };

    fn from(fault: PmdFault) -> Refused {
        match fault {
            PmdFault::Call(CallFault::OutOfMemory(())) => Refused::OutOfMemory,
            PmdFault::Call(CallFault::ForeignPass(()) | CallFault::HistoryFull(()))
            | PmdFault::BadSize
            | PmdFault::ForeignBlock
            | PmdFault::StartTimeout
            | PmdFault::NoBuffer
            | PmdFault::DeviceFault => Refused::Other,
        }
    }
}

impl From<WorkerFault> for Refused {
    ghost use Rattle.pmd.specs.DeviceLock.declared.fault.CallFault.{CallFault};
    ghost use Rattle.pmd.specs.PmdAccess.declared.fault.PmdFault.{PmdFault};
    ghost use Rattle.pmd.specs.declared.WorkerFault.{WorkerFault};
    ghost use Rattle.bench.specs.declared.refused.Refused.TheVariants.{OutOfMemory};

    ghost from_gives = { λ fault refused. (refused ≡ OutOfMemory)
        ↔ (fault ≡ WorkerFault.Pmd (PmdFault.Call (CallFault.OutOfMemory tt))) };

    fn from(fault: WorkerFault) -> Refused {
        match fault {
            WorkerFault::Pmd(fault) => Refused::from(fault),
            WorkerFault::GateShut | WorkerFault::NoThread => Refused::Other,
        }
    }
}

impl From<RunFault> for Refused {
    ghost use Rattle.pmd.specs.declared.ends.RunFault.{RunFault};
    ghost use Rattle.bench.specs.declared.refused.Refused.TheVariants.{OutOfMemory};

    ghost from_gives = { λ fault refused. (refused ≡ OutOfMemory) ↔ (fault ≡ RunFault.OutOfMemory) };

    fn from(fault: RunFault) -> Refused {
        match fault {
            RunFault::OutOfMemory => Refused::OutOfMemory,
            RunFault::NoJobs | RunFault::Overlap(_) => Refused::Other,
        }
    }
}
