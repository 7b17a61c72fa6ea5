//! Why a worker ends early.

ghost use Rattle.std.specs.Prelude.{◌≡◌};
ghost use Rattle.pmd.specs.declared.fault.WorkerFault.TheVariants.{Pmd};

use pmd_driver::PmdFault;

/// Why a worker ended early.
#[derive(Debug, Drop)]
pub enum WorkerFault {
    /// A call to the worker's driver failed.
    Pmd(PmdFault),
    /// The gate was shut to the worker.
    GateShut,
    /// No thread could be created for the worker.
    NoThread,
}

impl From<PmdFault> for WorkerFault {
    ghost from_gives = { λ fault reported. reported ≡ Pmd fault };

    fn from(fault: PmdFault) -> WorkerFault {
        WorkerFault::Pmd(fault)
    }
}
