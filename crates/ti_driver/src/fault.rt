//! Why a run has no result, and the status with which it ends.

use std::alloc::AllocError;
use thiserror::Error;
use ti_runner::RunFault;
use ti_script::ScriptFault;

/// Why a run has no result. `status` gives the status of each fault, and `put_fault` writes its text. Source: this profile.
#[derive(Clone, Copy, Debug, PartialEq, Eq, Error)]
pub enum Fault {
    /// The input is too long, or is no script. Its own `Memory` counts as `Memory`.
    #[error("{0}")]
    Script(ScriptFault),
    /// Memory ran out, or a thread could not be started.
    #[error("no memory")]
    Memory,
    /// The reader gave an error, of whatever kind, or had no end within 16,777,216 calls.
    #[error("the input was not read")]
    Read,
    /// The writer gave an error, of whatever kind, or took no byte.
    #[error("the output was not written")]
    Write,
    /// A thread's cell was still in use, or a live run's report does not fit its script.
    #[error("a cell was in use")]
    Cell,
    /// The arguments are none that the program knows.
    #[error("the arguments are not known")]
    Usage,
}

impl From<ScriptFault> for Fault {
    ghost use Rattle.std.specs.Prelude.{◌≡◌};
    ghost use Rattle.ti_driver.specs.declared.fault.Fault.TheVariants.{Script};

    ghost from_gives = { λ f e. e ≡ Script f };

    fn from(fault: ScriptFault) -> Fault {
        Fault::Script(fault)
    }
}

impl From<AllocError> for Fault {
    ghost use Rattle.std.specs.Prelude.{◌≡◌};
    ghost use Rattle.ti_driver.specs.declared.fault.Fault.TheVariants.{Memory};

    ghost from_gives = { λ _ e. e ≡ Memory };

    fn from(_refused: AllocError) -> Fault {
        Fault::Memory
    }
}

impl From<RunFault> for Fault {
    ghost use Rattle.std.specs.Prelude.{◌≡◌};
    ghost use Rattle.ti_driver.specs.Reports.{fault_of_run};

    ghost from_gives = { λ f e. e ≡ fault_of_run f };

    fn from(fault: RunFault) -> Fault {
        match fault {
            RunFault::Memory => Fault::Memory,
            RunFault::Cell => Fault::Cell,
        }
    }
}

/// The status with which the program ends at a fault. It is 2 for a script's fault and for `Usage`, and 3 if memory ran out.
/// It is 4 for `Read`, `Write` and `Cell`. Source: this profile.
pub fn status(fault: &Fault) -> u8
    ensures { result ≡ status_of fault.now }
{
    match fault {
        Fault::Script(ScriptFault::Memory) | Fault::Memory => 3,
        Fault::Script(_) | Fault::Usage => 2,
        Fault::Read | Fault::Write | Fault::Cell => 4,
    }
}

ghost use Rattle.std.specs.Prelude.{◌≡◌};
ghost use Rattle.ti_driver.specs.Faults.{status_of};
