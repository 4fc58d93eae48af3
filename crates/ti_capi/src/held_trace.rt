//! A trace that C keeps while it is made.

use std::marker::Model;
use std::mem::ManuallyDrop;
use ti_service::Gathering;

/// A trace behind a handle. A `Gathering` has to be brought to its end, and only C can do that. If C never does, the trace
/// stays as it is, with the threads that it has stopped. Contracts see it as the trace.
#[derive(Drop)]
pub struct HeldTrace {
    trace: ManuallyDrop<Gathering>,
}

impl Model for HeldTrace {
    ghost use Rattle.core.specs.Mem.{manually_drop_value};
    ghost use Rattle.ti_service.specs.Memberships.{TraceValue};

    ghost Value = { TraceValue };

    ghost view = { λ h. manually_drop_value h.trace };
}

impl HeldTrace {
    pub fn of(trace: Gathering) -> HeldTrace
        ensures { result ≡ trace }
    {
        HeldTrace {
            trace: unsafe { ManuallyDrop::new_unchecked(trace) },
        }
    }

    pub fn into_trace(self) -> Gathering
        ensures { result ≡ self }
    {
        ManuallyDrop::into_inner(self.trace)
    }
}

ghost use Rattle.std.specs.Prelude.{◌≡◌};
