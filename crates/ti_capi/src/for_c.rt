//! How the items of lists are written for C.

use crate::class_values::{CqLineEntry, line_out};
use crate::values::{CqFrame, frame_out};
use ti_service::{ClassNo, LineEntry};
use ti_types::{Frame, MethodNo, ThreadNo};

/// An item that is written for C as a `U`.
pub(crate) trait ForC<U> {
    ghost written: { Self → U };

    /// What is written of it.
    fn for_c(&self) -> U
        ensures { result ≡ written self.now };
}

impl ForC<u32> for ThreadNo {
    ghost written = { λ t. t.0 };

    fn for_c(&self) -> u32 {
        self.0
    }
}

impl ForC<u32> for MethodNo {
    ghost written = { λ m. m.0 };

    fn for_c(&self) -> u32 {
        self.0
    }
}

impl ForC<u32> for ClassNo {
    ghost written = { λ c. c.0 };

    fn for_c(&self) -> u32 {
        self.0
    }
}

impl ForC<CqFrame> for Frame {
    ghost written = { frame_written };

    fn for_c(&self) -> CqFrame {
        frame_out(*self)
    }
}

impl ForC<CqLineEntry> for LineEntry {
    ghost written = { line_written };

    fn for_c(&self) -> CqLineEntry {
        line_out(*self)
    }
}

ghost use Rattle.std.specs.Prelude.{◌≡◌};
ghost use Rattle.ti_capi.specs.Defining.{line_written};
ghost use Rattle.ti_capi.specs.Values.{frame_written};
