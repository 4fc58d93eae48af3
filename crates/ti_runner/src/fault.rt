//! Why a live run gives no report.
use std::alloc::{AllocError, AllocFailed};
use ti_types::TiError;

/// Why a live run gives no report.
#[derive(Clone, Copy, Debug, PartialEq, Eq)]
pub enum RunFault {
    /// Memory ran out, or a thread could not be started.
    Memory,
    /// The script's limits do not keep histories, or do not fit the number of its lists. Or a cell could not be closed at
    /// the end, or the report does not fit the script.
    Cell,
}

impl From<AllocError> for RunFault {
    fn from(_: AllocError) -> Self {
        RunFault::Memory
    }
}

impl<T: Drop> From<AllocFailed<T>> for RunFault {
    fn from(_: AllocFailed<T>) -> Self {
        RunFault::Memory
    }
}

impl From<TiError> for RunFault {
    fn from(_: TiError) -> Self {
        RunFault::Memory
    }
}
