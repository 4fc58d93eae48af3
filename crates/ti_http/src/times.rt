//! How long a connection waits.

/// Milliseconds from the first byte of a head to its end.
pub const HEAD_MILLIS: u64 = 5_000;

/// Milliseconds between two requests.
pub const IDLE_MILLIS: u64 = 30_000;

/// Milliseconds without a byte of an answer taken.
pub const WRITE_MILLIS: u64 = 10_000;
