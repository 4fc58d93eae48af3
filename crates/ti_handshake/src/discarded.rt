//! An answer that was discarded.

use ti_types::{Answer, Ticket};

/// The answer to a call that was cancelled, when it was discarded.
#[derive(Drop)]
pub struct Discarded {
    /// Which call it was.
    pub ticket: Ticket,
    /// What came of it.
    pub answer: Answer,
}
