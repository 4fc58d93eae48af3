//! What a session waits for.

use crate::stopping::Spot;
use ti_jdwp::Request;

/// What a session waits for, and its agent owes it.
#[derive(Clone, Copy)]
pub(crate) enum Due {
    /// The reply to a request.
    Answer(Request),
    /// The list of threads that are alive.
    List,
    /// The suspension of a thread.
    Post(u32),
    /// That suspensions stand.
    Settle,
    /// A breakpoint.
    Place(Spot),
    /// Where a thread stands that is to step.
    Locate(u32),
}
