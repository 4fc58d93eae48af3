//! What has become of a call.
use ti_types::Answer;

/// What has become of a call that an environment asked of a thread. It is for contracts: `PendingOps` keeps it in another
/// form.
#[derive(Drop, Debug)]
pub enum CallStatus {
    /// The call is not answered yet.
    Waiting,
    /// The call was answered later, and the answer is there to be collected.
    Answered(Answer),
    /// Nothing is left: the call was answered at once, or its answer was collected.
    Gone,
}
