//! What a call that is asked gives at once: an answer, or a ticket.
use ti_types::{Answer, Ticket};

/// What a call that is asked gives at once.
#[derive(Drop, Debug)]
pub enum Asked {
    /// The thread's answer.
    Answered(Answer),
    /// The ticket by which the answer is collected, once the thread has handed over or ended.
    Waiting(Ticket),
}
