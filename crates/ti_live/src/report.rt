//! The script and the report of a live run.
use crate::call::AgentCall;
use crate::listed::Listed;
use crate::reply::Reply;
use ti_types::{Entry, Event, Limits};

/// The script of a live run (this profile).
#[derive(Drop, Debug)]
pub struct Script {
    pub limits: Limits,
    /// For each thread its operations, in their order, as events of that thread.
    pub walks: Listed<Listed<Event>>,
    /// For each agent its calls, in their order.
    pub calls: Listed<Listed<AgentCall>>,
}

/// A refused operation of a thread.
#[derive(Clone, Copy, Debug, PartialEq, Eq)]
pub struct Refusal {
    /// Its place in the thread's walk, counted from 0.
    pub operation: u32,
    /// The number of the error (`TiError::number`).
    pub error: u32,
}

/// The report of a live run (this profile).
#[derive(Drop, Debug)]
pub struct LiveReport {
    /// For each agent a reply for each call that it made, in their order.
    pub replies: Listed<Listed<Reply>>,
    /// For each thread its refused operations, in their order.
    pub refused: Listed<Listed<Refusal>>,
    /// For each thread the history with which its cell was closed.
    pub histories: Listed<Listed<Entry>>,
    /// Whether a gate ended a thread's or an agent's list early.
    pub spent: bool,
}
