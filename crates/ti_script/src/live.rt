//! The live script that a document says.
use crate::names::Names;
use ti_live::{AgentCall, Listed};
use ti_types::{Event, Limits};

/// A live script: the limits, and the names of its threads, agents and methods. For each thread it has the operations, as
/// events of that thread, and for each agent the calls.
///
/// The limits have as many threads and environments as there are names of threads and agents. There are as many lists of
/// each. Source: this profile.
#[derive(Drop)]
pub struct Live {
    pub limits: Limits,
    pub threads: Names,
    pub agents: Names,
    pub methods: Names,
    pub walks: Listed<Listed<Event>>,
    pub calls: Listed<Listed<AgentCall>>,
}
