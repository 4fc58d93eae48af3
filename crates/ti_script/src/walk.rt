//! The walk that a document says.

use crate::names::Names;
use ti_live::Listed;
use ti_types::{Event, Limits};

/// Events in their order. Contracts see them as a list.
pub type EventList = Listed<Event>;

/// A walk: the limits of its core, the names of its threads, agents and methods, and its events in their order. The limits
/// have as many threads and environments as there are names of threads and agents. Source: this profile.
#[derive(Drop)]
pub struct Walk {
    pub limits: Limits,
    pub threads: Names,
    pub agents: Names,
    pub methods: Names,
    pub events: EventList,
}
