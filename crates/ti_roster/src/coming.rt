//! What happens to a service's threads and environments as a whole.
use crate::newcomer::Newcomer;
use ti_stops::StopCall;
use ti_types::{EnvNo, ThreadNo};

/// A thread or an environment comes or goes, an environment meets the threads that came, or something changes about stops.
#[derive(Drop)]
pub enum Coming {
    /// A thread is attached.
    Came(Newcomer),
    /// A thread has started.
    Started(ThreadNo),
    /// A thread has ended.
    Ended(ThreadNo),
    /// A thread was given back.
    Left(ThreadNo),
    /// An environment is attached, and has taken no desk yet.
    Attached(EnvNo),
    /// An environment has taken its desks at the threads whose numbers are below this one.
    Met(EnvNo, u32),
    /// An environment that leaves has given its desk at a thread back.
    GaveBack(EnvNo, ThreadNo),
    /// An environment is disposed of, and its number is free.
    Disposed(EnvNo),
    /// An environment, or a runtime's handle, made a call about stops that changed something.
    Stop(Option<EnvNo>, StopCall),
}
