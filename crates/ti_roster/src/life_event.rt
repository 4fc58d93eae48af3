//! The events of threads' lives, as an agent is told them.
use ti_types::ThreadNo;

/// Which event of a thread's life it is.
#[derive(Clone, Copy, Debug, PartialEq, Eq)]
pub enum LifeKind {
    /// This profile: the thread was attached. It has not started.
    ThreadAttached,
    /// ThreadStart (JVM TI 11): the thread has started.
    ThreadStart,
    /// ThreadEnd (JVM TI 11): the thread has ended.
    ThreadEnd,
    /// This profile: the thread was given back.
    ThreadDetached,
}

/// One event of a thread's life.
#[derive(Clone, Copy, Debug, PartialEq, Eq)]
pub struct LifeEvent {
    pub kind: LifeKind,
    pub thread: ThreadNo,
}

/// An event of a thread's life, with its index. The first event of all has the index 0.
#[derive(Clone, Copy, Debug, PartialEq, Eq)]
pub struct LifeAt {
    pub index: u64,
    pub event: LifeEvent,
}

/// The next event of a thread's life that an agent is told.
#[derive(Clone, Copy, Debug, PartialEq, Eq)]
pub struct NextLife {
    pub event: LifeEvent,
    /// How many events, of any kind, were lost before it, since the agent last looked.
    pub lost: u64,
}

/// What an agent is told of threads' lives.
#[derive(Clone, Copy, Debug, PartialEq, Eq)]
pub struct ToldLife {
    /// `None` if no event that it is to be told has happened yet.
    pub told: Option<NextLife>,
    /// The index from which on the agent looks next.
    pub next: u64,
}
