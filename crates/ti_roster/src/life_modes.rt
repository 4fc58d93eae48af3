//! Which events of threads' lives an agent is told.

use crate::life_event::{LifeEvent, LifeKind};

/// Which kinds of events of threads' lives an agent is told, and from which event on.
#[derive(Clone, Copy, Debug, PartialEq, Eq)]
pub struct LifeModes {
    /// The index from which on the agent looks next: it was told all before, or is never told them.
    pub next: u64,
    /// The index of the first ThreadAttached that it may be told. `None` while they are disabled. So for each kind.
    pub attached: Option<u64>,
    pub start: Option<u64>,
    pub end: Option<u64>,
    pub detached: Option<u64>,
}

impl LifeModes {
    /// All kinds are disabled.
    pub fn new() -> LifeModes
        ensures { result ≡ no_modes }
    {
        LifeModes {
            next: 0,
            attached: None,
            start: None,
            end: None,
            detached: None,
        }
    }

    /// From which index on events of a kind are told. `None` while the kind is disabled.
    pub fn since(&self, kind: LifeKind) -> Option<u64>
        ensures { result ≡ since self.now kind }
    {
        match kind {
            LifeKind::ThreadAttached => self.attached,
            LifeKind::ThreadStart => self.start,
            LifeKind::ThreadEnd => self.end,
            LifeKind::ThreadDetached => self.detached,
        }
    }

    /// Events of a kind are told from this index on, or not at all.
    pub fn set(&mut self, kind: LifeKind, index: Option<u64>)
        ensures { self.new ≡ with_since self.old kind index }
    {
        match kind {
            LifeKind::ThreadAttached => self.attached = index,
            LifeKind::ThreadStart => self.start = index,
            LifeKind::ThreadEnd => self.end = index,
            LifeKind::ThreadDetached => self.detached = index,
        }
    }

    /// The index of the first event that may be told. `None` while all kinds are disabled.
    pub fn first(&self) -> Option<u64>
        ensures { result ≡ first_index self.now }
    {
        let first = earlier(
            earlier(self.attached, self.start),
            earlier(self.end, self.detached),
        )?;
        Some(if first < self.next { self.next } else { first })
    }

    /// Whether an event with this index is told.
    pub(crate) fn tells(&self, index: u64, event: LifeEvent) -> bool
        ensures { result ≡ tells self.now index event }
    {
        match self.since(event.kind) {
            Some(since) => since <= index,
            None => false,
        }
    }
}

/// The lower of two indices, so far as there are any.
fn earlier(a: Option<u64>, b: Option<u64>) -> Option<u64>
    ensures { result ≡ earlier_of a b }
{
    match (a, b) {
        (Some(a), Some(b)) => Some(if b < a { b } else { a }),
        (Some(a), None) => Some(a),
        (None, b) => b,
    }
}

ghost use Rattle.std.specs.Prelude.{◌≡◌};
ghost use Rattle.ti_roster.specs.Modes.{earlier_of, first_index, no_modes, since, tells, with_since};
