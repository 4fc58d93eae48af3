//! The events that an agent is told, and their kinds.

use ti_methods::ClassNo;
use ti_roster::{LifeEvent, LifeKind, LifeModes};

/// A kind of event.
#[derive(Clone, Copy, Debug, PartialEq, Eq)]
pub enum EventKind {
    /// ThreadStart (JVM TI 11): a thread has started (`Service::start_thread`).
    ThreadStart,
    /// ThreadEnd (JVM TI 11): a thread has ended (`Service::end_thread`), or was given back when it was alive.
    ThreadEnd,
    /// ClassPrepare (JVM TI 11): a class was defined (`Service::define_class`).
    ClassPrepare,
    /// This profile: a thread was attached (`Service::attach_thread`). It has not started.
    ThreadAttached,
    /// This profile: a thread was given back (`Service::detach_thread`, `withdraw_thread`).
    ThreadDetached,
}

impl EventKind {
    /// The event of a thread's life of which this is the kind, if it is one's.
    pub(crate) fn life(self) -> Option<LifeKind>
        ensures { result ≡ life_kind self }
    {
        match self {
            EventKind::ThreadStart => Some(LifeKind::ThreadStart),
            EventKind::ThreadEnd => Some(LifeKind::ThreadEnd),
            EventKind::ClassPrepare => None,
            EventKind::ThreadAttached => Some(LifeKind::ThreadAttached),
            EventKind::ThreadDetached => Some(LifeKind::ThreadDetached),
        }
    }
}

/// An event.
#[derive(Clone, Copy, Debug, PartialEq, Eq)]
pub enum Event {
    /// What has become of a thread.
    Life(LifeEvent),
    /// A class was defined under this number.
    ClassPrepare(ClassNo),
}

/// The next event that an agent is told.
#[derive(Clone, Copy, Debug, PartialEq, Eq)]
pub struct NextEvent {
    pub event: Event,
    /// How many events of threads were lost before it, since the agent last looked. They may have been of any kind.
    pub lost: u64,
}

/// Which kinds of events an agent is told, and from when on.
#[derive(Clone, Copy, Debug, PartialEq, Eq)]
pub(crate) struct EventModes {
    pub(crate) life: LifeModes,
    /// The number of the next class that it is told of. `None` while ClassPrepare is disabled.
    pub(crate) class: Option<u32>,
}

impl EventModes {
    /// All kinds are disabled.
    pub(crate) fn new() -> EventModes
        ensures { result ≡ no_events }
    {
        EventModes {
            life: LifeModes::new(),
            class: None,
        }
    }

    /// Whether a kind is enabled.
    pub(crate) fn is_enabled(&self, kind: EventKind) -> bool
        ensures { result ≡ is_enabled self.now kind }
    {
        match kind.life() {
            Some(kind) => self.life.since(kind).is_some(),
            None => self.class.is_some(),
        }
    }

    /// Disables a kind.
    pub(crate) fn disable(&mut self, kind: EventKind)
        ensures { self.new ≡ without self.old kind }
    {
        match kind.life() {
            Some(kind) => self.life.set(kind, None),
            None => self.class = None,
        }
    }

    /// Whether any kind is enabled.
    pub(crate) fn is_any_enabled(&self) -> bool {
        self.class.is_some() || self.life.first().is_some()
    }
}

ghost use Rattle.std.specs.Prelude.{◌≡◌};
ghost use Rattle.ti_service.specs.Telling.{is_enabled, life_kind, no_events, without};
