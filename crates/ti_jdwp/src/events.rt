//! The events that wait to be told, and when they may be.

use crate::notice::Notice;
use std::alloc::Global;
use std::collections::VecDeque;
use std::marker::Model;

/// Events that wait, at most.
const MAX_WAITING: usize = 4096;

/// The events that wait, in the order in which they came. None goes out while the debugger holds events, and none after an
/// event that stopped all threads until all are resumed. Contracts see a `Queue`.
#[derive(Drop)]
pub(crate) struct Events {
    waiting: VecDeque<Notice>,
    lost: u64,
    held: bool,
    stopped: bool,
}

impl Model for Events {
    ghost use Rattle.std.specs.Prelude.{◌≤◌, length};
    ghost use Rattle.ti_jdwp.specs.Queues.{Queue};

    ghost Value = { Queue };

    ghost view = { λ e. record { waiting = e.waiting.items; lost = e.lost; held = e.held; stopped = e.stopped } };

    ghost invariant = { λ e. length e.waiting.items ≤ 4096 };
}

impl Events {
    /// No event waits, and events may go out. It takes no memory yet.
    pub(crate) fn new(alloc: Global) -> Events
        ensures { result ≡ no_events }
    {
        Events {
            waiting: VecDeque::new(alloc),
            lost: 0,
            held: false,
            stopped: false,
        }
    }

    /// How many events were lost, since 4,096 waited or there was no memory. It stays at 2^64 - 1.
    pub(crate) fn lost(&self) -> u64
        ensures { result ≡ self.now.lost }
    {
        self.lost
    }

    /// How many events wait, at most 4,096.
    pub(crate) fn count(&self) -> usize
        ensures count { result ≡ length self.now.waiting }
        ensures bound { result ≤ 4096 }
    {
        self.waiting.len()
    }

    /// Notes an event, if fewer than 4,096 wait and there is memory. It gives whether the event waits now; else it is lost.
    pub(crate) fn note(&mut self, notice: Notice) -> bool
        ensures noted { self.new ≡ (if result then with_event self.old notice else with_loss self.old) }
        ensures full { 4096 ≤ length self.old.waiting → result ≡ false }
    {
        if self.waiting.len() < MAX_WAITING && self.waiting.push_back(notice).is_ok() {
            return true;
        }
        self.lose();
        false
    }

    /// Counts an event that is lost.
    pub(crate) fn lose(&mut self)
        ensures { self.new ≡ with_loss self.old }
    {
        self.lost = self.lost.saturating_add(1);
    }

    /// Whether an event may go out.
    pub(crate) fn may_tell(&self) -> bool
        ensures { result ≡ may_tell self.now }
    {
        !self.held && !self.stopped
    }

    /// Takes the event that waits longest, if events may go out.
    pub(crate) fn take(&mut self) -> Option<Notice>
        ensures result { result ≡ (if may_tell self.old then first self.old.waiting else None) }
        ensures none { IfNone result (self.new ≡ self.old) }
        ensures left { self.new ≡ (if may_tell self.old then without_first self.old else self.old) }
    {
        if !self.may_tell() {
            return None;
        }
        self.waiting.pop_front()
    }

    /// An event stops all threads: no event goes out any more.
    pub(crate) fn stop(&mut self)
        ensures { self.new ≡ record self.old { stopped = true } }
    {
        self.stopped = true;
    }

    /// All threads are resumed.
    pub(crate) fn resume(&mut self)
        ensures { self.new ≡ record self.old { stopped = false } }
    {
        self.stopped = false;
    }

    /// The debugger holds all events.
    pub(crate) fn hold(&mut self)
        ensures { self.new ≡ record self.old { held = true } }
    {
        self.held = true;
    }

    /// The debugger takes events again.
    pub(crate) fn release(&mut self)
        ensures { self.new ≡ record self.old { held = false } }
    {
        self.held = false;
    }
}

ghost use Rattle.std.specs.Prelude.{◌≡◌, ◌≤◌, true, false, None, length, IfNone, if◌then◌else◌};
ghost use Rattle.ti_jdwp.specs.Queues.{no_events, with_event, with_loss, may_tell, first, without_first};
