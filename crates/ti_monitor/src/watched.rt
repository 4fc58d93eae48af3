//! The threads that were met.

use crate::state::{STATES, is_suspended, state_place};
use ti_types::{ThreadNo, Ticket};

/// A call that was posted and not collected.
#[derive(Clone, Copy)]
pub(crate) struct Out {
    pub(crate) ticket: Ticket,
    /// When it was posted.
    pub(crate) since: u64,
}

/// A thread that was met.
#[derive(Drop)]
pub(crate) struct Watched {
    pub(crate) thread: ThreadNo,
    pub(crate) name: String,
    pub(crate) priority: i32,
    /// The call that is out there, if there is one.
    pub(crate) out: Option<Out>,
    /// Whether it was let go of. Then it is asked nothing more.
    pub(crate) gone: bool,
    /// How often it had handed over when it last told that.
    pub(crate) handed: u64,
    /// The place of its state when it was last seen, below 9.
    state: usize,
    suspended: bool,
    ghost within: { state < 9 },
    ghost there: { IfSome out (λ o. o.ticket.thread.0 ≡ thread.0) } by { Prim.hlevel props },
}

impl Watched {
    ghost use Rattle.std.specs.Prelude.{◌≡◌, ◌==◌, None, false};
    ghost use Rattle.ti_monitor.specs.States.{is_suspended, place_of};
    ghost use Rattle.ti_monitor.specs.Watching.{is_done, named_state};

    /// A thread that was just met.
    pub(crate) fn new(thread: ThreadNo, name: String, priority: i32) -> Watched
        ensures thread { result.thread ≡ thread }
        ensures name { result.name ≡ name }
        ensures priority { result.priority ≡ priority }
        ensures out { result.out ≡ None }
        ensures gone { result.gone ≡ false }
        ensures handed { result.handed ≡ 0 }
        ensures state { result.state ≡ 0 }
        ensures suspended { result.suspended ≡ false }
    {
        Watched {
            thread,
            name,
            priority,
            out: None,
            gone: false,
            handed: 0,
            state: 0,
            suspended: false,
        }
    }

    /// Takes the bits of its state.
    pub(crate) fn see(&mut self, bits: u32)
        ensures state { self.new.state ≡ place_of bits }
        ensures suspended { self.new.suspended ≡ is_suspended bits }
        ensures thread { self.new.thread ≡ self.old.thread }
        ensures name { self.new.name ≡ self.old.name }
        ensures priority { self.new.priority ≡ self.old.priority }
        ensures out { self.new.out ≡ self.old.out }
        ensures gone { self.new.gone ≡ self.old.gone }
        ensures handed { self.new.handed ≡ self.old.handed }
    {
        self.state = state_place(bits);
        self.suspended = is_suspended(bits);
    }

    /// The place of its state.
    pub(crate) fn state(&self) -> usize
        ensures state { result ≡ self.now.state }
        ensures within { result < 9 }
    {
        self.state
    }

    pub(crate) fn is_suspended(&self) -> bool
        ensures { result ≡ self.now.suspended }
    {
        self.suspended
    }

    /// Whether it has not started.
    pub(crate) fn is_new(&self) -> bool
        ensures { result ≡ (self.now.state == 0) }
    {
        self.state == 0
    }

    /// Whether it has ended.
    pub(crate) fn has_ended(&self) -> bool
        ensures { result ≡ is_done self.now }
    {
        self.state == STATES - 1 || self.gone
    }

    /// The place of its state among the names of states, where those of suspended threads come last.
    pub(crate) fn named_state(&self) -> u32
        ensures { result ≡ named_state self.now }
    {
        let suspended = if self.suspended { STATES as u32 } else { 0 };
        self.state as u32 + suspended
    }
}

ghost use Rattle.std.specs.Prelude.{◌≡◌, ◌<◌, IfSome};
ghost use Rattle.std.proofs.Props.{props};
