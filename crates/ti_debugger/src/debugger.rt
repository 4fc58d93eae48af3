//! The agent for debuggers, one after the other.

use crate::about::About;
use crate::asked::Asked;
use crate::debugger_error::DebuggerError;
use crate::desk::Desk;
use crate::halting::tend_stops;
use crate::seat::{Seat, Todo};
use crate::telling::{tell_classes, tell_lives};
use std::alloc::Global;
use std::marker::Model;
use ti_service::{Agent, Service};
use ti_types::TiError;

/// How long after a `tick` the agent looks again for what a session waits for, in nanoseconds.
const SOON: u64 = 1_000_000;

/// How long after a `tick` it looks again for suspensions that nobody waits for.
const LATER: u64 = 10_000_000;

/// An agent of a service for debuggers, one at a time. Times are nanoseconds of a clock that never goes back. Contracts see it as a
/// `DebuggerValue`: its session as `ti_jdwp` sees it, the threads that it watches, and its environment.
#[derive(Drop)]
pub struct Debugger {
    seat: Option<Seat>,
    pub(crate) desk: Desk,
    last_tick: u64,
}

impl Model for Debugger {
    ghost use Rattle.ti_debugger.specs.Debuggers.{DebuggerValue};
    ghost use Rattle.ti_debugger.specs.Desks.{debugger_of};

    ghost Value = { DebuggerValue };

    ghost view = { λ d. debugger_of d.seat d.desk };
}

impl Debugger {
    /// An agent with no debugger. It takes the capability to suspend threads. `about` is what debuggers are told of the runtime.
    pub fn new(alloc: Global, agent: Agent, about: About, now: u64) -> Debugger
        ensures none { (result.session ≡ None) × (result.due ≡ None) }
        ensures free { NoneHeld result.watched }
        ensures resumptions { result.resumptions ≡ 0 }
        ensures about { result.about ≡ about }
        ensures starts { result.starts ≡ false }
        ensures variables { (result.tells ≡ false) × (result.asked ≡ Nothing) × (result.objects ≡ []) × (result.numbers ≡ 0) }
    {
        Debugger {
            seat: None,
            desk: Desk::new(alloc, agent, about, now),
            last_tick: now,
        }
    }

    /// Says whether the runtime waits for its first debugger: at first it does not. The next debugger that connects while a thread is
    /// there is told that the runtime begins, and all threads are suspended for it. Those that come after it are not told.
    pub fn starts_suspended(&mut self, suspended: bool)
        ensures { self.new ≡ record self.old { starts = suspended } }
    {
        self.desk.starts = suspended;
    }

    /// Begins the session of a debugger that has connected. False while there is one: then nothing changes. If the runtime waits for
    /// its first debugger, the session is told of its beginning; if that is lost, for lack of memory, the runtime waits for the next.
    pub fn connect(&mut self, now: u64) -> bool
        ensures told { result ≡ not (is_some self.old.session) }
        ensures opened { result ≡ true → Opens self.old.starts (first (alive_in self.old.watched)) self.new }
        ensures there { result ≡ false → self.new ≡ self.old }
        ensures desk { self.new ≡ record self.old { session = self.new.session; starts = self.new.starts } }
    {
        if self.seat.is_some() {
            return false;
        }
        self.seat = Some(Seat::open(&mut self.desk));
        self.last_tick = now;
        true
    }

    /// Whether a debugger is connected.
    pub fn is_connected(&self) -> bool
        ensures { result ≡ is_some self.now.session }
    {
        self.seat.is_some()
    }

    /// How many bytes `feed` takes now, at most 65,536. 0 if no debugger is connected.
    pub fn room(&self) -> usize
        ensures { result ≡ room_of self.now.session }
    {
        match &self.seat {
            Some(seat) => seat.session.room(),
            None => 0,
        }
    }

    /// Takes bytes that the socket gave, as many as there is room for. It gives their number.
    ///
    /// - 112 WRONG_PHASE: no debugger is connected. Nothing changes.
    /// - 110 OUT_OF_MEMORY: there is no memory for them. Nothing changes.
    pub fn feed(&mut self, bytes: &[u8], _now: u64) -> Result<usize, DebuggerError>
        ensures fed { IfOk result (λ n. Changes self.old.session self.new.session (λ s s'. Feeds s s' bytes.now n)) }
        ensures err { IfErr result (Refuses (λ s s'. s' ≡ s) self.old self.new) }
        ensures kept { OnErr result (self.new ≡ self.old) }
        ensures desk { self.new ≡ record self.old { session = self.new.session } }
    {
        let Some(mut seat) = self.seat.take() else {
            return Err(DebuggerError::NoDebugger);
        };
        let taken = seat.session.feed(bytes);
        self.seat = Some(seat);
        Ok(taken?)
    }

    /// Says that the socket gives no more. Requests that came whole are still answered, and then the session ends.
    ///
    /// - 112 WRONG_PHASE: no debugger is connected. Nothing changes.
    pub fn end(&mut self, _now: u64) -> Result<(), DebuggerError>
        ensures ended { OnOk result (Changes self.old.session self.new.session (λ s s'. s' ≡ record s { ended = true })) }
        ensures err { IfErr result (HasNone self.old self.new) }
        ensures desk { self.new ≡ record self.old { session = self.new.session } }
    {
        let Some(mut seat) = self.seat.take() else {
            return Err(DebuggerError::NoDebugger);
        };
        seat.session.end();
        self.seat = Some(seat);
        Ok(())
    }

    /// Says that the runtime ends. The debugger is told by VM_DEATH, after what was told before it: call `tick` and `next` first, so that
    /// ends of threads are told. No request is answered after it, and a question that is open is dropped. Go on with `next` until it gives
    /// `Close`. Nothing happens if no debugger is connected, or its session ends.
    pub fn runtime_ends(&mut self)
        ensures { RuntimeEnds self.old self.new }
    {
        let Some(mut seat) = self.seat.take() else {
            return;
        };
        let _it_counts_what_is_lost = seat.runtime_ends();
        self.seat = Some(seat);
        self.desk.asked = Asked::Nothing;
    }

    /// What the caller does next with the connection. Requests are answered here, and while a question is open none is: nothing changes.
    /// What was told of the values of a thread is freed when the debugger resumes it, and before it is suspended anew, and a text or a
    /// table when the debugger has disposed of its id (1/14) as often as it was told it: a table's entries are told anew by each 13/2.
    /// Then its number names nothing: no number names another text or table than before.
    ///
    /// - 112 WRONG_PHASE: no debugger is connected. Nothing changes.
    /// - 110 OUT_OF_MEMORY: there is no memory for a reply, an event, or what a request asks to be kept. What was done before stays
    ///   done, and the rest waits for the next call.
    pub fn next(&mut self, now: u64) -> Result<Todo, DebuggerError>
        ensures run { IfOk result (λ t. Changes self.old.session self.new.session (λ s s'. RunsTo s s' × Says self.new.asked s' t)) }
        ensures err { IfErr result (Refuses RunsTo self.old self.new) }
        ensures served { is_some self.old.session ≡ true → IsServed now self.old self.new }
        ensures desk { Works self.old self.new }
        ensures open { is_some (question_in self.old.asked) ≡ true → self.new ≡ self.old }
    {
        let Some(mut seat) = self.seat.take() else {
            return Err(DebuggerError::NoDebugger);
        };
        let todo = seat.next(&mut self.desk, now);
        self.seat = Some(seat);
        Ok(todo?)
    }

    /// The bytes that are to be written. None if no debugger is connected.
    pub fn output(&self) -> &[u8]
        ensures { result.now ≡ output_of self.now.session }
    {
        match &self.seat {
            Some(seat) => seat.session.output(),
            None => &[],
        }
    }

    /// Says that the socket took so many bytes of the output; more than there are count as all of them.
    ///
    /// - 112 WRONG_PHASE: no debugger is connected. Nothing changes.
    pub fn written(&mut self, count: usize) -> Result<(), DebuggerError>
        ensures written { OnOk result (Changes self.old.session self.new.session (λ s s'. s' ≡ record s { bytes = with_written s.bytes count })) }
        ensures err { IfErr result (HasNone self.old self.new) }
        ensures desk { self.new ≡ record self.old { session = self.new.session } }
    {
        let Some(mut seat) = self.seat.take() else {
            return Err(DebuggerError::NoDebugger);
        };
        seat.session.written(count);
        self.seat = Some(seat);
        Ok(())
    }

    /// Says that the socket is gone. The session is over, and all that its debugger suspended is resumed, now or by `tick`. Nothing
    /// happens if no debugger is connected.
    pub fn closed(&mut self)
        ensures gone { (self.new.session ≡ None) × (self.new.due ≡ None) }
        ensures free { NoneHeld self.new.watched }
        ensures variables { (self.new.asked ≡ Nothing) × (self.new.objects ≡ []) × (self.new.numbers ≡ 0) }
        ensures desk { Works self.old (record self.new { objects = self.old.objects; numbers = self.old.numbers }) }
    {
        self.seat = None;
        self.desk.let_go_of_all();
        self.desk.resume_all();
        self.desk.forget_variables();
    }

    /// Does what is due: it meets threads, tells the session of their starts and ends, of their stops and of the classes that were
    /// defined, collects what threads answered, and undoes suspensions and stops that are not wanted any more. Call `next` after it.
    pub fn tick(&mut self, now: u64)
        ensures told { ToldBy (classes_of self.new.agent) self.old.next_class self.new.next_class self.old.session self.new.session }
        ensures due { self.new.due ≡ self.old.due }
        ensures resumptions { self.old.resumptions ≤ self.new.resumptions }
        ensures about { self.new.about ≡ self.old.about }
        ensures starts { self.new.starts ≡ self.old.starts }
        ensures variables { (self.new.tells ≡ self.old.tells) × (self.new.asked ≡ self.old.asked) × (self.new.objects ≡ self.old.objects) × (self.new.numbers ≡ self.old.numbers) }
    {
        self.last_tick = now;
        self.desk.meet_if_due(now);
        tell_lives(&mut self.seat, &mut self.desk);
        tend_stops(&mut self.seat, &mut self.desk);
        tell_classes(&mut self.seat, &mut self.desk);
        self.desk.settle_all();
    }

    /// How many times it has resumed a thread of the service, or has let one go on that had stopped, since it was made. The count never
    /// goes back, and stays at 2^64 - 1. When it has grown, wake the threads that sleep.
    pub fn resumptions(&self) -> u64
        ensures { result ≡ self.now.resumptions }
    {
        self.desk.resumptions
    }

    /// When `tick` has something to do next.
    pub fn deadline(&self) -> u64 {
        let mut due = self.desk.next_meeting;
        if self.desk.more_classes || self.desk.stops.are_any() {
            due = due.min(self.last_tick.saturating_add(SOON));
        }
        if self.desk.is_open() {
            due = due.min(self.last_tick.saturating_add(LATER));
        }
        if let Some(seat) = &self.seat {
            if seat.rests {
                due = self.last_tick;
            } else if seat.due.is_some() {
                due = due.min(self.last_tick.saturating_add(SOON));
            }
        }
        due
    }

    /// Whether `finish` may dispose of the agent: no debugger is connected, and no suspension is out or to be undone.
    fn is_idle(&self) -> bool
        ensures { result ≡ is_idle self.now.session self.now.watched }
    {
        self.seat.is_none() && !self.desk.is_open()
    }

    /// Disposes of the agent. With an error it comes back, with the same session and the same suspensions.
    ///
    /// - 215 `Busy` (this profile): a debugger is connected, or a thread has not answered its suspension or has not been resumed yet.
    ///   Nothing changes: call `closed`, and `tick` until it has.
    /// - 110 OUT_OF_MEMORY, 215 and 216 as `ServiceTries::dispose_now`. The agent may have left some of its threads already, and can
    ///   only be disposed of.
    pub fn finish(self) -> Result<Service, (TiError, Debugger)>
        ensures idle { is_idle self.session self.watched ≡ false → result ≡ Err (Busy, self) }
        ensures disposed { IfOk result (λ s. Disposes (state_of self.agent) s) }
        ensures refused { IfErr result (λ r. (is_idle self.session self.watched ≡ false) ⊎ StaysOn (state_of self.agent) (state_of r.1.agent) r.0) }
        ensures events { IfErr result (λ r. r.1.agent.home.events ≡ self.agent.home.events) }
        ensures rest { IfErr result (λ r. r.1 ≡ record self { agent = r.1.agent }) }
    {
        if !self.is_idle() {
            return Err((TiError::Busy, self));
        }
        let Debugger {
            seat,
            desk,
            last_tick,
        } = self;
        match desk.dispose() {
            Ok(service) => Ok(service),
            Err((error, desk)) => Err((
                error,
                Debugger {
                    seat,
                    desk,
                    last_tick,
                },
            )),
        }
    }
}

ghost use Rattle.std.specs.Prelude.{◌≡◌, ◌≤◌, ◌⊎◌, [], true, false, not, is_some, Some, None, Err, IfOk, IfErr, OnOk, OnErr};
ghost use Rattle.ti_types.specs.declared.error.TiError.TheVariants.{Busy};
ghost use Rattle.ti_jdwp.specs.Lines.{with_written};
ghost use Rattle.ti_service.specs.Classes.{classes_of};
ghost use Rattle.ti_service.specs.Leaving.{Disposes, StaysOn};
ghost use Rattle.ti_service.specs.Memberships.{state_of};
ghost use Rattle.ti_debugger.specs.Crowds.{NoneHeld, alive_in, first};
ghost use Rattle.ti_debugger.specs.Debuggers.{Works};
ghost use Rattle.ti_debugger.specs.Ending.{RuntimeEnds};
ghost use Rattle.ti_debugger.specs.Opening.{Opens};
ghost use Rattle.ti_debugger.specs.Questions.{question_in};
ghost use Rattle.ti_debugger.specs.declared.asked.Asked.TheVariants.{Nothing};
ghost use Rattle.ti_debugger.specs.Runs.{RunsTo};
ghost use Rattle.ti_debugger.specs.Seats.{Says};
ghost use Rattle.ti_debugger.specs.Serving.{IsServed};
ghost use Rattle.ti_debugger.specs.Refused.{HasNone, Refuses};
ghost use Rattle.ti_debugger.specs.Sessions.{room_of, output_of, Changes, Feeds, is_idle};
ghost use Rattle.ti_debugger.specs.Told.{ToldBy};
