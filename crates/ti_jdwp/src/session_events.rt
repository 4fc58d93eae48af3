//! What takes place at the service while a debugger is there.

use crate::actions::{Phase, Purpose};
use crate::error::JdwpError;
use crate::event::Event;
use crate::event_text::{EventRow, Occurrence, composite_body};
use crate::notice::Notice;
use crate::request::Policy;
use crate::requests_in_force::Told;
use crate::session::Session;
use crate::session_stops::add_rows;
use crate::text::Text;
use std::alloc::Global;

impl Session {
    /// A thread began. It gives whether the event is told to those who asked for it; else it is lost, since 4,096 events wait or
    /// there is no memory.
    pub fn thread_started(&mut self, thread: u32) -> bool
        ensures { Notes (ThreadStart thread) (starts thread) self.old result self.new }
    {
        let occurrence = Occurrence::ThreadStart { thread };
        self.note(Event::ThreadStart(thread), occurrence)
    }

    /// A thread ended. It gives whether the event is told to those who asked for it; else it is lost, since 4,096 events wait or
    /// there is no memory.
    pub fn thread_ended(&mut self, thread: u32) -> bool
        ensures { Notes (ThreadDeath thread) (ends thread) self.old result self.new }
    {
        let occurrence = Occurrence::ThreadDeath { thread };
        self.note(Event::ThreadDeath(thread), occurrence)
    }

    /// A class with this signature, as `Lscripts/nbody;`, became known at a thread. It gives whether the event is told to those who
    /// asked for it; else it is lost, since 4,096 events wait or there is no memory.
    pub fn class_prepared(&mut self, thread: u32, class: u32, signature: &[u8]) -> bool
        ensures { Notes (ClassPrepare thread class signature.now) (prepares thread class signature.entry) self.old result self.new }
    {
        if self.is_over() {
            return true;
        }
        let Ok(event) = Event::class_prepare(self.alloc, thread, class, signature) else {
            self.events.lose();
            return false;
        };
        let occurrence = Occurrence::ClassPrepare {
            thread,
            class,
            signature,
        };
        self.note(event, occurrence)
    }

    /// The runtime began, and this is its first thread. The debugger is told without having asked (VM_START, of the request 0), and
    /// all threads are suspended for it. It gives whether the event is told; else it is lost, since 4,096 events wait or there is no
    /// memory.
    pub fn began(&mut self, thread: u32) -> bool
        ensures { Begins thread self.old result self.new }
    {
        if self.is_over() {
            return true;
        }
        match start_notice(self.alloc, thread) {
            Ok(notice) => self.events.note(notice),
            Err(_) => {
                self.events.lose();
                false
            }
        }
    }

    /// The runtime ends. The debugger is told in any case (VM_DEATH, of the request 0), and in the same packet for each request that is
    /// for it. No thread is suspended for it, whatever the requests say. Nothing is read, answered or told after it: what else waits is
    /// lost. By `next` what the debugger suspended is resumed, and once the output is written the connection closes.
    ///
    /// It gives whether the event is told; else it is lost, since there is no memory. Nobody is told before the handshake, nor if the
    /// session ends: that is true as well.
    pub fn runtime_ends(&mut self) -> bool
        ensures { Dies self.old result self.new }
    {
        let hears = self.hears_end();
        self.ended = true;
        self.wind_up();
        if hears { self.tell_end() } else { true }
    }

    /// Whether the end of the runtime is told: the handshake has come, and the session does not end.
    fn hears_end(&self) -> bool
        ensures { result ≡ hears_end self.now.phase }
    {
        match self.phase {
            Phase::Greeting | Phase::Ending | Phase::Closed => false,
            Phase::Suspending { purpose, .. } => lasts(purpose),
            Phase::Undoing { purpose, .. } => lasts(purpose),
            _ => true,
        }
    }

    /// Tells the end of the runtime. It gives whether it is told; else it is lost, since there is no memory.
    fn tell_end(&mut self) -> bool
        ensures { TellsEnd result self.old self.new }
    {
        if self.write_end().is_ok() {
            return true;
        }
        self.events.lose();
        false
    }

    /// Writes the packet of the end of the runtime. 110 OUT_OF_MEMORY if there is no memory for it: it may have counted for the requests.
    fn write_end(&mut self) -> Result<(), JdwpError>
        ensures ok { OnOk result (self.new ≡ tells_end self.old) }
        ensures err { OnErr result (IsUntold VmDeath self.old self.new) }
    {
        let told = self.requests.tell(self.alloc, &Event::VmDeath)?;
        let body = end_body(self.alloc, told.numbers.as_slice())?;
        self.line.tell(self.told, body.as_slice())?;
        self.told = self.told.wrapping_add(1);
        Ok(())
    }

    /// Whether the session ends, so that nobody is told of an event.
    pub(crate) fn is_over(&self) -> bool
        ensures { result ≡ is_over self.now.phase }
    {
        matches!(self.phase, Phase::Ending | Phase::Closed)
    }

    /// Notes an event, if a request is for it.
    fn note(&mut self, event: Event, occurrence: Occurrence<'_>) -> bool
        ensures { Notes event occurrence.entry self.old result self.new }
    {
        if self.is_over() {
            return true;
        }
        let Ok(told) = self.requests.tell(self.alloc, &event) else {
            self.events.lose();
            return false;
        };
        if told.numbers.is_empty() {
            return true;
        }
        match notice_of(self.alloc, &event, occurrence, &told) {
            Ok(notice) => self.events.note(notice),
            Err(_) => {
                self.events.lose();
                false
            }
        }
    }
}

/// Whether threads are suspended for something else than the end of the session.
fn lasts(purpose: Purpose) -> bool
    ensures { result ≡ lasts purpose }
{
    !matches!(purpose, Purpose::End)
}

/// Which threads an event suspends. The begin and the end of a thread suspend none, and so does the end of the runtime, whatever the
/// requests say.
fn policy_of(event: &Event, asked: Policy) -> Policy
    ensures { result ≡ event_policy event.now asked }
{
    match event {
        Event::ThreadStart(_) | Event::ThreadDeath(_) | Event::VmDeath => Policy::None,
        _ => asked,
    }
}

/// The rows of a packet, one for each request. 110 OUT_OF_MEMORY if there is no memory for them.
pub(crate) fn rows_of<'a>(
    alloc: Global,
    numbers: &[u32],
    occurrence: Occurrence<'a>,
) -> Result<Vec<EventRow<'a>>, JdwpError>
    ensures ok { IfOk result (λ v. v.items ≡ map (row_of occurrence.entry) numbers.now) }
    ensures memory { IfErr result (λ e. e ≡ OutOfMemory) }
{
    let rows = numbers
        .iter()
        .map(|number| EventRow {
            request: number.cast_signed(),
            occurrence,
        })
        .collect(alloc)?;
    Ok(rows)
}

/// What is told of an occurrence, for each of these requests. 110 OUT_OF_MEMORY if there is no memory for it.
fn told_of(
    alloc: Global,
    policy: Policy,
    numbers: &[u32],
    occurrence: Occurrence<'_>,
) -> Result<Text, JdwpError>
    ensures ok { IfOk result (λ t. t ≡ composite policy (map (row_of occurrence.entry) numbers.now)) }
    ensures memory { IfErr result (λ e. e ≡ OutOfMemory) }
{
    let rows = rows_of(alloc, numbers, occurrence)?;
    let body = composite_body(alloc, policy, rows.as_slice())?;
    Ok(Text::new(body))
}

/// All that is told of the beginning of the runtime. 110 OUT_OF_MEMORY if there is no memory for it.
fn start_notice(alloc: Global, thread: u32) -> Result<Notice, JdwpError>
    ensures ok { IfOk result (λ n. n ≡ start_notice thread) }
    ensures memory { IfErr result (λ e. e ≡ OutOfMemory) }
{
    Ok(Notice {
        policy: Policy::All,
        thread,
        stop: false,
        body: told_of(alloc, Policy::All, &[0], Occurrence::VmStart { thread })?,
    })
}

/// What is told of the end of the runtime, for the request 0 and for each of these. 110 OUT_OF_MEMORY if there is no memory for it.
fn end_body(alloc: Global, numbers: &[u32]) -> Result<Vec<u8>, JdwpError>
    ensures ok { IfOk result (λ v. v.items ≡ end_body numbers.now) }
    ensures memory { IfErr result (λ e. e ≡ OutOfMemory) }
{
    let mut rows = rows_of(alloc, &[0], Occurrence::VmDeath)?;
    let more = rows_of(alloc, numbers, Occurrence::VmDeath)?;
    add_rows(&mut rows, more.as_slice())?;
    composite_body(alloc, Policy::None, rows.as_slice())
}

/// All that is told of an event. 110 OUT_OF_MEMORY if there is no memory for it.
fn notice_of(
    alloc: Global,
    event: &Event,
    occurrence: Occurrence<'_>,
    told: &Told,
) -> Result<Notice, JdwpError>
    ensures ok { IfOk result (λ n. n ≡ notice_for event.now occurrence.entry told.now.policy told.now.numbers.items) }
    ensures memory { IfErr result (λ e. e ≡ OutOfMemory) }
{
    let policy = policy_of(event, told.policy);
    Ok(Notice {
        policy,
        thread: event.thread(),
        stop: false,
        body: told_of(alloc, policy, told.numbers.as_slice(), occurrence)?,
    })
}

ghost use Rattle.std.specs.Prelude.{◌≡◌, map, IfOk, IfErr, OnOk, OnErr};
ghost use Rattle.ti_jdwp.specs.Composites.{composite};
ghost use Rattle.ti_jdwp.specs.Notes.{Begins, Dies, IsUntold, Notes, TellsEnd, is_over, end_body, event_policy, hears_end, lasts, notice_for, row_of, start_notice, starts, ends, prepares, tells_end};
ghost use Rattle.ti_jdwp.specs.declared.error.JdwpError.TheVariants.{OutOfMemory};
ghost use Rattle.ti_jdwp.specs.declared.event.Event.TheVariants.{ThreadStart, ThreadDeath, ClassPrepare, VmDeath};
