//! The agent that reads the threads.

use crate::asking::probe_if_there;
use crate::hand_overs::count_hand_overs;
use crate::meeting::{count_earlier, count_events, enable_events, let_go_of_ended, watch_new};
use crate::metrics::Metrics;
use crate::naming::{about_of, details_of, names_of, seen_of};
use crate::reading::{Order, Reading};
use crate::running::is_profile;
use crate::sampling::{Readings, end};
use crate::watched::Watched;
use std::alloc::Global;
use ti_service::{Agent, Service, ServiceTries};
use ti_types::TiError;

/// How often the monitor meets threads and probes their states, in nanoseconds.
const LOOK: u64 = 100_000_000;

/// How long it waits before it looks again for an answer, in nanoseconds.
const SOON: u64 = 1_000_000;

/// A reading, by its number. Numbers count from 0 and are never used again.
#[derive(Clone, Copy, Debug, PartialEq, Eq)]
pub struct ReadingNo(pub u64);

/// An agent that reads the threads of its service. Times are nanoseconds of a clock that never goes back.
#[derive(Drop)]
pub struct Monitor {
    alloc: Global,
    agent: Agent,
    program: String,
    metrics: Metrics,
    watched: Vec<Watched>,
    readings: Readings,
    /// How many readings were begun.
    begun: u64,
    /// When it meets threads next, and when it probes them.
    next_meeting: u64,
    next_probe: u64,
    /// When it probed them, and when it did what was due.
    last_probe: u64,
    last_tick: u64,
    /// Whether it has met threads.
    has_met: bool,
}

impl Monitor {
    ghost use Rattle.ti_monitor.specs.Deadlines.{IsDeadline};

    /// A monitor over this agent. `program` is the name that profiles have. It takes no memory.
    pub fn new(alloc: Global, agent: Agent, program: String, now: u64) -> Monitor
        ensures program { result.program ≡ program }
        ensures agent { MayEnable (state_of agent) (state_of result.agent) }
    {
        let mut agent = agent;
        let _later_if_busy = enable_events(&mut agent);
        Monitor {
            alloc,
            agent,
            program,
            metrics: Metrics::new(),
            watched: Vec::new(alloc),
            readings: Readings::new(alloc),
            begun: 0,
            next_meeting: now,
            next_probe: now,
            last_probe: now,
            last_tick: now,
            has_met: false,
        }
    }

    /// Begins a reading. `unix` is the time in nanoseconds since 1970. A number in the order that is out of its range counts as the
    /// nearest one within it.
    ///
    /// - 216 `Full` (this profile): two profiles (`Order::Over`) are there that run or were not taken, or sixteen readings in all.
    /// - 110 OUT_OF_MEMORY.
    ///
    /// Then no reading changes.
    pub fn begin(&mut self, order: Order, now: u64, unix: u64) -> Result<ReadingNo, TiError>
        ensures begun { IfOk result (λ no. Begins self.old.readings.running.items self.new.readings.running.items no order now unix) }
        ensures number { IfOk result (λ no. (no.0 ≡ self.old.begun) × (self.new.begun ≡ no.0 + 1)) }
        ensures refused { IfErr result (λ e. ((e ≡ Full) × HasNoRoom self.old.readings.running.items self.old.begun order) ⊎ (e ≡ OutOfMemory)) }
        ensures kept { OnErr result (self.new.readings.running.items ≡ self.old.readings.running.items) }
        ensures counted { IfOk result (λ no. self.new.metrics ≡ begun_in order self.old.metrics) }
        ensures uncounted { OnErr result ((self.new.metrics ≡ self.old.metrics) × (self.new.begun ≡ self.old.begun)) }
        ensures program { self.new.program ≡ self.old.program }
        ensures agent { self.new.agent ≡ self.old.agent }
    {
        if self.begun == u64::MAX || !self.readings.have_room(order) {
            return Err(TiError::Full);
        }
        let no = ReadingNo(self.begun);
        self.readings.add(self.alloc, no, order, now, unix)?;
        self.begun += 1;
        if is_profile(order) {
            self.metrics.profiles = self.metrics.profiles.saturating_add(1);
        }
        Ok(no)
    }

    /// Does what is due: it meets threads and lets them go, probes states, collects answers, and takes the ticks of readings.
    pub fn tick(&mut self, now: u64)
        ensures samples { Samples now (sampling self.old.agent self.old.watched.items self.old.readings) (sampling self.new.agent self.new.watched.items self.new.readings) }
        ensures calls { self.new.metrics.calls_out ≡ count_by has_call self.new.watched.items }
        ensures oldest { self.new.metrics.oldest_call ≡ oldest_call now self.new.watched.items }
        ensures orders { orders_of self.new.readings.running.items ≡ orders_of self.old.readings.running.items }
        ensures begun { self.new.begun ≡ self.old.begun }
        ensures program { self.new.program ≡ self.old.program }
    {
        self.last_tick = now;
        self.readings.collect_all(
            self.alloc,
            &mut self.agent,
            &mut self.watched,
            &mut self.metrics,
            now,
        );
        let is_met = self.meet_if_due(now);
        self.probe_if_due(now);
        if is_met {
            self.readings
                .tick_all(&self.watched, &mut self.metrics, now);
        }
        self.readings.ask_all(
            self.alloc,
            &mut self.agent,
            &mut self.watched,
            &mut self.metrics,
            now,
        );
        self.readings.end_all(&self.watched, &mut self.metrics, now);
        self.metrics.take_calls(&self.watched, now);
    }

    /// Meets threads, if that is due or there is news. False if it could not, since the roster is in use.
    fn meet_if_due(&mut self, now: u64) -> bool
        ensures readings { self.new.readings ≡ self.old.readings }
        ensures begun { self.new.begun ≡ self.old.begun }
        ensures program { self.new.program ≡ self.old.program }
    {
        let is_due = now >= self.next_meeting;
        if !self.agent.has_news() && !is_due {
            return true;
        }
        let is_met = self.meet();
        self.next_meeting = now.saturating_add(if is_met { LOOK } else { SOON });
        is_met
    }

    /// Meets the threads that came, counts the events, and lets go of threads that were given back. False if the roster is in use.
    fn meet(&mut self) -> bool
        ensures readings { self.new.readings ≡ self.old.readings }
        ensures begun { self.new.begun ≡ self.old.begun }
        ensures program { self.new.program ≡ self.old.program }
    {
        let enabled = enable_events(&mut self.agent);
        let met = self.agent.meet_now(self.alloc);
        let first = count_events(&mut self.agent, &mut self.metrics);
        let watched = watch_new(self.alloc, &mut self.agent, &mut self.watched);
        if met.is_ok() && !self.has_met {
            count_earlier(&self.watched, first, &mut self.metrics);
            self.has_met = true;
        }
        count_hand_overs(&mut self.agent, &mut self.watched, &mut self.metrics);
        let_go_of_ended(&mut self.agent, &mut self.watched);
        if self.readings.running.is_empty() {
            self.watched.retain(|one: &Watched| !one.gone);
        }
        enabled.is_ok() && met != Err(TiError::Busy) && watched
    }

    /// Probes the states of all threads, if that is due, and counts them.
    fn probe_if_due(&mut self, now: u64)
        ensures probed { self.old.next_probe ≤ now → ProbesAll self.old.agent self.new.agent self.old.watched.items self.new.watched.items }
        ensures counted { self.old.next_probe ≤ now → CountsStates self.old.metrics self.new.metrics self.new.watched.items (now - self.old.last_probe) }
        ensures others { KeepsOthers self.old.metrics self.new.metrics }
        ensures early { now < self.old.next_probe → self.new ≡ self.old }
        ensures readings { self.new.readings ≡ self.old.readings }
        ensures begun { self.new.begun ≡ self.old.begun }
        ensures program { self.new.program ≡ self.old.program }
    {
        if now < self.next_probe {
            return;
        }
        for place in 0..self.watched.len() {
            probe_if_there(self.alloc, &mut self.agent, &mut self.watched[place]);
        }
        let passed = now.saturating_sub(self.last_probe);
        self.metrics.take_states(&self.watched, passed);
        self.last_probe = now;
        self.next_probe = now.saturating_add(LOOK);
    }

    /// When `tick` has something to do next.
    pub fn deadline(&self) -> u64
        ensures { IsDeadline self.now result }
    {
        let look = self.next_meeting.min(self.next_probe);
        let due = look.min(self.readings.due());
        if self.readings.wait() {
            due.min(self.last_tick.saturating_add(SOON))
        } else {
            due
        }
    }

    /// Whether a reading has ended, so that `take` gives it.
    pub fn has_ended(&self, reading: ReadingNo) -> bool
        ensures { result ≡ has_ended (reading_in self.now.readings.running.items reading) }
    {
        match self.readings.place_of(reading) {
            Some(place) => self.readings.running[place].has_ended(),
            None => false,
        }
    }

    /// Ends a reading now, with what is there. Nothing happens if it has ended, or if there is no such reading.
    pub fn hurry(&mut self, reading: ReadingNo, now: u64)
        ensures ends { EndsOne reading now self.old.watched.items self.old.readings.running.items self.new.readings.running.items }
        ensures orders { orders_of self.new.readings.running.items ≡ orders_of self.old.readings.running.items }
        ensures begun { self.new.begun ≡ self.old.begun }
        ensures program { self.new.program ≡ self.old.program }
        ensures agent { self.new.agent ≡ self.old.agent }
    {
        if let Some(place) = self.readings.place_of(reading) {
            end(
                &mut self.readings.running[place],
                &self.watched,
                &mut self.metrics,
                now,
            );
        }
    }

    /// What was read, if the reading has ended. `None` while it goes on, and if there is no such reading. The error is lack of memory
    /// for the names; then the reading stays.
    pub fn take(&mut self, reading: ReadingNo) -> Result<Option<Reading>, TiError>
        ensures counts { IfOk result (λ t. IfSome t (λ r. AreCountsOf (reading_in self.old.readings.running.items reading) r.counts)) }
        ensures none { IfOk result (λ t. IfNone t (has_ended (reading_in self.old.readings.running.items reading) ≡ false)) }
        ensures about { IfOk result (λ t. IfSome t (λ r. string_bytes r.about.program ≡ string_bytes self.old.program)) }
        ensures memory { IfErr result (λ e. e ≡ OutOfMemory) }
        ensures left { IfOk result (λ t. IfSome t (λ r. IsWithout reading self.old.readings.running.items self.new.readings.running.items)) }
        ensures untaken { IfOk result (λ t. IfNone t (self.new.readings.running.items ≡ self.old.readings.running.items)) }
        ensures kept { OnErr result (self.new.readings.running.items ≡ self.old.readings.running.items) }
        ensures metrics { self.new.metrics ≡ self.old.metrics }
        ensures begun { self.new.begun ≡ self.old.begun }
        ensures program { self.new.program ≡ self.old.program }
    {
        let Some(place) = self.readings.place_of(reading) else {
            return Ok(None);
        };
        if !self.readings.running[place].has_ended() {
            return Ok(None);
        }
        let names = names_of(
            self.alloc,
            &mut self.agent,
            &self.readings.methods,
            &self.watched,
        )?;
        let details = details_of(
            self.alloc,
            &mut self.agent,
            &self.readings.methods,
            &self.watched,
        )?;
        let seen = seen_of(self.alloc, &self.watched)?;
        let about = about_of(
            self.alloc,
            self.program.as_str(),
            &self.readings.running[place],
        )?;
        let counts = self.readings.running.remove(place).into_counts();
        Ok(Some(Reading {
            counts,
            names,
            details,
            about,
            seen,
        }))
    }

    /// Gives a reading up. Nothing happens if there is no such reading.
    pub fn forget(&mut self, reading: ReadingNo)
        ensures left { MayBeWithout reading self.old.readings.running.items self.new.readings.running.items }
        ensures metrics { self.new.metrics ≡ self.old.metrics }
        ensures begun { self.new.begun ≡ self.old.begun }
        ensures program { self.new.program ≡ self.old.program }
        ensures agent { self.new.agent ≡ self.old.agent }
    {
        if let Some(place) = self.readings.place_of(reading) {
            self.readings.running.remove(place);
        }
    }

    /// What it has counted since it began.
    pub fn metrics(&self) -> &Metrics
        ensures { result.now ≡ self.now.metrics }
    {
        &self.metrics
    }

    /// Disposes of the agent. Calls that are out are cancelled. With an error the monitor comes back with all that it has.
    ///
    /// - 110 OUT_OF_MEMORY, 215 `Busy` and 216 `Full` (this profile), as `ServiceTries::dispose_now`. The agent may have left some of
    ///   its threads already, and can only be disposed of.
    pub fn end(self) -> Result<Service, (TiError, Monitor)>
        ensures disposed { IfOk result (λ s. Disposes (state_of self.agent) s) }
        ensures refused { IfErr result (λ r. StaysOn (state_of self.agent) (state_of r.1.agent) r.0) }
        ensures events { IfErr result (λ r. r.1.agent.home.events ≡ self.agent.home.events) }
        ensures rest { IfErr result (λ r. r.1 ≡ record self { agent = r.1.agent }) }
    {
        let mut rest = self;
        let alloc = rest.alloc;
        match rest.agent.dispose_now(alloc) {
            Ok(service) => Ok(service),
            Err((error, agent)) => {
                rest.agent = agent;
                Err((error, rest))
            }
        }
    }
}

ghost use Rattle.std.specs.Prelude.{◌≡◌, ◌<◌, ◌≤◌, ◌+◌, ◌-◌, ◌⊎◌, false, count_by, IfOk, IfErr, IfSome, IfNone, OnErr};
ghost use Rattle.std.specs.String.{string_bytes};
ghost use Rattle.ti_types.specs.declared.error.TiError.TheVariants.{Full, OutOfMemory};
ghost use Rattle.ti_service.specs.Leaving.{Disposes, StaysOn};
ghost use Rattle.ti_service.specs.Memberships.{state_of};
ghost use Rattle.ti_monitor.specs.Asking.{ProbesAll};
ghost use Rattle.ti_monitor.specs.Counters.{CountsStates, KeepsOthers};
ghost use Rattle.ti_monitor.specs.Monitors.{AreCountsOf, Begins, HasNoRoom, IsWithout, MayBeWithout, MayEnable, begun_in, has_ended, orders_of, reading_in};
ghost use Rattle.ti_monitor.specs.Sampling.{EndsOne, Samples, sampling};
ghost use Rattle.ti_monitor.specs.Watching.{has_call, oldest_call};
