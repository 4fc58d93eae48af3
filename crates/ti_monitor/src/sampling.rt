//! What the readings are told of a thread.

use crate::asking::{DEPTH, Told, ask, collect};
use crate::methods::Methods;
use crate::metrics::Metrics;
use crate::monitor::ReadingNo;
use crate::reading::Order;
use crate::running::{Running, is_profile};
use crate::stack::{Stack, UNANSWERED};
use crate::watched::Watched;
use std::alloc::{AllocError, Global};
use ti_service::Agent;
use ti_types::Frame;

/// How many profiles and readings there are at most.
const MOST_PROFILES: usize = 2;

const MOST_READINGS: usize = 16;

/// The readings with all that they share.
#[derive(Drop)]
pub(crate) struct Readings {
    pub(crate) running: Vec<Running>,
    pub(crate) methods: Methods,
    pub(crate) stack: Stack,
}

impl Readings {
    ghost use Rattle.std.specs.List.{AllZip, list_any};
    ghost use Rattle.ti_monitor.specs.Counted.{AreNamed, CountsLost, CountsStack, KnowsMore, TakesBackAt, waits_for};
    ghost use Rattle.ti_monitor.specs.Deadlines.{IsNextIn, wait_at_all, waits_at_all};
    ghost use Rattle.ti_monitor.specs.Sampling.{AsksAt, AsksUpTo, CollectsUpTo, CountsTold, EachGoesOn, sampling};

    /// None.
    pub(crate) fn new(alloc: Global) -> Readings {
        Readings {
            running: Vec::new(alloc),
            methods: Methods::new(alloc),
            stack: Stack::new(alloc),
        }
    }

    /// Whether one of them is owed a stack of the thread at a place.
    fn wait_for(&self, place: usize) -> bool
        ensures { result ≡ list_any (waits_for place) self.now.running.items }
    {
        self.running.iter().any(
            |reading: &Running| -> bool
                ensures { result ≡ waits_for place reading.now }
            { reading.waits_for(place) },
        )
    }

    /// Whether one of them is owed a stack.
    pub(crate) fn wait(&self) -> bool
        ensures { result ≡ wait_at_all self.now.running.items }
    {
        self.running.iter().any(
            |reading: &Running| -> bool
                ensures { result ≡ waits_at_all reading.now }
            { reading.waits() },
        )
    }

    /// Takes the frames of a stack. The error is lack of memory.
    fn take(&mut self, alloc: Global, agent: &mut Agent, frames: &[Frame]) -> Result<(), AllocError>
        ensures named { OnOk result (AreNamed self.new.methods frames.now self.new.stack.frames.items) }
        ensures grows { KnowsMore self.old.methods self.new.methods }
        ensures running { self.new.running ≡ self.old.running }
        ensures env { agent.new.env ≡ agent.old.env }
    {
        self.stack.begin()?;
        for frame in frames {
            self.stack
                .push(self.methods.frame_of(alloc, agent, *frame))?;
        }
        Ok(())
    }

    /// The stack that was taken is that of the thread at a place.
    fn answer(&mut self, place: usize, watched: &[Watched], metrics: &mut Metrics)
        ensures counts { AllZip (CountsStack place self.old.stack.frames.items watched.now) self.old.running.items self.new.running.items }
        ensures methods { self.new.methods ≡ self.old.methods }
        ensures orders { orders_of self.new.running.items ≡ orders_of self.old.running.items }
    {
        for reading in self.running.iter_mut() {
            let no_room = reading.no_room();
            let owed = reading.answer(place, &self.stack, watched);
            metrics.count_no_room(reading.no_room().saturating_sub(no_room));
            metrics.at_once = metrics.at_once.saturating_add(owed.min(1));
            metrics.late = metrics.late.saturating_add(owed.saturating_sub(1));
        }
    }

    /// No stack of the thread at a place comes.
    fn lose(&mut self, place: usize, function: u32, watched: &[Watched], metrics: &mut Metrics)
        ensures counts { AllZip (CountsLost place function watched.now) self.old.running.items self.new.running.items }
        ensures methods { self.new.methods ≡ self.old.methods }
        ensures orders { orders_of self.new.running.items ≡ orders_of self.old.running.items }
    {
        for reading in self.running.iter_mut() {
            let no_room = reading.no_room();
            let owed = reading.lose(place, function, watched);
            metrics.count_no_room(reading.no_room().saturating_sub(no_room));
            metrics.unanswered = metrics.unanswered.saturating_add(owed);
        }
    }

    /// The thread at a place is not alive.
    fn take_back(&mut self, place: usize)
        ensures takes { AllZip (TakesBackAt place) self.old.running.items self.new.running.items }
        ensures methods { self.new.methods ≡ self.old.methods }
        ensures orders { orders_of self.new.running.items ≡ orders_of self.old.running.items }
    {
        for reading in self.running.iter_mut() {
            reading.take_back(place);
        }
    }

    /// The thread at a place has told something of its stack.
    fn tell(
        &mut self,
        alloc: Global,
        agent: &mut Agent,
        place: usize,
        told: Told,
        watched: &[Watched],
        metrics: &mut Metrics,
    )
        ensures counts { CountsTold told place watched.now self.old self.new }
        ensures grows { KnowsMore self.old.methods self.new.methods }
        ensures env { agent.new.env ≡ agent.old.env }
        ensures orders { orders_of self.new.running.items ≡ orders_of self.old.running.items }
    {
        match told {
            Told::NotYet => (),
            Told::NotAlive => self.take_back(place),
            Told::Unanswered => self.lose(place, UNANSWERED, watched, metrics),
            Told::Stack(trace) => match self.take(alloc, agent, trace.frames()) {
                Ok(()) => self.answer(place, watched, metrics),
                Err(_) => self.lose(place, UNANSWERED, watched, metrics),
            },
        }
    }

    /// Collects the answers to calls that are out.
    pub(crate) fn collect_all(
        &mut self,
        alloc: Global,
        agent: &mut Agent,
        watched: &mut [Watched],
        metrics: &mut Metrics,
        now: u64,
    )
        ensures collects { CollectsUpTo (length watched.old) (sampling agent.old watched.old self.old) (sampling agent.new watched.new self.new) }
        ensures orders { orders_of self.new.running.items ≡ orders_of self.old.running.items }
    {
        for place in 0..watched.len() {
            let told = collect(alloc, agent, &mut watched[place], &mut metrics.answers, now);
            self.tell(alloc, agent, place, told, watched, metrics);
        }
    }

    /// Ticks each reading whose tick is due.
    pub(crate) fn tick_all(&mut self, watched: &[Watched], metrics: &mut Metrics, now: u64)
        ensures ticks { EachGoesOn (TicksIfDue now watched.now) self.old self.new }
        ensures orders { orders_of self.new.running.items ≡ orders_of self.old.running.items }
    {
        for reading in self.running.iter_mut() {
            tick(reading, watched, metrics, now);
        }
    }

    /// Asks each thread of which a stack is owed, and at which no call is out.
    pub(crate) fn ask_all(
        &mut self,
        alloc: Global,
        agent: &mut Agent,
        watched: &mut [Watched],
        metrics: &mut Metrics,
        now: u64,
    )
        ensures asks { AsksUpTo (length watched.old) (sampling agent.old watched.old self.old) (sampling agent.new watched.new self.new) }
        ensures orders { orders_of self.new.running.items ≡ orders_of self.old.running.items }
    {
        for place in 0..watched.len() {
            self.ask_at(alloc, agent, place, watched, metrics, now);
        }
    }

    /// Asks the thread at a place, if a stack of it is owed, and no call is out there.
    fn ask_at(
        &mut self,
        alloc: Global,
        agent: &mut Agent,
        place: usize,
        watched: &mut [Watched],
        metrics: &mut Metrics,
        now: u64,
    )
        ensures asks { AsksAt place (sampling agent.old watched.old self.old) (sampling agent.new watched.new self.new) }
        ensures many { length watched.new ≡ length watched.old }
        ensures orders { orders_of self.new.running.items ≡ orders_of self.old.running.items }
    {
        if !is_free(watched, place) || !self.wait_for(place) {
            return;
        }
        let told = ask(alloc, agent, &mut watched[place], now);
        self.tell(alloc, agent, place, told, watched, metrics);
    }

    /// Ends each reading that is over.
    pub(crate) fn end_all(&mut self, watched: &[Watched], metrics: &mut Metrics, now: u64)
        ensures ends { EachGoesOn (EndsIfOver now watched.now) self.old self.new }
        ensures orders { orders_of self.new.running.items ≡ orders_of self.old.running.items }
    {
        for reading in self.running.iter_mut() {
            end_if_over(reading, watched, metrics, now);
        }
    }

    /// The place of a reading. `None` if there is none of this number.
    pub(crate) fn place_of(&self, no: ReadingNo) -> Option<usize>
        ensures found { IfSome result (λ place. slice_get self.now.running.items place ≡ reading_in self.now.running.items no) }
        ensures within { IfSome result (λ place. place < length self.now.running.items) }
        ensures none { IfNone result (reading_in self.now.running.items no ≡ None) }
    {
        for place in 0..self.running.len() {
            if self.running[place].no.0 == no.0 {
                return Some(place);
            }
        }
        None
    }

    /// How many of them are profiles.
    fn profiles(&self) -> usize
        ensures { result ≡ profiles_in self.now.running.items }
    {
        let mut profiles: usize = 0;
        for reading in &self.running {
            if is_profile(reading.order) {
                profiles += 1;
            }
        }
        profiles
    }

    /// Whether there is room for one more.
    pub(crate) fn have_room(&self, order: Order) -> bool
        ensures { OnFalse result (IsFull self.now.running.items order) }
    {
        if self.running.len() >= MOST_READINGS {
            return false;
        }
        !is_profile(order) || self.profiles() < MOST_PROFILES
    }

    /// Adds one that begins now. The error is lack of memory. Then the others stay.
    pub(crate) fn add(
        &mut self,
        alloc: Global,
        no: ReadingNo,
        order: Order,
        now: u64,
        unix: u64,
    ) -> Result<(), AllocError>
        ensures begun { OnOk result (Begins self.old.running.items self.new.running.items no order now unix) }
        ensures kept { OnErr result (self.new.running.items ≡ self.old.running.items) }
    {
        self.methods.begin(self.running.is_empty());
        self.stack.reserve(DEPTH + 1)?;
        self.running.reserve(1)?;
        let reading = Running::new(alloc, no, order, now, unix)?;
        self.running.push_reserved(reading);
        Ok(())
    }

    /// When one of them has something to do next.
    pub(crate) fn due(&self) -> u64
        ensures { IsNextIn self.now.running.items result }
    {
        let mut due = u64::MAX;
        for reading in &self.running {
            due = due.min(reading.due());
        }
        due
    }
}

/// Whether no call is out at the thread at a place.
fn is_free(watched: &[Watched], place: usize) -> bool
    ensures free { result ≡ is_free watched.now place }
    ensures within { OnTrue result (place < length watched.now) }
{
    match watched.get(place) {
        Some(one) => one.out.is_none(),
        None => false,
    }
}

/// Ticks a reading whose tick is due.
fn tick(reading: &mut Running, watched: &[Watched], metrics: &mut Metrics, now: u64)
    ensures ticks { TicksIfDue now watched.now reading.old reading.new }
    ensures order { order_of reading.new ≡ order_of reading.old }
{
    let missed = reading.missed();
    if reading.tick(watched, now) {
        let more = reading.missed().saturating_sub(missed);
        metrics.ticks = metrics.ticks.saturating_add(1);
        metrics.missed = metrics.missed.saturating_add(u64::from(more));
    }
}

/// Ends a reading that is over.
fn end_if_over(reading: &mut Running, watched: &[Watched], metrics: &mut Metrics, now: u64)
    ensures ends { EndsIfOver now watched.now reading.old reading.new }
    ensures order { order_of reading.new ≡ order_of reading.old }
{
    if reading.is_over(now) {
        end(reading, watched, metrics, now);
    }
}

/// Ends a reading with what is there.
pub(crate) fn end(reading: &mut Running, watched: &[Watched], metrics: &mut Metrics, now: u64)
    ensures ends { EndsNow now watched.now reading.old reading.new }
    ensures order { order_of reading.new ≡ order_of reading.old }
{
    let missed = reading.missed();
    let no_room = reading.no_room();
    let owed = reading.end(watched, now);
    let more = reading.missed().saturating_sub(missed);
    metrics.count_no_room(reading.no_room().saturating_sub(no_room));
    metrics.missed = metrics.missed.saturating_add(u64::from(more));
    metrics.unanswered = metrics.unanswered.saturating_add(owed);
}

ghost use Rattle.std.specs.Prelude.{◌≡◌, ◌<◌, None, length, slice_get, IfSome, IfNone, OnOk, OnErr};
ghost use Rattle.std.specs.Bool.{OnTrue, OnFalse};
ghost use Rattle.ti_monitor.specs.Watching.{is_free};
ghost use Rattle.ti_monitor.specs.Monitors.{Begins, IsFull, order_of, orders_of, profiles_in, reading_in};
ghost use Rattle.ti_monitor.specs.Ticking.{EndsIfOver, EndsNow, TicksIfDue};
