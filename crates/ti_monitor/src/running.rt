//! A reading that goes on, or has ended and was not taken yet.

use crate::account::Account;
use crate::label::label_at;
use crate::monitor::ReadingNo;
use crate::reading::Order;
use crate::schedule::Schedule;
use crate::stack::{Stack, bare};
use crate::ticking::tick_at_all;
use crate::watched::Watched;
use std::alloc::{AllocError, Global};
use ti_http::Labels;
use ti_pprof::{Counts, Unit};

/// How long the stacks of the last tick may take, in nanoseconds.
const PATIENCE: u64 = 50_000_000;

/// The nanoseconds of a second.
const SECOND: u64 = 1_000_000_000;

/// For how many frames and samples a reading of threads has room, and for how many a profile.
const ROOM_ONCE: u32 = 65_536;

const ROOM_OVER: u32 = 262_144;

/// A reading that goes on, or has ended.
#[derive(Drop)]
pub(crate) struct Running {
    pub(crate) no: ReadingNo,
    pub(crate) order: Order,
    /// When it began, in nanoseconds, and in nanoseconds since 1970.
    pub(crate) began: u64,
    pub(crate) unix: u64,
    /// When its last tick has come.
    over: u64,
    /// When it ended.
    ended: Option<u64>,
    schedule: Schedule,
    account: Account,
    ghost period: { 0 < schedule.period },
    ghost bounded: { schedule.ticks + (schedule.missed + schedule.left) < 2 ^ 32 },
    ghost settled: { is_some ended ≡ true → account.counts.total ≡ account.thread_ticks },
}

/// The nanoseconds between two ticks, how many ticks there are, and the nanoseconds that they take.
#[tactic(auto, using(crate::proofs::Sums::count_within))]
fn plan(order: Order) -> (u64, u32, u64)
    ensures plan { result ≡ (period_of order, ticks_of order, length_of order) }
    ensures few { result.1 ≤ 300000 }
{
    match order {
        Order::Once => (1, 1, 0),
        Order::Over { seconds, rate, .. } => {
            let seconds = seconds.clamp(1, 300);
            let rate = rate.clamp(1, 1_000);
            let count = u32::from(seconds) * u32::from(rate);
            (SECOND / u64::from(rate), count, u64::from(seconds) * SECOND)
        }
    }
}

/// For how many frames and samples a reading has room.
fn room(order: Order) -> u32
    ensures { result ≡ room_of order }
{
    match order {
        Order::Once => ROOM_ONCE,
        Order::Over { .. } => ROOM_OVER,
    }
}

/// Whether a reading over some seconds is asked for.
pub(crate) fn is_profile(order: Order) -> bool
    ensures { OnTrue result (profile_count order ≡ 1) × OnFalse result (profile_count order ≡ 0) }
{
    match order {
        Order::Once => false,
        Order::Over { .. } => true,
    }
}

impl Running {
    ghost use Rattle.ti_monitor.specs.Counted.{CountsLost, CountsStack, TakesBackAt, waits_for};
    ghost use Rattle.ti_monitor.specs.Accounts.{HasRoom};
    ghost use Rattle.ti_monitor.specs.Orders.{labels_in};
    ghost use Rattle.ti_monitor.specs.Deadlines.{IsNextOf, waits_at_all};
    ghost use Rattle.ti_monitor.specs.Ticking.{EndsNow, IsNew, TicksIfDue, is_over, is_to_tick, late_of};

    /// A reading that begins now. The error is lack of memory.
    pub(crate) fn new(
        alloc: Global,
        no: ReadingNo,
        order: Order,
        now: u64,
        unix: u64,
    ) -> Result<Running, AllocError>
        ensures no { IfOk result (λ r. r.no ≡ no) }
        ensures new { IfOk result (λ r. IsNew order now unix r) }
        ensures room { IfOk result (λ r. HasRoom (room_of order) r.account) }
    {
        let (period, count, length) = plan(order);
        Ok(Running {
            no,
            order,
            began: now,
            unix,
            over: now.saturating_add(length),
            ended: None,
            schedule: Schedule::new(now, period, count),
            account: Account::new(alloc, room(order))?,
        })
    }

    /// Which labels its samples have.
    fn labels(&self) -> Labels
        ensures { result ≡ labels_in self.now.order }
    {
        match self.order {
            Order::Once => Labels::ThreadAndState,
            Order::Over { labels, .. } => labels,
        }
    }

    /// What each of its stacks stands for.
    pub(crate) fn unit(&self) -> Unit {
        match self.order {
            Order::Once => Unit::Threads,
            Order::Over { .. } => Unit::Wall {
                period: self.schedule.period,
            },
        }
    }

    /// Whether it has ended.
    pub(crate) fn has_ended(&self) -> bool
        ensures { result ≡ is_some self.now.ended }
    {
        self.ended.is_some()
    }

    /// How long it took, in nanoseconds.
    pub(crate) fn duration(&self) -> u64 {
        self.ended.unwrap_or(self.began).saturating_sub(self.began)
    }

    /// What it counted.
    pub(crate) fn account(&self) -> &Account {
        &self.account
    }

    /// How many ticks were taken.
    pub(crate) fn ticks(&self) -> u32 {
        self.schedule.ticks
    }

    /// How many ticks came too late.
    pub(crate) fn missed(&self) -> u32 {
        self.schedule.missed
    }

    /// Samples for which there was no room.
    pub(crate) fn no_room(&self) -> u64 {
        self.account.no_room()
    }

    /// When it ends though stacks are owed.
    fn late(&self) -> u64
        ensures { result ≡ late_of self.now }
    {
        self.over.saturating_add(PATIENCE)
    }

    /// When it has something to do next.
    pub(crate) fn due(&self) -> u64
        ensures { IsNextOf self.now result }
    {
        if self.has_ended() {
            u64::MAX
        } else if self.schedule.left > 0 {
            self.schedule.next.min(self.late())
        } else if self.account.outstanding() == 0 {
            self.over
        } else {
            self.late()
        }
    }

    /// Whether stacks are owed.
    pub(crate) fn waits(&self) -> bool
        ensures { result ≡ waits_at_all self.now }
    {
        !self.has_ended() && self.account.outstanding() > 0
    }

    /// Whether a stack of the thread at a place is owed.
    pub(crate) fn waits_for(&self, place: usize) -> bool
        ensures { result ≡ waits_for place self.now }
    {
        !self.has_ended() && self.account.owed_at(place) > 0
    }

    /// Ticks, if that is due. It gives whether it does.
    pub(crate) fn tick(&mut self, watched: &[Watched], now: u64) -> bool
        ensures due { result ≡ is_to_tick now self.old }
        ensures ticks { TicksIfDue now watched.now self.old self.new }
        ensures no { self.new.no ≡ self.old.no }
        ensures order { self.new.order ≡ self.old.order }
    {
        if self.has_ended() || !self.schedule.take(now) {
            return false;
        }
        tick_at_all(&mut self.account, watched);
        true
    }

    /// Counts the stack of a place as often as it is owed. It gives how often that was.
    pub(crate) fn answer(&mut self, place: usize, stack: &Stack, watched: &[Watched]) -> u64
        ensures counts { CountsStack place stack.now.frames.items watched.now self.old self.new }
        ensures no { self.new.no ≡ self.old.no }
        ensures order { self.new.order ≡ self.old.order }
    {
        if self.has_ended() {
            return 0;
        }
        let label = label_at(watched, place, self.labels());
        self.account.answer(place, stack, label)
    }

    /// Counts the frame of a function as often as stacks are owed at a place. It gives how often that was.
    pub(crate) fn lose(&mut self, place: usize, function: u32, watched: &[Watched]) -> u64
        ensures counts { CountsLost place function watched.now self.old self.new }
        ensures no { self.new.no ≡ self.old.no }
        ensures order { self.new.order ≡ self.old.order }
    {
        if self.has_ended() {
            return 0;
        }
        let label = label_at(watched, place, self.labels());
        self.account.lose(place, bare(function), label)
    }

    /// Takes back the ticks at a place, whose thread is not alive.
    pub(crate) fn take_back(&mut self, place: usize)
        ensures takes { TakesBackAt place self.old self.new }
        ensures no { self.new.no ≡ self.old.no }
        ensures order { self.new.order ≡ self.old.order }
    {
        if self.has_ended() {
            return;
        }
        self.account.take_back(place);
    }

    /// Whether it is to end: its time has passed, and no stack is owed, or the patience is over.
    pub(crate) fn is_over(&self, now: u64) -> bool
        ensures { result ≡ is_over now self.now }
    {
        let is_done = self.schedule.left == 0 && self.account.outstanding() == 0;
        let is_late = now >= self.late();
        !self.has_ended() && now >= self.over && (is_done || is_late)
    }

    /// Ends it with what is there. It gives how many stacks were owed.
    pub(crate) fn end(&mut self, watched: &[Watched], now: u64) -> u64
        ensures ends { EndsNow now watched.now self.old self.new }
        ensures no { self.new.no ≡ self.old.no }
        ensures order { self.new.order ≡ self.old.order }
    {
        if self.has_ended() {
            return 0;
        }
        self.schedule.close();
        let kept = self.labels();
        let owed = self.account.settle(watched, kept);
        self.ended = Some(now);
        owed
    }

    /// What was counted.
    pub(crate) fn into_counts(self) -> Counts
        ensures counts { result ≡ self.account.counts }
        ensures all { is_some self.ended ≡ true → result.total ≡ self.account.thread_ticks }
    {
        self.account.into_counts()
    }
}

ghost use Rattle.std.specs.Prelude.{◌≡◌, ◌<◌, ◌≤◌, ◌+◌, ◌^◌, true, is_some, IfOk};
ghost use Rattle.std.specs.Bool.{OnTrue, OnFalse};
ghost use Rattle.ti_monitor.specs.Orders.{length_of, period_of, profile_count, room_of, ticks_of};
