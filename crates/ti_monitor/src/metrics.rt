//! What a monitor has counted.

use crate::state::STATES;
use crate::watched::Watched;

/// The upper bounds of a histogram's buckets, in nanoseconds.
pub const BOUNDS: [u64; 13] = [
    10_000,
    30_000,
    100_000,
    300_000,
    1_000_000,
    3_000_000,
    10_000_000,
    30_000_000,
    100_000_000,
    300_000_000,
    1_000_000_000,
    3_000_000_000,
    10_000_000_000,
];

/// How many times were at most each of `BOUNDS`, and how many there were.
#[derive(Clone, Copy, Debug, PartialEq, Eq)]
pub struct Histogram {
    pub within: [u64; 13],
    /// The sum of the times, in nanoseconds.
    pub sum: u64,
    pub count: u64,
}

impl Histogram {
    /// No time yet.
    pub fn new() -> Histogram
        ensures within { (k : ℕ) → k < 13 → get_or result.within k 0 ≡ 0 }
        ensures sum { result.sum ≡ 0 }
        ensures count { result.count ≡ 0 }
    {
        Histogram {
            within: [0; 13],
            sum: 0,
            count: 0,
        }
    }

    /// Counts a time of so many nanoseconds. Each number stays at 2^64 - 1 once it is there.
    pub fn add(&mut self, nanos: u64)
        ensures within { (k : ℕ) → k < 13 → get_or self.new.within k 0 ≡ bucket_with (get_or BOUNDS k 0) (get_or self.old.within k 0) nanos }
        ensures sum { self.new.sum ≡ added self.old.sum nanos }
        ensures count { self.new.count ≡ added self.old.count 1 }
    {
        for place in 0..BOUNDS.len() {
            self.within[place] = with_time(BOUNDS[place], self.within[place], nanos);
        }
        self.sum = self.sum.saturating_add(nanos);
        self.count = self.count.saturating_add(1);
    }
}

/// A bucket with this bound and this count, after one more time.
fn with_time(bound: u64, count: u64, nanos: u64) -> u64
    ensures { result ≡ bucket_with bound count nanos }
{
    if nanos <= bound {
        count.saturating_add(1)
    } else {
        count
    }
}

/// How many threads are there, in the state of this place.
fn count_in(watched: &[Watched], place: usize) -> u64
    ensures { result ≡ count_by (is_in_state place) watched.now }
{
    let mut count = 0;
    for one in watched {
        if !one.gone && one.state() == place {
            count += 1;
        }
    }
    count
}

/// How many threads are there, and suspended.
fn count_held(watched: &[Watched]) -> u64
    ensures { result ≡ count_by is_held watched.now }
{
    let mut count = 0;
    for one in watched {
        if !one.gone && one.is_suspended() {
            count += 1;
        }
    }
    count
}

/// How long the call that is out at a thread has been, in nanoseconds. 0 if none is.
fn age_of(one: &Watched, now: u64) -> u64
    ensures { result ≡ age_of now one.now.out }
{
    match one.out {
        Some(out) => now.saturating_sub(out.since),
        None => 0,
    }
}

/// How long the oldest call that is out at a thread has been, in nanoseconds. 0 if none is.
fn oldest_call(watched: &[Watched], now: u64) -> u64
    ensures { result ≡ oldest_call now watched.now }
{
    let mut oldest = 0;
    for one in watched {
        oldest = oldest.max(age_of(one, now));
    }
    oldest
}

/// What a monitor has counted since it began. A counter stays at 2^64 - 1 once it is there.
#[derive(Clone, Copy, Debug, PartialEq, Eq)]
pub struct Metrics {
    /// The threads that are there, by state.
    pub threads: [u64; STATES],
    /// How many of them are suspended.
    pub suspended: u64,
    /// Threads that were attached, those that were there at first among them, and threads that were given back.
    pub attached: u64,
    pub detached: u64,
    /// Events of threads that were overwritten before the monitor was told.
    pub events_lost: u64,
    /// How often threads that were met have handed over, in native code, blocked or at a poll.
    pub hand_overs: u64,
    /// The time that threads were in each state, in nanoseconds, by probes.
    pub state_time: [u64; STATES],
    /// The time that threads were suspended, in nanoseconds, by probes.
    pub suspended_time: u64,
    /// From a call at a running thread to its answer.
    pub answers: Histogram,
    /// Calls of the monitor that were posted and not collected.
    pub calls_out: u64,
    /// How long the oldest of them has been out, in nanoseconds. 0 if none is.
    pub oldest_call: u64,
    /// Profiles that were begun.
    pub profiles: u64,
    /// Ticks of all profiles, and those that came too late to be taken.
    pub ticks: u64,
    pub missed: u64,
    /// Samples by what came of them: a stack at the tick itself, one that came later, and none.
    pub at_once: u64,
    pub late: u64,
    pub unanswered: u64,
    /// Samples for which a reading had no room. They count as one of these too.
    pub no_room: u64,
}

impl Metrics {
    /// Nothing counted yet.
    pub(crate) fn new() -> Metrics {
        Metrics {
            threads: [0; STATES],
            suspended: 0,
            attached: 0,
            detached: 0,
            events_lost: 0,
            hand_overs: 0,
            state_time: [0; STATES],
            suspended_time: 0,
            answers: Histogram::new(),
            calls_out: 0,
            oldest_call: 0,
            profiles: 0,
            ticks: 0,
            missed: 0,
            at_once: 0,
            late: 0,
            unanswered: 0,
            no_room: 0,
        }
    }

    /// Takes the states of the threads that are there, after so many nanoseconds.
    pub(crate) fn take_states(&mut self, watched: &[Watched], passed: u64)
        ensures states { CountsStates self.old self.new watched.now passed }
        ensures others { KeepsOthers self.old self.new }
    {
        for place in 0..STATES {
            let count = count_in(watched, place);
            self.threads[place] = count;
            self.state_time[place] = self.state_time[place].saturating_add(count.saturating_mul(
                passed,
            ));
        }
        self.suspended = count_held(watched);
        self.suspended_time = self
            .suspended_time
            .saturating_add(self.suspended.saturating_mul(passed));
    }

    /// Counts so many more samples for which a reading had no room.
    pub(crate) fn count_no_room(&mut self, count: u64)
        ensures { self.new ≡ record self.old { no_room = added self.old.no_room count } }
    {
        self.no_room = self.no_room.saturating_add(count);
    }

    /// Takes how many calls are out, and how long the oldest one has been.
    pub(crate) fn take_calls(&mut self, watched: &[Watched], now: u64)
        ensures { self.new ≡ with_calls self.old (count_by has_call watched.now) (oldest_call now watched.now) }
    {
        let mut count = 0;
        for one in watched {
            if one.out.is_some() {
                count += 1;
            }
        }
        self.calls_out = count;
        self.oldest_call = oldest_call(watched, now);
    }
}

ghost use Rattle.std.specs.Prelude.{◌≡◌, ◌<◌, ℕ, count_by, get_or};
ghost use Rattle.ti_monitor.specs.Counters.{CountsStates, KeepsOthers, with_calls};
ghost use Rattle.ti_monitor.specs.Watching.{age_of, has_call, is_held, is_in_state, oldest_call};
ghost use Rattle.ti_monitor.specs.Histograms.{added, bucket_with};
