//! Takes samples, one after another, until the sampling ends.
use crate::one_sample::Sampler;
use crate::options::{Options, Way};
use crate::shared::Shared;
use crate::taken::Taken;
use std::io;
use std::rt::Clock;
use std::sync::Wait;
use std::time::{Duration, Instant};
use ti_service::Agent;

/// The seconds between two lines about the progress.
const PROGRESS: u64 = 5;

/// The result of the sampling.
#[derive(Drop)]
pub struct Sampled {
    pub taken: Taken,
    /// How many samples were taken.
    pub samples: u64,
    /// How long it took, in milliseconds.
    pub millis: u64,
}

/// When to sample next, when to write a line about the progress, and when to end.
#[derive(Clone, Copy)]
struct Pace {
    began: Instant,
    interval: Duration,
    due: Duration,
    said: Duration,
    end: Duration,
}

impl Pace {
    fn new<R: Clock>(rt: &R, options: Options) -> Option<Pace> {
        let interval = Duration::from_micros(u64::from(options.interval));
        let end = match options.seconds {
            Some(seconds) => Duration::from_secs(u64::from(seconds)),
            None => Duration::MAX,
        };
        Some(Pace {
            began: Instant::now(rt).ok()?,
            interval,
            due: interval,
            said: Duration::ZERO,
            end,
        })
    }

    /// Waits until the next sample is due, and sets when the one after it is due. It gives the time since the beginning, or
    /// `None` if the sampling ends.
    fn next<R: Wait + Clock>(
        &mut self,
        rt: &R,
        shared: &Shared,
        workers: u32,
    ) -> io::Result<Option<Duration>> {
        for _ in rt.forever() {
            let passed = self.began.elapsed(rt)?;
            if passed >= self.end || shared.is_ended(workers) {
                return Ok(None);
            }
            if passed >= self.due {
                self.due = self.due.saturating_add(self.interval);
                return Ok(Some(passed));
            }
            shared.rest(rt, self.due.min(self.end).saturating_sub(passed));
        }
        unreachable!()
    }

    /// Whether a line about the progress is due.
    fn says(&mut self, passed: Duration) -> bool {
        let says = passed.saturating_sub(self.said) >= Duration::from_secs(PROGRESS);
        if says {
            self.said = passed;
        }
        says
    }

    /// The milliseconds since the beginning.
    fn millis<R: Clock>(&self, rt: &R) -> Option<u64> {
        let passed = self.began.elapsed(rt).ok()?;
        Some(u64::try_from(passed.as_millis()).unwrap_or(u64::MAX))
    }
}

/// Samples until the sampling ends, and tells the workers to stop. `None` if memory runs out, the clock can't be read, or a
/// line cannot be written.
pub fn sample<R: Wait + Clock + Eprint + AllocGlobal>(
    rt: &R,
    shared: &Shared,
    agent: Agent,
    options: Options,
) -> Option<Sampled> {
    let sampled = sample_on(rt, shared, agent, options);
    shared.stop();
    sampled
}

/// Samples until the sampling ends, as `sample` does, but does not tell the workers.
fn sample_on<R: Wait + Clock + Eprint + AllocGlobal>(
    rt: &R,
    shared: &Shared,
    agent: Agent,
    options: Options,
) -> Option<Sampled> {
    let mut sampler = Sampler::new(rt.alloc(), agent, options)?;
    let (samples, millis) = sample_all(rt, shared, &mut sampler, options)?;
    Some(Sampled {
        taken: sampler.into_taken(),
        samples,
        millis,
    })
}

/// Takes one sample after another until the sampling ends, and the stacks that threads still have to give. It gives how many
/// samples, and how many milliseconds it took.
fn sample_all<R: Wait + Clock + Eprint + AllocGlobal>(
    rt: &R,
    shared: &Shared,
    sampler: &mut Sampler,
    options: Options,
) -> Option<(u64, u64)> {
    sampler.meet(rt)?;
    let mut pace = Pace::new(rt, options)?;
    let most = match options.samples {
        Some(samples) => u64::from(samples),
        None => u64::MAX,
    };
    let mut samples: u64 = 0;
    for _ in 0..most {
        let Some(passed) = pace.next(rt, shared, options.threads).ok()? else {
            break;
        };
        take_one(rt, shared, sampler, options.way)?;
        samples = samples.saturating_add(1);
        if pace.says(passed) {
            eprintln!(rt; "tiprof: {samples} samples").ok()?;
        }
    }
    sampler.finish(rt)?;
    Some((samples, pace.millis(rt)?))
}

/// Takes one sample. It meets the threads that came first.
fn take_one<R: Wait + Clock + AllocGlobal>(
    rt: &R,
    shared: &Shared,
    sampler: &mut Sampler,
    way: Way,
) -> Option<()> {
    if sampler.has_news() {
        sampler.meet(rt)?;
    }
    match way {
        Way::Handshake => sampler.handshake(rt.alloc()),
        Way::Standing => sampler.standing(rt, shared.turn()),
    }
}
