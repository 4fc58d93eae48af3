//! The two ways to sample all threads once.
use crate::options::Options;
use crate::roots::Doing;
use crate::taken::Taken;
use std::alloc::Global;
use std::rt::Clock;
use std::sync::{Mutex, Wait};
use std::time::Duration;
use ti_service::{Agent, ServiceCalls, ServiceTries};
use ti_slot::Asked;
use ti_types::{Call, ThreadNo, TiError, Ticket};
use ti_vmop::VmTurn;

/// A thread has at most this many frames. All of them are read.
pub const DEPTH: u32 = 128;

/// How many frames of a thread are read at most.
const FRAMES: i32 = 128;

/// How many seconds it waits for each of the last answers.
const LAST: u64 = 1;

/// A stack that a running thread still has to give, and for how many samples it counts.
#[derive(Clone, Copy)]
struct Owed {
    ticket: Ticket,
    samples: u64,
}

/// A thread that is sampled, and the stack that it still has to give.
///
/// As long as it has to give one, it is not asked again. All samples that it misses would be answered at its next poll, with
/// the same stack.
#[derive(Clone, Copy)]
struct Target {
    thread: ThreadNo,
    owed: Option<Owed>,
}

impl Target {
    /// Takes the stack that the thread still has to give, and asks it again. If the stack is not there yet, it counts for one
    /// more sample. `None` if memory runs out.
    ///
    /// It waits for nobody. A thread that hands over may lose its processor just then, and others that want to run come first.
    fn sample(&mut self, alloc: Global, agent: &mut Agent, taken: &mut Taken) -> Option<()> {
        if let Some(Owed { ticket, samples }) = self.owed {
            let tried = agent.collect_now(ticket);
            agent.wake_sleepers_at(self.thread);
            let Ok(Some(answer)) = tried else {
                let samples = samples.saturating_add(1);
                self.owed = Some(Owed { ticket, samples });
                return Some(());
            };
            taken.add_answer(alloc, self.thread, Doing::Running, answer, samples)?;
        }
        self.owed = ask(alloc, agent, taken, self.thread)?;
        Some(())
    }

    /// Takes the stack that the thread still has to give. It waits for it at most a second. `None` if memory runs out.
    fn finish<R: Wait + Clock + AllocGlobal>(
        &self,
        rt: &R,
        agent: &mut Agent,
        taken: &mut Taken,
    ) -> Option<()> {
        let Some(Owed { ticket, samples }) = self.owed else {
            return Some(());
        };
        match agent.collect_within(rt, ticket, Duration::from_secs(LAST)) {
            Some(answer) => {
                taken.add_answer(rt.alloc(), self.thread, Doing::Running, answer, samples)
            }
            None => Some(()),
        }
    }
}

/// Asks a thread for its stack. One that is in native code or blocked answers at once, and has nothing more to give. So does
/// one that is not alive, which has no stack. One whose cell is in use is asked at the next sample. `None` if memory runs out.
fn ask(
    alloc: Global,
    agent: &mut Agent,
    taken: &mut Taken,
    thread: ThreadNo,
) -> Option<Option<Owed>> {
    let call = Call::Trace {
        start: 0,
        max_count: FRAMES,
    };
    let asked = agent.post_now(alloc, thread, call);
    agent.wake_sleepers_at(thread);
    match asked {
        Ok(Asked::Answered(answer)) => {
            taken.add_answer(alloc, thread, Doing::Away, answer, 1)?;
            Some(None)
        }
        Ok(Asked::Waiting(ticket)) => Some(Some(Owed { ticket, samples: 1 })),
        Err(TiError::ThreadNotAlive | TiError::Busy) => Some(None),
        Err(_) => None,
    }
}

/// An agent, the threads that it samples, and what the samples have brought.
#[derive(Drop)]
pub struct Sampler {
    agent: Agent,
    /// In the order of their numbers.
    targets: Vec<Target>,
    taken: Taken,
}

impl Sampler {
    /// It has met nobody yet. `None` if memory runs out.
    pub fn new(alloc: Global, agent: Agent, options: Options) -> Option<Sampler> {
        let taken = Taken::new(alloc, options)?;
        Some(Sampler {
            agent,
            targets: Vec::new(alloc),
            taken,
        })
    }

    /// Whether threads have come or gone since it last met them.
    pub fn has_news(&mut self) -> bool {
        self.agent.has_news()
    }

    /// Meets the threads that came, and lets go of those that were given back. What they still had to give is there, and is
    /// taken. `None` if memory runs out.
    pub fn meet<R: Wait + Clock + AllocGlobal>(&mut self, rt: &R) -> Option<()> {
        let threads = self.agent.get_all_threads(rt, rt.alloc()).ok()?;
        self.meet_all(rt, &threads)
    }

    /// Meets those of these threads that came, and lets go of all others.
    fn meet_all<R: Wait + Clock + AllocGlobal>(
        &mut self,
        rt: &R,
        threads: &[ThreadNo],
    ) -> Option<()> {
        for target in self.targets.iter() {
            if !threads.contains(&target.thread) {
                target.finish(rt, &mut self.agent, &mut self.taken)?;
            }
        }
        self.targets
            .retain(|target: &Target| threads.contains(&target.thread));
        self.agent.let_go_of_all(rt);
        self.agent.meet(rt, rt.alloc()).ok()?;
        for thread in threads.iter().skip(self.targets.len()) {
            let target = Target {
                thread: *thread,
                owed: None,
            };
            self.targets.push(target).ok()?;
        }
        Some(())
    }

    /// Takes one sample by handshakes: each thread is asked, and it waits for none. `None` if memory runs out.
    pub fn handshake(&mut self, alloc: Global) -> Option<()> {
        for target in self.targets.iter_mut() {
            target.sample(alloc, &mut self.agent, &mut self.taken)?;
        }
        Some(())
    }

    /// Takes one sample of all threads at one moment, at which all are standing. `None` if memory runs out.
    pub fn standing<R: Wait + AllocGlobal>(&mut self, rt: &R, turn: &Mutex<VmTurn>) -> Option<()> {
        let alloc = rt.alloc();
        let (infos, _round) = self
            .agent
            .get_all_stack_traces(rt, alloc, turn, FRAMES)
            .ok()?;
        for info in &infos {
            let doing = Doing::of_state(info.state);
            self.taken
                .add(alloc, info.thread, doing, info.frames.frames())?;
        }
        Some(())
    }

    /// Takes the stacks that threads still have to give. `None` if memory runs out.
    pub fn finish<R: Wait + Clock + AllocGlobal>(&mut self, rt: &R) -> Option<()> {
        for target in self.targets.iter() {
            target.finish(rt, &mut self.agent, &mut self.taken)?;
        }
        Some(())
    }

    /// What the samples have brought.
    pub fn into_taken(self) -> Taken {
        self.taken
    }
}
