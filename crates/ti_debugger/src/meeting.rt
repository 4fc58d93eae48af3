//! How threads are met and let go of, and what happens to them.

use crate::desk::Desk;
use crate::status::life_of;
use crate::watched::{Life, Watched};
use std::alloc::Global;
use ti_service::{Agent, Event, EventKind, LifeEvent, LifeKind, ServiceTries, ThreadInfo};
use ti_slot::Asked;
use ti_types::{Answer, Call, ThreadNo, TiError};

/// How often threads are met if nothing is new, in nanoseconds.
const LOOK: u64 = 100_000_000;

/// After which time a meeting that could not be is tried again.
const SOON: u64 = 1_000_000;

/// Enables the events that a debugger is told, as far as they are not. The error is 215 `Busy` if the roster is in use: then some of them
/// may be enabled.
pub(crate) fn enable_events(agent: &mut Agent) -> Result<(), TiError> {
    agent.set_event_notification_mode_now(EventKind::ThreadStart, true)?;
    agent.set_event_notification_mode_now(EventKind::ThreadEnd, true)?;
    agent.set_event_notification_mode_now(EventKind::ThreadDetached, true)
}

/// How far a thread's life is. A thread that does not say so counts as a new one.
///
/// The error is 110 OUT_OF_MEMORY, or 215 `Busy` if its cell is in use.
fn life_at(alloc: Global, agent: &mut Agent, thread: ThreadNo) -> Result<Life, TiError> {
    match agent.post_now(alloc, thread, Call::State) {
        Ok(Asked::Answered(Answer::State(bits))) => Ok(life_of(bits)),
        Ok(Asked::Answered(Answer::Refused(error @ TiError::OutOfMemory))) => Err(error),
        Ok(Asked::Answered(_)) => Ok(Life::New),
        Ok(Asked::Waiting(ticket)) => {
            let _it_goes_with_the_agent = agent.cancel_now(alloc, ticket);
            Ok(Life::New)
        }
        Err(error @ (TiError::OutOfMemory | TiError::Busy)) => Err(error),
        Err(_) => Ok(Life::Ended),
    }
}

/// A thread that was just met, with its name. One that was given back meanwhile has no name.
///
/// The error is 110 OUT_OF_MEMORY, or 215 `Busy` if the roster or its cell is in use.
fn watched_at(alloc: Global, agent: &mut Agent, thread: ThreadNo) -> Result<Watched, TiError> {
    match agent.get_thread_info_now(alloc, thread) {
        Ok(ThreadInfo { name, .. }) => {
            let life = life_at(alloc, agent, thread)?;
            Ok(Watched::new(thread, name, life))
        }
        Err(error @ (TiError::OutOfMemory | TiError::Busy)) => Err(error),
        Err(_) => {
            let mut watched = Watched::new(thread, String::new(alloc), Life::Ended);
            watched.ended = true;
            Ok(watched)
        }
    }
}

/// Whether a thread was given back, so far as that is known.
fn is_given_back(alloc: Global, agent: &mut Agent, one: &Watched) -> bool {
    one.ended
        || matches!(
            agent.get_thread_info_now(alloc, one.thread),
            Err(TiError::InvalidThread | TiError::ThreadNotAlive)
        )
}

/// Lets go of a thread, if it was given back and no call is out there. The agent may have let go of it before, by a meeting that had no
/// room. False if the roster is in use.
fn let_go_at(alloc: Global, agent: &mut Agent, one: &mut Watched) -> bool {
    let Ok(gone) = agent.let_go_now(one.thread) else {
        return false;
    };
    if gone || (agent.out_at(one.thread) == 0 && is_given_back(alloc, agent, one)) {
        one.gone = true;
        one.ended = true;
        one.life = Life::Ended;
    }
    true
}

/// Looks again how far a thread's life is. False if its cell is in use, or there is no memory.
fn look_again(alloc: Global, agent: &mut Agent, one: &mut Watched) -> bool {
    match life_at(alloc, agent, one.thread) {
        Ok(life) => {
            one.life = life;
            true
        }
        Err(_) => false,
    }
}

/// Lets go of those that have ended, or looks at all of them. Whether all have to be looked at again, since the roster is in use.
fn let_go_of(alloc: Global, agent: &mut Agent, list: &mut [Watched], all: bool) -> bool {
    let mut again = false;
    for one in list.iter_mut() {
        if !one.gone && (one.ended || all) && !let_go_at(alloc, agent, one) {
            again = again || all;
        }
        if all && !one.ended && !look_again(alloc, agent, one) {
            again = true;
        }
    }
    again
}

impl Desk {
    /// Meets threads, if that is due or there is news.
    pub(crate) fn meet_if_due(&mut self, now: u64)
        ensures { Watches self.old self.new }
    {
        if !self.agent.has_news() && now < self.next_meeting {
            return;
        }
        let is_met = self.meet();
        self.next_meeting = now.saturating_add(if is_met { LOOK } else { SOON });
    }

    /// Meets the threads that came, and lets go of those that were given back. False if the roster is in use.
    fn meet(&mut self) -> bool
        ensures { Watches self.old self.new }
    {
        let enabled = enable_events(&mut self.agent);
        let met = self.agent.meet_now(self.alloc);
        let watched = self.watch_new();
        self.let_go_of_ended();
        enabled.is_ok() && met != Err(TiError::Busy) && watched
    }

    /// The index of the first desk of the agent's that is at a thread behind all that are watched.
    fn first_new(&self) -> u32 {
        let mut index = self.agent.desk_count();
        let Some(last) = self.crowd.last() else {
            return 0;
        };
        while index > 0 {
            match self.agent.thread_at(index - 1) {
                Some(thread) if thread.0 > last.0 => index -= 1,
                _ => break,
            }
        }
        index
    }

    /// Watches the threads that the agent has met since the last time, as far as there is room and memory. False if the roster is in
    /// use.
    fn watch_new(&mut self) -> bool
        ensures { Watches self.old self.new }
    {
        for index in self.first_new()..self.agent.desk_count() {
            let Some(thread) = self.agent.thread_at(index) else {
                return true;
            };
            match watched_at(self.alloc, &mut self.agent, thread) {
                Ok(one) => {
                    if !self.crowd.add(one) {
                        return true;
                    }
                }
                Err(error) => return error != TiError::Busy,
            }
        }
        true
    }

    /// Lets go of threads that were given back, so that their memory is freed. If ends of threads were lost, it looks at each thread.
    fn let_go_of_ended(&mut self)
        ensures { Watches self.old self.new }
    {
        self.lost = let_go_of(
            self.alloc,
            &mut self.agent,
            self.crowd.list.as_mut_slice(),
            self.lost,
        );
    }

    /// The next event of a thread's life that is to be told. `None` if there is none, or if the roster is in use.
    pub(crate) fn next_life(&mut self) -> Option<LifeEvent>
        ensures { Watches self.old self.new }
    {
        let Ok(Some(next)) = self.agent.next_event_now() else {
            return None;
        };
        if next.lost > 0 {
            self.lost = true;
        }
        let Event::Life(life) = next.event else {
            return None;
        };
        self.note_life(life);
        Some(life)
    }

    /// Notes that a thread has started or ended, or was given back.
    fn note_life(&mut self, life: LifeEvent)
        ensures { Watches self.old self.new }
    {
        if let Some(place) = self.crowd.place_of(life.thread.0) {
            let one = &mut self.crowd.list[place];
            match life.kind {
                LifeKind::ThreadStart => one.life = one.life.once_started(),
                LifeKind::ThreadEnd => one.life = Life::Ended,
                LifeKind::ThreadDetached => {
                    one.life = Life::Ended;
                    one.ended = true;
                }
                LifeKind::ThreadAttached => (),
            }
        }
    }
}

ghost use Rattle.ti_debugger.specs.Desks.{Watches};
