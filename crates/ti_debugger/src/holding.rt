//! How threads are suspended and resumed, without a wait.

use crate::desk::Desk;
use crate::hold::{Hold, answered_by};
use crate::watched::Watched;
use std::alloc::Global;
use ti_jdwp::Posted;
use ti_service::Agent;
use ti_slot::Asked;
use ti_types::{Answer, Call, TiError};

/// How long a debugger waits for a suspension, in nanoseconds: one second.
const PATIENCE: u64 = 1_000_000_000;

/// Posts a suspension. `None` if the thread's cell is in use: then it is tried again soon.
fn post(alloc: Global, agent: &mut Agent, one: &mut Watched, now: u64) -> Option<Posted>
    ensures hold { IsPostedAs result one.old.hold one.new.hold }
    ensures answer { PostsAs result agent.old.env agent.new.env one.old.thread }
    ensures rest { one.new ≡ record one.old { hold = one.new.hold } }
    ensures home { agent.new.home ≡ agent.old.home }
{
    match agent.post_now(alloc, one.thread, Call::Suspend) {
        Ok(Asked::Answered(Answer::Done)) => {
            one.hold = Hold::Own;
            Some(Posted::Suspended)
        }
        Ok(Asked::Waiting(ticket)) => {
            one.hold = Hold::Out {
                ticket,
                until: now.saturating_add(PATIENCE),
                wanted: true,
            };
            Some(Posted::Suspended)
        }
        Ok(Asked::Answered(Answer::Refused(TiError::ThreadSuspended))) => {
            one.hold = Hold::Another;
            Some(Posted::ByAnother)
        }
        Ok(Asked::Answered(_)) => Some(Posted::NotAlive),
        Err(TiError::Busy) => None,
        Err(TiError::InvalidThread) => Some(Posted::Unknown),
        Err(_) => Some(Posted::NotAlive),
    }
}

/// Suspends a thread that the debugger does not suspend. `None` if its cell is in use.
fn suspend_at(alloc: Global, agent: &mut Agent, one: &mut Watched, now: u64) -> Option<Posted>
    ensures suspended { IsSuspendedAs result agent.old.env agent.new.env one.old one.new }
    ensures home { agent.new.home ≡ agent.old.home }
{
    if one.ended {
        return Some(Posted::NotAlive);
    }
    match one.hold.again(now.saturating_add(PATIENCE)) {
        Some(hold) => {
            one.hold = hold;
            Some(Posted::Suspended)
        }
        None => post(alloc, agent, one, now),
    }
}

/// Collects the answer to a suspension that is out.
fn collect_at(agent: &mut Agent, one: &mut Watched)
    ensures free { is_let_go one.old.hold ≡ true → is_let_go one.new.hold ≡ true }
    ensures rest { one.new ≡ record one.old { hold = one.new.hold } }
    ensures closed { is_open one.old.hold ≡ false → one.new ≡ one.old }
    ensures home { agent.new.home ≡ agent.old.home }
{
    let Hold::Out { ticket, wanted, .. } = one.hold else {
        return;
    };
    if let Ok(Some(answer)) = agent.collect_now(ticket) {
        one.hold = answered_by(&answer, wanted);
    }
}

/// Undoes a suspension that stands and is not wanted any more. If the thread's cell is in use, it is tried again soon. It gives
/// whether the thread was resumed.
fn undo_at(alloc: Global, agent: &mut Agent, one: &mut Watched) -> bool
    ensures resumed { result ≡ true → (one.old.hold ≡ Owed) × (one.new.hold ≡ Free) × Posts agent.old.env agent.new.env one.old.thread call.Resume (Answered answer.Done) }
    ensures free { is_let_go one.old.hold ≡ true → is_let_go one.new.hold ≡ true }
    ensures rest { one.new ≡ record one.old { hold = one.new.hold } }
    ensures closed { is_open one.old.hold ≡ false → one.new ≡ one.old }
    ensures home { agent.new.home ≡ agent.old.home }
{
    if !matches!(one.hold, Hold::Owed) {
        return false;
    }
    match agent.post_now(alloc, one.thread, Call::Resume) {
        Err(TiError::Busy) => false,
        Ok(Asked::Answered(Answer::Done)) => {
            one.hold = Hold::Free;
            true
        }
        _ => {
            one.hold = Hold::Free;
            false
        }
    }
}

/// Does what is open at a thread. It gives whether the thread was resumed.
fn settle_at(alloc: Global, agent: &mut Agent, one: &mut Watched) -> bool
    ensures free { is_let_go one.old.hold ≡ true → is_let_go one.new.hold ≡ true }
    ensures rest { one.new ≡ record one.old { hold = one.new.hold } }
    ensures closed { is_open one.old.hold ≡ false → one.new ≡ one.old }
    ensures home { agent.new.home ≡ agent.old.home }
{
    collect_at(agent, one);
    undo_at(alloc, agent, one)
}

/// Resumes a thread, as far as it can be now. It gives whether the thread was resumed.
fn resume_at(alloc: Global, agent: &mut Agent, one: &mut Watched) -> bool
    ensures resumed { IsResumed one.old one.new }
    ensures home { agent.new.home ≡ agent.old.home }
{
    one.hold = one.hold.let_go();
    settle_at(alloc, agent, one)
}

impl Desk {
    /// Suspends a thread, and says what came of it. `None` if the thread's cell is in use: then it is tried again soon.
    pub(crate) fn suspend(&mut self, thread: u32, now: u64) -> Option<Posted>
        ensures suspends { Suspends thread result self.old self.new }
        ensures rest { self.new ≡ record self.old { agent = self.new.agent; crowd = self.new.crowd } }
        ensures home { self.new.agent.home ≡ self.old.agent.home }
    {
        let Some(place) = self.crowd.place_of(thread) else {
            return Some(Posted::Unknown);
        };
        suspend_at(
            self.alloc,
            &mut self.agent,
            &mut self.crowd.list[place],
            now,
        )
    }

    /// Resumes a thread. What could not be undone is undone by `settle_all`.
    pub(crate) fn resume(&mut self, thread: u32)
        ensures resumes { Resumes thread self.old self.new }
        ensures rest { self.new ≡ record self.old { agent = self.new.agent; crowd = self.new.crowd; resumptions = self.new.resumptions } }
        ensures home { self.new.agent.home ≡ self.old.agent.home }
        ensures grows { self.old.resumptions ≤ self.new.resumptions }
    {
        let Some(place) = self.crowd.place_of(thread) else {
            return;
        };
        let resumed = resume_at(self.alloc, &mut self.agent, &mut self.crowd.list[place]);
        self.count_resumption(resumed);
    }

    /// Lets go of a thread: what was told of it is freed, and it is resumed.
    pub(crate) fn release(&mut self, thread: u32)
        ensures releases { Releases thread self.old self.new }
        ensures rest { Works self.old self.new }
    {
        self.forget(thread);
        self.resume(thread);
    }

    /// Counts a resumption, if it is one.
    fn count_resumption(&mut self, resumed: bool)
        ensures rest { self.new ≡ record self.old { resumptions = self.new.resumptions } }
        ensures grows { self.old.resumptions ≤ self.new.resumptions }
        ensures none { resumed ≡ false → self.new ≡ self.old }
        ensures one { resumed ≡ true → self.old.resumptions < 2 ^ 64 - 1 → self.new.resumptions ≡ self.old.resumptions + 1 }
    {
        self.resumptions = self.resumptions.saturating_add(u64::from(resumed));
    }

    /// Resumes all threads that the debugger suspends. What could not be undone is undone by `settle_all`.
    pub(crate) fn resume_all(&mut self)
        ensures free { NoneHeld self.new.crowd.list.items }
        ensures rest { Works self.old self.new }
    {
        for place in 0..self.crowd.list.len() {
            let resumed = resume_at(self.alloc, &mut self.agent, &mut self.crowd.list[place]);
            self.count_resumption(resumed);
        }
    }

    /// Collects the answers to suspensions, and undoes those that are not wanted any more.
    pub(crate) fn settle_all(&mut self)
        ensures free { NoneHeld self.old.crowd.list.items → NoneHeld self.new.crowd.list.items }
        ensures settled { AreSettled self.old.crowd.list.items self.new.crowd.list.items }
        ensures rest { self.new ≡ record self.old { agent = self.new.agent; crowd = self.new.crowd; resumptions = self.new.resumptions } }
        ensures home { self.new.agent.home ≡ self.old.agent.home }
        ensures grows { self.old.resumptions ≤ self.new.resumptions }
    {
        for place in 0..self.crowd.list.len() {
            let resumed = settle_at(self.alloc, &mut self.agent, &mut self.crowd.list[place]);
            self.count_resumption(resumed);
        }
    }

    /// Whether the debugger still waits for a suspension.
    pub(crate) fn is_awaiting(&self, now: u64) -> bool
        ensures { result ≡ any_awaited self.now.crowd.list.items now }
    {
        self.crowd
            .list
            .iter()
            .any(|one: &Watched| one.hold.is_awaited(now))
    }

    /// Whether a suspension is out, or is to be undone.
    pub(crate) fn is_open(&self) -> bool
        ensures { result ≡ any_open self.now.crowd.list.items }
    {
        self.crowd
            .list
            .iter()
            .any(|one: &Watched| one.hold.is_open())
    }
}

ghost use Rattle.std.specs.Prelude.{◌≡◌, ◌≤◌, ◌<◌, ◌+◌, ◌-◌, ◌^◌, true, false};
ghost use Rattle.ti_types.specs.declared.answer.Answer.TheVariants as answer;
ghost use Rattle.ti_types.specs.declared.call.Call.TheVariants as call;
ghost use Rattle.ti_slot.specs.declared.asked.Asked.TheVariants.{Answered};
ghost use Rattle.ti_agent.specs.Posts.{Posts};
ghost use Rattle.ti_debugger.specs.declared.hold.Hold.TheVariants.{Free, Owed};
ghost use Rattle.ti_debugger.specs.Crowds.{NoneHeld, any_awaited, any_open};
ghost use Rattle.ti_debugger.specs.Desks.{Works};
ghost use Rattle.ti_debugger.specs.Holding.{IsPostedAs, PostsAs, is_let_go, is_open};
ghost use Rattle.ti_debugger.specs.Serving.{Releases};
ghost use Rattle.ti_debugger.specs.Suspending.{AreSettled, IsResumed, IsSuspendedAs, Resumes, Suspends};
