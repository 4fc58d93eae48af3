//! Calls with a deadline, and calls that are cancelled.

use crate::env::Env;
use crate::home::Home;
use std::alloc::Global;
use std::rt::Clock;
use std::sync::Wait;
use std::time::Duration;
use ti_cell::Pace;
use ti_handshake::Discarded;
use ti_types::{Answer, Call, ThreadNo, TiError, Ticket, TraceBuf};

impl<H: Home> Env<H> {
    /// Cancels a call that was posted and not collected, by one hold (this profile). The call still takes place when the
    /// thread reaches it: a suspension suspends, a pop pops. It is out until `discard_now` discards its answer.
    ///
    /// A ticket that is not out at this environment, or was cancelled before, is left as it is. 110 OUT_OF_MEMORY if there is
    /// no memory to note that the call was cancelled. Then nothing changes.
    pub fn cancel<R: Wait>(&mut self, rt: &R, alloc: Global, ticket: Ticket) -> Result<(), TiError>
        ensures cancels { OnOk result (place_in self.old.env.desks ticket.thread < length self.old.env.desks → Cancels self.old.env self.new.env ticket) }
        ensures nobody { OnOk result (length self.old.env.desks ≤ place_in self.old.env.desks ticket.thread → self.new ≡ self.old) }
        ensures memory { IfErr result (λ e. e ≡ OutOfMemory) }
        ensures unchanged { OnErr result (self.new ≡ self.old) }
        ensures home { self.new.home ≡ self.old.home }
    {
        let pace = Pace::new();
        for _ in rt.forever() {
            match self.cancel_now(alloc, ticket) {
                Err(TiError::Busy) => self.await_free_at(rt, ticket.thread, &pace),
                result => {
                    self.wake_sleepers_at(ticket.thread);
                    return result;
                }
            }
        }
        unreachable!()
    }

    /// Discards the answer to the call that was cancelled first at the thread at this place, where there is a desk, if the answer is there.
    fn discard_at<R: Wait>(
        &mut self,
        rt: &R,
        thread: ThreadNo,
        place: ThreadNo,
    ) -> Option<Discarded>
        requires place { place ≡ place_of self.old.env.desks thread }
        requires there { place_in self.old.env.desks thread < length self.old.env.desks }
        ensures discards { DiscardsAt self.old.env self.new.env thread (is_some result) }
        ensures tells { IfSome result (λ r. TellsDiscardedAt self.old.env self.new.env thread r.ticket (said r.answer)) }
        ensures home { self.new.home ≡ self.old.home }
    {
        let _thread = thread;
        self.desks[place.0 as usize].discard(rt)
    }

    /// Asks the thread at this place an admitted call for which there is room, and waits for its answer for at most this
    /// time. The buffer has just the room that the call takes.
    fn ask_one_within<R: Wait + Clock>(
        &mut self,
        rt: &R,
        alloc: Global,
        thread: ThreadNo,
        place: ThreadNo,
        call: Call,
        buf: TraceBuf,
        time: Duration,
    ) -> Answer
        requires place { place ≡ place_of self.old.env.desks thread }
        requires admitted { thread_refusal self.old.env thread call ≡ None }
        requires room { (waits call && is_full self.old.env thread) ≡ false }
        requires buf { IsJustBufferOf self.old.env.state.limits call buf }
        ensures comes { ComesTo self.old.env self.new.env thread call (said result) }
        ensures kind { IsKind call (said result) }
        ensures home { self.new.home ≡ self.old.home }
    {
        let _thread = thread;
        let answer = match self.desks[place.0 as usize].call_within(rt, alloc, call, buf, time) {
            Ok(answer) => answer,
            Err(error) => return Answer::Refused(error),
        };
        self.state.spend(place);
        answer.unwrap_or(Answer::Refused(TiError::TimedOut))
    }

    /// Asks the thread a call, and waits for its answer for at most this time.
    pub(crate) fn ask_within<R: Wait + Clock>(
        &mut self,
        rt: &R,
        alloc: Global,
        thread: ThreadNo,
        call: Call,
        time: Duration,
    ) -> Answer
        ensures called { IsCalledWithin self.old.env self.new.env thread call (said result) }
        ensures kind { IsKind call (said result) }
        ensures home { self.new.home ≡ self.old.home }
    {
        let place = match self.admit(thread, call) {
            Ok(place) => place,
            Err(error) => return Answer::Refused(error),
        };
        drop(self.discard_at(rt, thread, place));
        match self.room_for(alloc, thread, place, call) {
            Ok(buf) => self.ask_one_within(rt, alloc, thread, place, call, buf, time),
            Err(error) => Answer::Refused(error),
        }
    }
}

ghost use Rattle.std.specs.Prelude.{◌≡◌, ◌<◌, ◌≤◌, ◌&&◌, false, is_some, length, None, IfSome, IfErr, OnOk, OnErr};
ghost use Rattle.ti_types.specs.Answer.{said};
ghost use Rattle.ti_types.specs.declared.error.TiError.TheVariants.{OutOfMemory};
ghost use Rattle.ti_replay.specs.Settling.{waits};
ghost use Rattle.ti_agent.specs.Buffers.{IsJustBufferOf};
ghost use Rattle.ti_agent.specs.Env.{place_in, place_of, thread_refusal, is_full};
ghost use Rattle.ti_agent.specs.Asks.{IsKind};
ghost use Rattle.ti_agent.specs.Deadlines.{Cancels, DiscardsAt, TellsDiscardedAt, ComesTo, IsCalledWithin};
