//! The stops of a desk: it stops a thread, reads it, and lets it go.

use crate::desk::Desk;
use crate::retries::until_free;
use std::sync::Wait;
use ti_cell::Pace;
use ti_types::{Answer, EnvNo, TraceBuf};

impl Desk {
    /// Stops the thread. It waits while another environment's stop is in force. It costs one call in all. The thread runs on
    /// to its next hand-over, and may not start or return (this profile).
    ///
    /// Refused with `AlreadyStopped` (211) if this environment's stop is in force, and only then (this profile). Then
    /// nothing changes.
    pub fn stop<R: Wait>(&mut self, rt: &R) -> Answer
        requires calls { calls_spent self.old.env self.old.view.mine < self.old.view.subject.limits.calls }
        ensures same { IsSame self.old self.new }
        ensures hold { Waits self.old.view self.new.view (if_none (stop_refusal self.old self.new) (entry.Stop self.old.env ∷ [])) }
        ensures answer { said result ≡ done_or (stop_refusal self.old self.new) }
        ensures waited { is_anothers self.old.env (there_found self.old self.new).stopper ≡ false }
    {
        self.facts();
        for _ in rt.forever() {
            if let Some(answer) = self.stop_unless_others(rt) {
                return answer;
            }
            self.await_news(rt);
        }
        unreachable!()
    }

    /// Stops the thread in one hold. It costs one call if it is not refused.
    ///
    /// Refused with `AlreadyStopped` (211) if any stop is in force, this environment's own too (this profile). Then nothing
    /// changes.
    pub fn try_stop<R: Wait>(&mut self, rt: &R) -> Answer
        requires calls { calls_spent self.old.env self.old.view.mine < self.old.view.subject.limits.calls }
        ensures same { IsSame self.old self.new }
        ensures hold { Holds self.old.view self.new.view (if_none (stop_refusal self.old self.new) (entry.Stop self.old.env ∷ [])) }
        ensures answer { said result ≡ done_or (stop_refusal self.old self.new) }
    {
        until_free!(self, rt, self.stop_now())
    }

    /// Stops the thread in one hold, unless another environment's stop is in force. Then nothing changes, and there is no
    /// answer.
    fn stop_unless_others<R: Wait>(&mut self, rt: &R) -> Option<Answer>
        requires calls { calls_spent self.old.env self.old.view.mine < self.old.view.subject.limits.calls }
        ensures same { IsSame self.old self.new }
        ensures hold { MatchOption result
            (Holds self.old.view self.new.view [])
            (λ _. Holds self.old.view self.new.view (if_none (stop_refusal self.old self.new) (entry.Stop self.old.env ∷ []))) }
        ensures answer { IfSome result (λ a. said a ≡ done_or (stop_refusal self.old self.new)) }
        ensures waited { is_anothers self.old.env (there_found self.old self.new).stopper ≡ (if is_some result then false else true) }
    {
        let Some(seat) = self.seat.take() else {
            unreachable!()
        };
        let mut hold = self.cell.hold(rt, seat);
        let slot = hold.slot();
        if is_others(slot.stopper(), self.env) {
            self.seat = Some(hold.store());
            return None;
        }
        let answer = slot.stop(self.env);
        self.seat = Some(hold.store());
        Some(answer)
    }

    /// Reads the thread's state and at most `max_count` of its newest frames under this environment's stop, in one hold (JVM
    /// TI 11, GetAllStackTraces). A thread that is not alive has no frames. It costs one call if it is not refused.
    /// `max_count` is not negative. The buffer is empty and has room for the frames.
    ///
    /// Refused with `NotStopped` (212) if this environment's stop is not in force. Otherwise refused with `StillRunning`
    /// (213) if the thread runs (this profile). A refused read changes nothing.
    pub fn read<R: Wait>(&mut self, rt: &R, max_count: i32, buf: TraceBuf) -> Answer
        requires count { is_not_negative max_count ≡ true }
        requires calls { calls_spent self.old.env self.old.view.mine < self.old.view.subject.limits.calls }
        requires buf { HasRoomFor self.old.view.subject.limits (or_zero_of max_count) buf }
        ensures same { IsSame self.old self.new }
        ensures hold { Holds self.old.view self.new.view (if_none (read_refusal self.old self.new max_count) (entry.Read self.old.env max_count ∷ [])) }
        ensures answer { read_answer (read_refusal self.old self.new max_count) (reply self.old.view.subject.limits self.new.view.seen (length (found self.old.view self.new.view))) ≡ Some (said result) }
    {
        let pace = Pace::new();
        let mut buf = buf;
        for _ in rt.forever() {
            match self.read_now(max_count, buf) {
                Ok(answer) => {
                    self.wake_sleepers();
                    return answer;
                }
                Err(again) => buf = again,
            }
            self.cell.await_free(rt, &pace);
        }
        unreachable!()
    }

    /// Lets the thread go, in one hold: this environment's stop is over. It costs nothing.
    ///
    /// Refused with `NotStopped` (212) if this environment's stop is not in force (this profile). Then nothing changes.
    pub fn go<R: Wait>(&mut self, rt: &R) -> Answer
        ensures same { IsSame self.old self.new }
        ensures hold { Holds self.old.view self.new.view (if_none (go_refusal self.old self.new) (entry.Go self.old.env ∷ [])) }
        ensures answer { said result ≡ done_or (go_refusal self.old self.new) }
    {
        until_free!(self, rt, self.go_now())
    }

    /// Whether this environment's stop is in force and the thread does not run. It takes one hold, which adds nothing.
    pub fn standing<R: Wait>(&mut self, rt: &R) -> bool
        ensures same { IsSame self.old self.new }
        ensures hold { Holds self.old.view self.new.view [] }
        ensures standing { result ≡ is_standing self.old.view.subject.limits self.new.view.seen self.old.env }
    {
        until_free!(self, rt, self.standing_now())
    }
}

/// Whether another environment's stop is in force.
fn is_others(stopper: Option<EnvNo>, env: EnvNo) -> bool
    ensures { result ≡ is_anothers env stopper }
{
    match stopper {
        Some(other) => other.0 != env.0,
        None => false,
    }
}

ghost use Rattle.std.specs.Prelude.{◌≡◌, ◌<◌, ◌+◌, true, false, if◌then◌else◌, is_some, [], ◌∷◌, length, Some, None, IfSome, MatchOption};
ghost use Rattle.ti_types.specs.Answer.{said};
ghost use Rattle.ti_types.specs.declared.entry.Entry.TheVariants as entry;
ghost use Rattle.ti_replay.specs.Answers.{done_or, or_zero as or_zero_of};
ghost use Rattle.ti_replay.specs.Events.{if_none};
ghost use Rattle.ti_replay.specs.Legal.{calls_spent, is_not_negative};
ghost use Rattle.ti_replay.specs.Replies.{reply};
ghost use Rattle.ti_replay.specs.Standing.{is_standing};
ghost use Rattle.ti_slot.specs.Thread.{read_answer};
ghost use Rattle.ti_slot.specs.Waiting.{HasRoomFor};
ghost use Rattle.ti_handshake.specs.Call.{Waits, Holds, found};
ghost use Rattle.ti_handshake.specs.Desk.{IsSame, is_anothers, there_found, stop_refusal, read_refusal, go_refusal};
