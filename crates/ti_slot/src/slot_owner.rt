//! The calls of a slot that the thread itself makes, from its start to its end.

use crate::call_answers::serve;
use crate::hand_rules::refusal_of_hand;
use crate::new_entries::{push, push_steps};
use crate::slot::Slot;
use ti_frames::{Frames, Log};
use ti_replay::costs::own_cost;
use ti_replay::rules::{is_new, is_safe};
use ti_types::{Entry, Mode, Safe, TiError};

impl Slot {
    /// Starts the thread, and gives it its frames and its empty log. From then on it is alive (JVM TI 11, GetThreadState).
    ///
    /// Refused with `NotNew` (210) if it was started before, and then with `Barred` (206) if a stop is in force (this
    /// profile). Then nothing changes.
    pub fn start(&mut self) -> Result<(Frames, Log), TiError>
        ensures when { MatchResult result
            (λ _. own_refusal self.old.limits (view self.old.limits self.old.history) (own_spent self.old.history) entry.Start ≡ None)
            (λ e. own_refusal self.old.limits (view self.old.limits self.old.history) (own_spent self.old.history) entry.Start ≡ Some e) }
        ensures thread { MatchResult result (λ _. self.new ≡ with_more self.old (entry.Start ∷ [])) (λ _. self.new ≡ self.old) }
        ensures frames { IfOk result (λ r. (r.0.frames ≡ (view self.new.limits self.new.history).frames) × (r.0.depth ≡ self.old.limits.depth)) }
        ensures log { IfOk result (λ r. (r.1.steps ≡ []) × (r.1.room ≡ self.old.limits.own) × (r.1.kept ≡ self.old.limits.kept)) }
        ensures runs { IfOk result (λ _. runs_is (view self.new.limits self.new.history).mode ≡ true) }
        ensures legal { is_legal self.new.limits self.new.history ≡ true }
    {
        if !is_new(self.condition.mode) {
            return Err(TiError::NotNew);
        }
        if self.condition.stopper.is_some() {
            return Err(TiError::Barred);
        }
        let Some(frames) = self.frames.take() else {
            unreachable!()
        };
        let Some(log) = self.log.take() else {
            unreachable!()
        };
        self.condition.mode = Mode::Running;
        push(&mut self.history, Entry::Start);
        Ok((frames, log))
    }

    /// Lets the thread run again, and gives it its frames. While it is suspended or stopped, it may not return (HotSpot
    /// Runtime Overview; JVM TI 11, SuspendThread).
    ///
    /// Refused with the first of these that fits. Then nothing changes.
    ///
    /// - `NotSafe` (205): it is not in native code, blocked or at a poll.
    /// - `Barred` (206): it is suspended, or a stop is in force.
    #[inline(always)]
    pub fn back(&mut self) -> Result<Frames, TiError>
        ensures when { MatchResult result
            (λ _. own_refusal self.old.limits (view self.old.limits self.old.history) (own_spent self.old.history) entry.Back ≡ None)
            (λ e. own_refusal self.old.limits (view self.old.limits self.old.history) (own_spent self.old.history) entry.Back ≡ Some e) }
        ensures thread { MatchResult result (λ _. self.new ≡ with_more self.old (entry.Back ∷ [])) (λ _. self.new ≡ self.old) }
        ensures frames { IfOk result (λ r. (r.frames ≡ (view self.new.limits self.new.history).frames) × (r.depth ≡ self.old.limits.depth)) }
        ensures runs { IfOk result (λ _. runs_is (view self.new.limits self.new.history).mode ≡ true) }
        ensures legal { is_legal self.new.limits self.new.history ≡ true }
    {
        if !is_safe(self.condition.mode) {
            return Err(TiError::NotSafe);
        }
        if self.condition.suspended || self.condition.stopper.is_some() {
            return Err(TiError::Barred);
        }
        let Some(frames) = self.frames.take() else {
            unreachable!()
        };
        self.condition.mode = Mode::Running;
        push(&mut self.history, Entry::Back);
        Ok(frames)
    }

    /// Takes the frames back when the thread hands over. The logged steps enter the history with the hand-over. Then the
    /// waiting calls take place, the earliest posted first (JEP 312). At a poll the thread has to be armed.
    ///
    /// Refused with the first of these that fits (this profile). Then nothing changes, and the frames come back with the
    /// error.
    ///
    /// - `NoNativeFrame` (207): to native, and the newest frame is not native, or there is none.
    /// - `OwnSpent` (208): to native or blocked, and less than 2 is left to spend.
    #[inline(always)]
    pub fn hand_over(
        &mut self,
        frames: Frames,
        log: &mut Log,
        safe: Safe,
    ) -> Result<(), (TiError, Frames)>
        requires running { runs_is (view self.old.limits self.old.history).mode ≡ true }
        requires steps { goes_on self.old.limits self.old.history (steps_of log.old.steps) ≡ true }
        requires frames { frames.frames ≡ (view self.old.limits (self.old.history ++ steps_of log.old.steps)).frames }
        requires depth { frames.depth ≡ self.old.limits.depth }
        requires kept { log.old.kept ≡ self.old.limits.kept }
        requires armed { safe ≡ AtPoll → is_armed self.old.limits self.old.history ≡ true }
        ensures when { MatchResult result (λ _. hand_refusal self.old.limits (self.old.history ++ steps_of log.old.steps) safe ≡ None) (λ e. hand_refusal self.old.limits (self.old.history ++ steps_of log.old.steps) safe ≡ Some e.0) }
        ensures thread { MatchResult result (λ _. self.new ≡ with_more self.old (steps_of log.old.steps ++ entry.Hand safe ∷ [])) (λ _. self.new ≡ self.old) }
        ensures log { MatchResult result (λ _. log.new ≡ with_steps log.old []) (λ _. log.new ≡ log.old) }
        ensures back { IfErr result (λ e. e.1 ≡ frames) }
        ensures legal { is_legal self.new.limits self.new.history ≡ true }
    {
        let own = self.own + log.len() as u64;
        if let Some(error) = refusal_of_hand(&self.limits, &frames, own, safe) {
            return Err((error, frames));
        }
        push_steps(&mut self.history, log.steps());
        push(&mut self.history, Entry::Hand(safe));
        log.clear();
        self.own = own + own_cost(Entry::Hand(safe));
        self.handed += 1;
        self.condition.mode = Mode::AtSafe(safe);
        let mut frames = frames;
        serve(
            &mut self.condition,
            &mut frames,
            &self.limits,
            &mut self.ops,
        );
        self.frames = Some(frames);
        Ok(())
    }

    /// Ends the thread. Its logged steps enter the history with the end, and its frames go. Then the waiting calls take
    /// place, at a thread that is no longer alive (JVM TI 11, GetThreadState). An end is never refused.
    pub fn end(&mut self, frames: Frames, log: &mut Log)
        requires running { runs_is (view self.old.limits self.old.history).mode ≡ true }
        requires steps { goes_on self.old.limits self.old.history (steps_of log.old.steps) ≡ true }
        requires depth { frames.depth ≡ self.old.limits.depth }
        requires kept { log.old.kept ≡ self.old.limits.kept }
        ensures thread { self.new ≡ with_more self.old (steps_of log.old.steps ++ entry.End ∷ []) }
        ensures log { log.new ≡ with_steps log.old [] }
        ensures legal { is_legal self.new.limits self.new.history ≡ true }
    {
        let own = self.own + log.len() as u64;
        let mut frames = frames;
        frames.clear();
        push_steps(&mut self.history, log.steps());
        push(&mut self.history, Entry::End);
        log.clear();
        self.own = own;
        self.condition.mode = Mode::Ended;
        serve(
            &mut self.condition,
            &mut frames,
            &self.limits,
            &mut self.ops,
        );
        self.frames = Some(frames);
    }
}

ghost use Rattle.std.specs.Prelude.{◌≡◌, ◌<◌, ◌+◌, ◌-◌, ◌++◌, ◌∷◌, [], true, Some, None, IfOk, IfErr, MatchResult, if◌then◌else◌, is_some};
ghost use Rattle.ti_types.specs.declared.entry.Entry.TheVariants as entry;
ghost use Rattle.ti_types.specs.declared.state.Safe.TheVariants.{AtPoll};
ghost use Rattle.ti_frames.specs.Log.{with_steps};
ghost use Rattle.ti_replay.specs.Answers.{is_running as runs_is};
ghost use Rattle.ti_replay.specs.View.{view};
ghost use Rattle.ti_replay.specs.Legal.{is_legal, is_armed, own_cost, own_spent, goes_on};
ghost use Rattle.ti_replay.specs.Refusals.{own_refusal};
ghost use Rattle.ti_slot.specs.Thread.{with_more};
ghost use Rattle.ti_slot.specs.Refusal.{hand_refusal};
ghost use Rattle.ti_replay.specs.LateTickets.{steps_of};
