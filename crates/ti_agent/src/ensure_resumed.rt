//! A call that takes an environment's suspensions back, whatever came of them.

use crate::env::Env;
use crate::home::Home;
use std::alloc::Global;
use ti_slot::Asked;
use ti_types::{Answer, Call, ThreadNo, TiError};

impl<H: Home> Env<H> {
    /// Whether a call that the environment cancelled at a thread is still out (this profile). `false` if there is no desk at a thread of
    /// this number.
    pub fn has_cancelled_at(&self, thread: ThreadNo) -> bool
        ensures { result ≡ has_cancelled_at self.now.env thread }
    {
        let at = self.place_of(thread).0 as usize;
        at < self.desks.len() && self.desks[at].has_cancelled()
    }

    /// Takes back what the environment's suspensions did to a thread, and what those that were cancelled would still do to it (this
    /// profile). It discards the answers to calls that were cancelled there, as far as they are there. If no call that the environment
    /// cancelled at the thread is out then, it resumes the thread.
    ///
    /// `true`: no such call is out, and the thread is not suspended, whether it was before or not. `false`: such a call is
    /// out. It may be a suspension that the thread has not reached, so the call has to be made again once the thread has
    /// handed over.
    ///
    /// It is for a suspension whose time was over (214), after which a resumption is answered 13 at once. It needs
    /// `can_suspend`, and costs one call if it resumes.
    ///
    /// The error is the first of these that fits:
    ///
    /// - 215 (this profile: `Busy`): the thread's cell is in use. Answers may have been discarded. Nothing else changed.
    /// - 99 MUST_POSSESS_CAPABILITY, 10 INVALID_THREAD, 209 (this profile), 15 THREAD_NOT_ALIVE: as for ResumeThread (JVM TI 11).
    pub fn ensure_resumed_now(&mut self, alloc: Global, thread: ThreadNo) -> Result<bool, TiError>
        ensures resumed { result ≡ Ok true → IsResumed self.old.env self.new.env thread }
        ensures again { result ≡ Ok false → IsYetToCome self.old.env self.new.env thread }
        ensures refused { IfErr result (λ e. IsNotResumed self.old.env self.new.env thread e) }
        ensures home { self.new.home ≡ self.old.home }
    {
        match self.discard_all_now(thread) {
            Ok(()) => (),
            Err(error) => return Err(error),
        }
        if self.has_cancelled_at(thread) {
            return Ok(false);
        }
        match self.post_now(alloc, thread, Call::Resume) {
            Ok(Asked::Answered(answer)) => resumed_in(answer),
            Ok(Asked::Waiting(_)) => unreachable!(),
            Err(error) => Err(error),
        }
    }
}

/// `true` if a resumption that was answered so leaves the thread not suspended. Otherwise the error of the refusal.
fn resumed_in(told: Answer) -> Result<bool, TiError>
    requires kind { IsKind call.Resume (said told) }
    ensures resumed { IfOk result (λ yes. (yes ≡ true) × (is_resumed (said told) ≡ true)) }
    ensures refused { IfErr result (λ e. said told ≡ answer.Refused e) }
{
    match told {
        Answer::Done | Answer::Refused(TiError::ThreadNotSuspended) => Ok(true),
        Answer::Refused(error) => Err(error),
        _ => unreachable!(),
    }
}

ghost use Rattle.std.specs.Prelude.{◌≡◌, true, false, Ok, IfOk, IfErr};
ghost use Rattle.ti_types.specs.Answer.{said};
ghost use Rattle.ti_types.specs.declared.answer.Answer.TheVariants as answer;
ghost use Rattle.ti_types.specs.declared.call.Call.TheVariants as call;
ghost use Rattle.ti_agent.specs.Asks.{IsKind};
ghost use Rattle.ti_agent.specs.Resumed.{has_cancelled_at, is_resumed, IsResumed, IsYetToCome, IsNotResumed};
