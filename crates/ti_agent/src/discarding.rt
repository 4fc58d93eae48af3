//! Answers to cancelled calls, which are discarded. Those of an environment of the same number that has left go first.

use crate::env::Env;
use crate::home::Home;
use ti_handshake::Discarded;
use ti_types::{ThreadNo, TiError};

impl<H: Home> Env<H> {
    /// Looks for the answer to the call that was cancelled first at a thread, whichever environment cancelled it. It tries to hold
    /// the thread's cell just once. If the answer is there, it is discarded, and the call is no longer out.
    ///
    /// Returns which call it was and what came of it. `None` if there is no answer yet, if no call was cancelled there, or if
    /// there is no such thread.
    ///
    /// The error is 215 (this profile: `Busy`) if the thread's cell is in use. Then nothing changes.
    pub(crate) fn discard_first_now(
        &mut self,
        thread: ThreadNo,
    ) -> Result<Option<Discarded>, TiError>
        ensures discards { IfOk result (λ d. place_in self.old.env.desks thread < length self.old.env.desks → DiscardsAt self.old.env self.new.env thread (is_some d)) }
        ensures tells { IfOk result (λ d. IfSome d (λ r. TellsDiscardedAt self.old.env self.new.env thread r.ticket (said r.answer))) }
        ensures nobody { length self.old.env.desks ≤ place_in self.old.env.desks thread → (self.new ≡ self.old) × (result ≡ Ok None) }
        ensures busy { IfErr result (λ e. e ≡ Busy) }
        ensures unchanged { OnErr result (self.new ≡ self.old) }
        ensures home { self.new.home ≡ self.old.home }
    {
        let at = self.place_of(thread).0 as usize;
        if at >= self.desks.len() {
            return Ok(None);
        }
        self.desks[at].discard_now()
    }

    /// Whether a call of an environment of the same number that has left is out at a thread, and was cancelled first.
    fn has_former(&self, thread: ThreadNo) -> bool
        ensures { result ≡ nat_lt 0 (former_at self.now.env thread) }
    {
        let at = self.place_of(thread).0 as usize;
        at < self.desks.len() && self.desks[at].is_former()
    }

    /// Discards the answers to calls of an environment of the same number that has left, as far as they are there. It tries to hold
    /// the thread's cell once for each.
    ///
    /// The error is 215 (this profile: `Busy`) if the thread's cell is in use. Then some may be discarded.
    fn drop_former_now(&mut self, thread: ThreadNo) -> Result<(), TiError>
        ensures drops { DropsAt self.old.env self.new.env thread }
        ensures waits { OnOk result (0 < former_at self.new.env thread → FirstWaitsAt self.new.env thread) }
        ensures busy { IfErr result (λ e. e ≡ Busy) }
        ensures home { self.new.home ≡ self.old.home }
    {
        while self.has_former(thread) {
            if self.discard_first_now(thread)?.is_none() {
                return Ok(());
            }
        }
        Ok(())
    }

    /// Looks for the answer to the call that the environment cancelled first at a thread (this profile). If the answer is there, it is
    /// discarded, and the call is no longer out. It tries to hold the thread's cell just once.
    ///
    /// Before that, it discards the answers to calls of an environment of the same number that has left, and tells nothing of them.
    /// That is one more hold for each. While one of them is out, no answer of this environment is looked for.
    ///
    /// Returns which call it was and what came of it. `None` if there is no answer yet, if no call was cancelled there, or if
    /// there is no such thread.
    ///
    /// The error is 215 (this profile: `Busy`) if the thread's cell is in use. Then answers to calls of an environment that has left
    /// may be discarded. Nothing else changed.
    pub fn discard_now(&mut self, thread: ThreadNo) -> Result<Option<Discarded>, TiError>
        ensures discards { IfOk result (λ d. DiscardsOwn self.old.env self.new.env thread (is_some d)) }
        ensures tells { IfOk result (λ d. IfSome d (λ r. TellsOwn self.old.env self.new.env thread r.ticket (said r.answer))) }
        ensures nobody { length self.old.env.desks ≤ place_in self.old.env.desks thread → (self.new ≡ self.old) × (result ≡ Ok None) }
        ensures busy { IfErr result (λ e. e ≡ Busy) }
        ensures dropped { OnErr result (DropsAt self.old.env self.new.env thread) }
        ensures home { self.new.home ≡ self.old.home }
    {
        if self.place_of(thread).0 >= self.desk_count() {
            return Ok(None);
        }
        self.drop_former_now(thread)?;
        if self.has_former(thread) {
            return Ok(None);
        }
        self.discard_first_now(thread)
    }
}

ghost use Rattle.std.specs.Prelude.{◌≡◌, ◌<◌, ◌≤◌, is_some, length, None, Ok, IfSome, IfOk, IfErr, OnOk, OnErr, nat_lt};
ghost use Rattle.ti_types.specs.Answer.{said};
ghost use Rattle.ti_types.specs.declared.error.TiError.TheVariants.{Busy};
ghost use Rattle.ti_agent.specs.Deadlines.{DiscardsAt, TellsDiscardedAt, DiscardsOwn, DropsAt, TellsOwn, former_at};
ghost use Rattle.ti_agent.specs.Env.{place_in};
ghost use Rattle.ti_agent.specs.Quiesced.{FirstWaitsAt};
