//! What a driver says to a session.

use crate::actions::{Phase, Posted, Purpose};
use crate::error::JdwpError;
use crate::session::Session;
use crate::session_error::SessionError;
use crate::session_next::after;
use crate::stops::{NOWHERE, Standing};
use crate::suspensions::Holder;

impl Session {
    /// Replies to the request that was asked, with the bytes of the reply's body.
    ///
    /// - 112 WRONG_PHASE: no request was asked, or it was answered. Nothing changes.
    /// - 110 OUT_OF_MEMORY: there is no memory for the reply. Nothing changes, and the request waits on.
    pub fn reply(&mut self, body: &[u8]) -> Result<(), SessionError>
        ensures ok { OnOk result (self.new ≡ replied self.old (Ok body.now)) }
        ensures unasked { IsErrOf result NotAsked → is_asked self.old.phase ≡ false }
        ensures asked { is_asked self.old.phase ≡ false → result ≡ Err NotAsked }
        ensures err { OnErr result (self.new ≡ self.old) }
    {
        if !matches!(self.phase, Phase::Asking) {
            return Err(SessionError::NotAsked);
        }
        self.answer(Ok(body))
    }

    /// Replies to the request that was asked with an error.
    ///
    /// - 112 WRONG_PHASE: no request was asked, or it was answered. Nothing changes.
    /// - 110 OUT_OF_MEMORY: there is no memory for the reply. Nothing changes, and the request waits on.
    pub fn refuse(&mut self, error: JdwpError) -> Result<(), SessionError>
        ensures ok { OnOk result (self.new ≡ replied self.old (Err (number_of error))) }
        ensures unasked { IsErrOf result NotAsked → is_asked self.old.phase ≡ false }
        ensures asked { is_asked self.old.phase ≡ false → result ≡ Err NotAsked }
        ensures err { OnErr result (self.new ≡ self.old) }
    {
        if !matches!(self.phase, Phase::Asking) {
            return Err(SessionError::NotAsked);
        }
        self.answer(Err(error))
    }

    /// Lists the threads that are alive, each once, by their numbers. They are suspended next.
    ///
    /// - 112 WRONG_PHASE: no list was asked for. Nothing changes.
    /// - 110 OUT_OF_MEMORY: there is no memory for the list. Nothing changes, and the session waits on.
    pub fn threads(&mut self, threads: &[u32]) -> Result<(), SessionError>
        ensures ok { OnOk result (listed_in self.old.phase threads.now self.old ≡ Some self.new) }
        ensures unasked { IsErrOf result NotAsked → listed_in self.old.phase threads.now self.old ≡ None }
        ensures asked { listed_in self.old.phase threads.now self.old ≡ None → result ≡ Err NotAsked }
        ensures err { OnErr result (self.new ≡ self.old) }
    {
        let Phase::Listing(purpose) = self.phase else {
            return Err(SessionError::NotAsked);
        };
        let Ok(work) = Vec::from_slice(self.alloc, threads) else {
            return Err(SessionError::OutOfMemory);
        };
        self.work = work;
        self.phase = Phase::Stopping(purpose);
        Ok(())
    }

    /// Says what came of the suspension that was posted.
    ///
    /// - 112 WRONG_PHASE: no suspension was asked for. Nothing changes.
    pub fn suspended(&mut self, posted: Posted) -> Result<(), SessionError>
        ensures ok { OnOk result (PostedIn self.old.phase posted self.old self.new) }
        ensures err { IfErr result (λ e. (e ≡ NotAsked) × (is_posting self.old.phase ≡ false) × (self.new ≡ self.old)) }
    {
        let Phase::Suspending { purpose, thread } = self.phase else {
            return Err(SessionError::NotAsked);
        };
        self.phase = after(purpose);
        match posted {
            Posted::Suspended => {
                if self.suspensions.suspend(thread, Holder::Debugger).is_err() {
                    self.short = true;
                    self.phase = Phase::Undoing { purpose, thread };
                }
            }
            Posted::ByAnother => {
                if self.suspensions.suspend(thread, Holder::Another).is_err() {
                    self.short = true;
                }
            }
            Posted::NotAlive => (),
            Posted::Unknown => {
                if purpose == Purpose::One {
                    self.phase = Phase::Refusing;
                }
            }
        }
        Ok(())
    }

    /// Says what came of the breakpoint that was to be set: with an error no request for it is put in force, and the error is the
    /// reply.
    ///
    /// - 112 WRONG_PHASE: no breakpoint was to be set. Nothing changes.
    pub fn placed(&mut self, placed: Result<(), JdwpError>) -> Result<(), SessionError>
        ensures ok { OnOk result (placed_in self.old.phase placed self.old ≡ Some self.new) }
        ensures err { IfErr result (λ e. (e ≡ NotAsked) × (placed_in self.old.phase placed self.old ≡ None) × (self.new ≡ self.old)) }
    {
        let Phase::Placing(wish) = self.phase else {
            return Err(SessionError::NotAsked);
        };
        self.phase = match placed {
            Ok(()) => Phase::Putting {
                wish,
                standing: NOWHERE,
            },
            Err(error) => Phase::Denied(error),
        };
        Ok(())
    }

    /// Says where the thread stands that was asked for. `None`, 13 THREAD_NOT_SUSPENDED: it is not known, as the thread does not
    /// stand.
    ///
    /// - 112 WRONG_PHASE: no thread was asked for. Nothing changes.
    pub fn located(&mut self, standing: Option<Standing>) -> Result<(), SessionError>
        ensures ok { OnOk result (located_in self.old.phase standing self.old ≡ Some self.new) }
        ensures err { IfErr result (λ e. (e ≡ NotAsked) × (located_in self.old.phase standing self.old ≡ None) × (self.new ≡ self.old)) }
    {
        let Phase::Locating(wish) = self.phase else {
            return Err(SessionError::NotAsked);
        };
        self.phase = match standing {
            Some(standing) => Phase::Putting { wish, standing },
            None => Phase::Denied(JdwpError::ThreadNotSuspended),
        };
        Ok(())
    }

    /// Says that the suspensions stand, or that the second is over.
    ///
    /// - 112 WRONG_PHASE: the session did not ask to wait. Nothing changes.
    pub fn settled(&mut self) -> Result<(), SessionError>
        ensures ok { OnOk result (settled_in self.old.phase self.old ≡ Some self.new) }
        ensures err { IfErr result (λ e. (e ≡ NotAsked) × (settled_in self.old.phase self.old ≡ None) × (self.new ≡ self.old)) }
    {
        let Phase::Settling(purpose) = self.phase else {
            return Err(SessionError::NotAsked);
        };
        self.phase = Phase::Finishing(purpose);
        Ok(())
    }
}

ghost use Rattle.std.specs.Prelude.{◌≡◌, false, Some, None, Ok, Err, IfErr, IsErrOf, OnOk, OnErr};
ghost use Rattle.ti_jdwp.specs.Errors.{number_of};
ghost use Rattle.ti_jdwp.specs.Talks.{replied};
ghost use Rattle.ti_jdwp.specs.Answered.{is_asked, is_posting, listed_in, settled_in, placed_in, located_in, PostedIn};
ghost use Rattle.ti_jdwp.specs.declared.session_error.SessionError.TheVariants.{NotAsked};
