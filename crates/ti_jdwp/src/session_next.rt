//! What a session does next.

use crate::actions::{Action, Phase, Purpose};
use crate::error::JdwpError;
use crate::front::{Front, front_of};
use crate::notice::Notice;
use crate::packet::HANDSHAKE;
use crate::request::Policy;
use crate::session::Session;
use crate::session_error::SessionError;
use crate::suspensions::Holder;

impl Session {
    /// Says what the driver does next. Call it again until it gives `Wait` or `Close`, or there is output that the socket does not
    /// take.
    ///
    /// - 110 OUT_OF_MEMORY: there is no memory for a reply, an event, or what a request asks to be kept. Nothing changes.
    pub fn next(&mut self) -> Result<Action, SessionError>
        ensures action { IfOk result (λ a. Goes self.old a self.new) }
        ensures memory { IfErr result (λ e. e ≡ OutOfMemory) }
        ensures free { IfErr result (λ _. Takes self.old) }
        ensures err { OnErr result (Fails self.old self.new) }
    {
        if matches!(self.phase, Phase::Ending) {
            return Ok(self.let_go());
        }
        if !self.line.output().is_empty() {
            return Ok(Action::Write);
        }
        match self.phase {
            Phase::Greeting => self.greet(),
            Phase::Ready => self.go_on(),
            Phase::Asking
            | Phase::Listing(_)
            | Phase::Suspending { .. }
            | Phase::Settling(_)
            | Phase::Placing(_)
            | Phase::Locating(_) => Ok(Action::Wait),
            Phase::Stopping(purpose) => Ok(self.suspend_next(purpose)),
            Phase::Undoing { purpose, thread } => {
                self.phase = after(purpose);
                Ok(Action::Resume(thread))
            }
            Phase::Finishing(purpose) => self.finish(purpose),
            Phase::Refusing => self.refuse_now(JdwpError::InvalidThread),
            Phase::Numbered(number) => self.number(number),
            Phase::Putting { wish, standing } => self.put_in_force(wish, standing),
            Phase::Denied(error) => self.refuse_now(error),
            Phase::Resuming => self.resume_next(),
            Phase::Ending | Phase::Closed => Ok(Action::Close),
        }
    }

    /// Resumes one thread that is suspended, as the session ends. Without one what is left of the output is written, and the
    /// connection closes.
    fn let_go(&mut self) -> Action
        ensures { EndsBy result self.old self.new }
    {
        match self.suspensions.let_go() {
            Some(gone) => {
                if gone.resume {
                    Action::Resume(gone.thread)
                } else {
                    Action::Again
                }
            }
            None => {
                if self.gone || self.line.output().is_empty() {
                    self.phase = Phase::Closed;
                    Action::Close
                } else {
                    Action::Write
                }
            }
        }
    }

    /// The session ends: nothing more is read.
    pub(crate) fn stop_reading(&mut self) -> Action
        ensures { Does (Again, stopped self.old) result self.new }
    {
        self.phase = Phase::Ending;
        Action::Again
    }

    /// Reads the handshake.
    fn greet(&mut self) -> Result<Action, SessionError>
        ensures ok { IfOk result (λ a. Does (greets self.old) a self.new) }
        ensures memory { IfErr result (λ e. e ≡ OutOfMemory) }
        ensures free { IfErr result (λ _. take 14 self.old.bytes.input ≡ handshake) }
        ensures err { OnErr result (self.new ≡ self.old) }
    {
        let input = self.line.input();
        let count = input.len().min(HANDSHAKE.len());
        if input[..count] != HANDSHAKE[..count] {
            return Ok(self.stop_reading());
        }
        if count < HANDSHAKE.len() {
            return Ok(self.starve());
        }
        self.line.greet()?;
        self.phase = Phase::Ready;
        Ok(Action::Write)
    }

    /// Nothing whole came. Where the socket gives no more, the session ends.
    fn starve(&mut self) -> Action
        ensures { Does (starved self.old) result self.new }
    {
        if self.ended {
            self.stop_reading()
        } else {
            Action::Wait
        }
    }

    /// Tells an event, or reads a packet.
    fn go_on(&mut self) -> Result<Action, SessionError>
        ensures ok { IfOk result (λ a. GoesOn self.old a self.new) }
        ensures memory { IfErr result (λ e. e ≡ OutOfMemory) }
        ensures free { IfErr result (λ _. GoingOnTakes self.old) }
        ensures err { OnErr result (self.new ≡ record self.old { first = self.new.first }) }
    {
        match self.events.take() {
            Some(notice) => {
                let policy = notice.policy;
                let thread = notice.thread;
                self.notice = Some(notice);
                Ok(self.begin_event(policy, thread))
            }
            None => self.read(),
        }
    }

    /// Reads a packet.
    fn read(&mut self) -> Result<Action, SessionError>
        ensures ok { IfOk result (λ a. Reads self.old a self.new) }
        ensures memory { IfErr result (λ e. e ≡ OutOfMemory) }
        ensures free { IfErr result (λ _. ReadTakes self.old) }
        ensures err { OnErr result (self.new ≡ record self.old { first = self.new.first }) }
    {
        match front_of(self.line.input()) {
            Front::More => Ok(self.starve()),
            Front::Broken => Ok(self.stop_reading()),
            Front::Reply(length) => {
                self.line.skip(length);
                Ok(Action::Again)
            }
            Front::Request(first) => self.serve(first),
        }
    }

    /// Suspends what an event is to suspend.
    fn begin_event(&mut self, policy: Policy, thread: u32) -> Action
        ensures { BeginsEvent policy thread self.old result self.new }
    {
        match policy {
            Policy::None => {
                self.phase = Phase::Finishing(Purpose::Event);
                Action::Again
            }
            Policy::EventThread => self.suspend_one(Purpose::Event, thread),
            Policy::All => {
                self.phase = Phase::Listing(Purpose::Event);
                Action::ListThreads
            }
        }
    }

    /// Suspends a thread once more: by its count alone, or at the service if its count is 0.
    pub(crate) fn suspend_one(&mut self, purpose: Purpose, thread: u32) -> Action
        ensures { SuspendsBy purpose thread self.old result self.new }
    {
        if self.suspensions.count(thread) == 0 {
            self.phase = Phase::Suspending { purpose, thread };
            return Action::Suspend(thread);
        }
        if self.suspensions.suspend(thread, Holder::Debugger).is_err() {
            self.short = true;
        }
        self.phase = Phase::Stopping(purpose);
        Action::Again
    }

    /// Suspends the next thread of the list. After the last one the suspensions are to stand.
    fn suspend_next(&mut self, purpose: Purpose) -> Action
        ensures { SuspendsNext purpose self.old result self.new }
    {
        match self.work.pop() {
            Some(thread) => self.suspend_one(purpose, thread),
            None => {
                self.phase = Phase::Settling(purpose);
                Action::Settle
            }
        }
    }

    /// Resumes the next thread of the list. After the last one the reply is written, and events go out again.
    fn resume_next(&mut self) -> Result<Action, SessionError>
        ensures ok { IfOk result (λ a. ResumesNext self.old a self.new) }
        ensures memory { IfErr result (λ e. e ≡ OutOfMemory) }
        ensures free { IfErr result (λ _. self.old.work ≡ []) }
        ensures err { OnErr result (self.new ≡ self.old) }
    {
        match self.work.pop() {
            Some(thread) => {
                if self.suspensions.resume(thread) {
                    Ok(Action::Resume(thread))
                } else {
                    Ok(Action::Again)
                }
            }
            None => {
                self.answer(Ok(&[]))?;
                self.events.resume();
                Ok(Action::Write)
            }
        }
    }

    /// Writes the reply to a request to suspend, or the event.
    fn finish(&mut self, purpose: Purpose) -> Result<Action, SessionError>
        ensures ok { IfOk result (λ a. Does (finishes purpose self.old) a self.new) }
        ensures memory { IfErr result (λ e. e ≡ OutOfMemory) }
        ensures free { IfErr result (λ _. finish_takes purpose self.old ≡ true) }
        ensures err { OnErr result (self.new ≡ self.old) }
    {
        match purpose {
            Purpose::One | Purpose::All => {
                if self.short {
                    self.answer(Err(JdwpError::OutOfMemory))?;
                } else {
                    self.answer(Ok(&[]))?;
                }
                self.short = false;
                Ok(Action::Write)
            }
            Purpose::Event => self.tell(),
            Purpose::End => {
                self.phase = Phase::Ending;
                Ok(Action::Again)
            }
        }
    }

    /// Tells the event. After one that stopped all threads no other goes out. A thread that waits until it is told is let go.
    fn tell(&mut self) -> Result<Action, SessionError>
        ensures ok { IfOk result (λ a. Does (told_by self.old.notice, tells self.old.notice self.old) a self.new) }
        ensures memory { IfErr result (λ e. e ≡ OutOfMemory) }
        ensures free { IfErr result (λ _. is_some self.old.notice ≡ true) }
        ensures err { OnErr result (self.new ≡ self.old) }
    {
        let action = told_by(&self.notice);
        if let Some(notice) = &self.notice {
            self.line.tell(self.told, notice.body.as_slice())?;
            if notice.policy == Policy::All {
                self.events.stop();
            }
        }
        self.notice = None;
        self.told = self.told.wrapping_add(1);
        self.short = false;
        self.phase = Phase::Ready;
        Ok(action)
    }
}

/// What the driver does when an event was told: a thread that stopped is let go, and else the event is written.
fn told_by(notice: &Option<Notice>) -> Action
    ensures { result ≡ told_by notice.now }
{
    match notice {
        Some(notice) if notice.stop => Action::LetGo(notice.thread),
        _ => Action::Write,
    }
}

/// Where a session is after a suspension was posted.
pub(crate) fn after(purpose: Purpose) -> Phase
    ensures { result ≡ after purpose }
{
    match purpose {
        Purpose::End => Phase::Ending,
        _ => Phase::Stopping(purpose),
    }
}

ghost use Rattle.std.specs.Prelude.{◌≡◌, true, [], take, is_some, IfOk, IfErr, OnErr};
ghost use Rattle.ti_jdwp.specs.Lines.{handshake};
ghost use Rattle.ti_jdwp.specs.Memory.{Takes, GoingOnTakes, ReadTakes, finish_takes};
ghost use Rattle.ti_jdwp.specs.Talks.{stopped, starved, greets, after};
ghost use Rattle.ti_jdwp.specs.Steps.{Does, Goes, Fails, EndsBy, GoesOn, Reads, BeginsEvent, SuspendsBy, SuspendsNext, ResumesNext, finishes, tells, told_by};
ghost use Rattle.ti_jdwp.specs.declared.actions.Action.TheVariants.{Again, Write};
ghost use Rattle.ti_jdwp.specs.declared.session_error.SessionError.TheVariants.{OutOfMemory};
