//! How a session serves a request.

use crate::actions::{Action, Phase, Purpose};
use crate::asking::read_filters;
use crate::bodies::int_body;
use crate::constants::constant_body;
use crate::error::JdwpError;
use crate::front::First;
use crate::plan::{Plan, Wish, plan_of};
use crate::reading::read_request;
use crate::request::Request;
use crate::requests_in_force::Filters;
use crate::session::Session;
use crate::session_error::SessionError;
use crate::stops::{NOWHERE, Standing, Target};

impl Session {
    /// Serves the request that stands first in the input.
    pub(crate) fn serve(&mut self, first: First) -> Result<Action, SessionError>
        ensures ok { IfOk result (λ a. Serves (record self.old { first = first }) a self.new) }
        ensures memory { IfErr result (λ e. e ≡ OutOfMemory) }
        ensures free { IfErr result (λ _. request_takes first self.old ≡ true) }
        ensures err { OnErr result (self.new ≡ record self.old { first = first }) }
    {
        self.first = first;
        let bytes = first.data(self.line.input());
        match read_request(first.set, first.command, bytes) {
            Ok(request) => self.follow(plan_of(request), request),
            Err(error) => self.refuse_now(error),
        }
    }

    /// Follows the plan for a request.
    fn follow(&mut self, plan: Plan, request: Request) -> Result<Action, SessionError>
        ensures ok { IfOk result (λ a. ServesBy plan request self.old a self.new) }
        ensures memory { IfErr result (λ e. e ≡ OutOfMemory) }
        ensures free { IfErr result (λ _. plan_takes plan self.old ≡ true) }
        ensures err { OnErr result (self.new ≡ self.old) }
    {
        match plan {
            Plan::Refuse(error) => self.refuse_now(error),
            Plan::Constant(constant) => {
                let body = constant_body(self.alloc, constant)?;
                self.answer_now(body.as_slice())
            }
            Plan::Ask => Ok(self.ask(request)),
            Plan::AskStack(thread) => {
                if self.suspensions.count(thread) == 0 {
                    self.refuse_now(JdwpError::ThreadNotSuspended)
                } else {
                    Ok(self.ask(request))
                }
            }
            Plan::Count(thread) => {
                let count = self.suspensions.count(thread);
                self.number(count)
            }
            Plan::Suspend(thread) => Ok(self.suspend_one(Purpose::One, thread)),
            Plan::Resume(thread) => self.resume_one(thread),
            Plan::SuspendAll => {
                self.phase = Phase::Listing(Purpose::All);
                Ok(Action::ListThreads)
            }
            Plan::ResumeAll => {
                self.work = self.suspensions.threads(self.alloc)?;
                self.phase = Phase::Resuming;
                Ok(Action::Again)
            }
            Plan::Hold => {
                self.answer(Ok(&[]))?;
                self.events.hold();
                Ok(Action::Write)
            }
            Plan::Release => {
                self.answer(Ok(&[]))?;
                self.events.release();
                Ok(Action::Write)
            }
            Plan::Set(wish) => self.set_event(wish),
            Plan::Clear { kind, request } => self.clear_event(kind, request),
            Plan::Dispose => {
                self.answer(Ok(&[]))?;
                Ok(self.stop_reading())
            }
        }
    }

    fn answer_now(&mut self, body: &[u8]) -> Result<Action, SessionError>
        ensures ok { IfOk result (λ a. Does (Write, replied self.old (Ok body.now)) a self.new) }
        ensures memory { IfErr result (λ e. e ≡ OutOfMemory) }
        ensures err { OnErr result (self.new ≡ self.old) }
    {
        self.answer(Ok(body))?;
        Ok(Action::Write)
    }

    /// Replies with an error.
    pub(crate) fn refuse_now(&mut self, error: JdwpError) -> Result<Action, SessionError>
        ensures ok { IfOk result (λ a. Does (Write, replied self.old (Err (number_of error))) a self.new) }
        ensures memory { IfErr result (λ e. e ≡ OutOfMemory) }
        ensures err { OnErr result (self.new ≡ self.old) }
    {
        self.answer(Err(error))?;
        Ok(Action::Write)
    }

    /// The driver answers the request.
    fn ask(&mut self, request: Request) -> Action
        ensures { Does (Ask request, record self.old { phase = Asking }) result self.new }
    {
        self.phase = Phase::Asking;
        Action::Ask(request)
    }

    /// Resumes a thread once. Where no thread is suspended any more, events go out again.
    fn resume_one(&mut self, thread: u32) -> Result<Action, SessionError>
        ensures ok { IfOk result (λ a. ResumesOne thread self.old a self.new) }
        ensures memory { IfErr result (λ e. e ≡ OutOfMemory) }
        ensures err { OnErr result (self.new ≡ self.old) }
    {
        self.answer(Ok(&[]))?;
        let told = self.suspensions.resume(thread);
        if self.suspensions.are_all_free() {
            self.events.resume();
        }
        if told {
            Ok(Action::Resume(thread))
        } else {
            Ok(Action::Write)
        }
    }

    /// Puts a request for events in force, or asks the driver first: for a breakpoint to set it, and for a step where the thread
    /// stands. 13 THREAD_NOT_SUSPENDED for a step of a thread that the debugger does not suspend.
    fn set_event(&mut self, wish: Wish) -> Result<Action, SessionError>
        ensures ok { IfOk result (λ a. SetsEvent wish self.old a self.new) }
        ensures memory { IfErr result (λ e. e ≡ OutOfMemory) }
        ensures err { OnErr result (self.new ≡ self.old) }
    {
        let bytes = self.first.data(self.line.input());
        let filters = match read_filters(self.alloc, wish, NOWHERE, bytes) {
            Ok(filters) => filters,
            Err(error) => return self.refuse_now(error),
        };
        self.set(wish, filters)
    }

    /// Puts a request for events in force that says this, or asks the driver first.
    fn set(&mut self, wish: Wish, filters: Filters) -> Result<Action, SessionError>
        ensures ok { IfOk result (λ a. Sets wish (reading_of filters) self.old a self.new) }
        ensures memory { IfErr result (λ e. e ≡ OutOfMemory) }
        ensures err { OnErr result (self.new ≡ self.old) }
    {
        match filters.target {
            Target::Anywhere => self.put(wish, filters),
            Target::Place {
                class,
                method,
                index,
            } => {
                self.phase = Phase::Placing(wish);
                Ok(Action::SetBreakpoint {
                    class,
                    method,
                    index,
                })
            }
            Target::Step(step) => {
                if self.suspensions.count(step.thread) == 0 {
                    return self.refuse_now(JdwpError::ThreadNotSuspended);
                }
                self.phase = Phase::Locating(wish);
                Ok(Action::Locate(step.thread))
            }
        }
    }

    /// Puts a request for events in force of which the driver said what it was asked. A step begins at `standing`.
    pub(crate) fn put_in_force(
        &mut self,
        wish: Wish,
        standing: Standing,
    ) -> Result<Action, SessionError>
        ensures ok { IfOk result (λ a. PutsInForce wish standing self.old a self.new) }
        ensures memory { IfErr result (λ e. e ≡ OutOfMemory) }
        ensures err { OnErr result (self.new ≡ self.old) }
    {
        let bytes = self.first.data(self.line.input());
        let filters = match read_filters(self.alloc, wish, standing, bytes) {
            Ok(filters) => filters,
            Err(error) => return self.refuse_now(error),
        };
        self.put(wish, filters)
    }

    /// Puts a request for events in force that says this.
    fn put(&mut self, wish: Wish, filters: Filters) -> Result<Action, SessionError>
        ensures ok { IfOk result (λ a. Puts wish (reading_of filters) self.old a self.new) }
        ensures memory { IfErr result (λ e. e ≡ OutOfMemory) }
        ensures err { OnErr result (self.new ≡ self.old) }
    {
        match self.requests.add(wish.kind, wish.policy, filters) {
            Ok(number) => {
                self.phase = Phase::Numbered(number);
                Ok(Action::Again)
            }
            Err(error) => self.refuse_now(error),
        }
    }

    /// Replies with the number of a request that is in force now.
    pub(crate) fn number(&mut self, number: u32) -> Result<Action, SessionError>
        ensures ok { IfOk result (λ a. Does (Write, replied self.old (Ok (int number))) a self.new) }
        ensures memory { IfErr result (λ e. e ≡ OutOfMemory) }
        ensures err { OnErr result (self.new ≡ self.old) }
    {
        let body = int_body(self.alloc, number.cast_signed())?;
        self.answer_now(body.as_slice())
    }

    /// Takes a request for events out of force. An unknown one is no error.
    fn clear_event(&mut self, kind: u8, request: i32) -> Result<Action, SessionError>
        ensures ok { IfOk result (λ a. Does (Write, clears kind request self.old) a self.new) }
        ensures memory { IfErr result (λ e. e ≡ OutOfMemory) }
        ensures err { OnErr result (self.new ≡ self.old) }
    {
        self.answer(Ok(&[]))?;
        self.requests.clear(kind, request.cast_unsigned());
        Ok(Action::Write)
    }
}

ghost use Rattle.std.specs.Prelude.{◌≡◌, true, IfOk, IfErr, OnErr};
ghost use Rattle.ti_jdwp.specs.Asking.{reading_of};
ghost use Rattle.ti_jdwp.specs.Errors.{number_of};
ghost use Rattle.ti_jdwp.specs.Fields.{int};
ghost use Rattle.ti_jdwp.specs.Memory.{plan_takes, request_takes};
ghost use Rattle.ti_jdwp.specs.Talks.{replied};
ghost use Rattle.ti_jdwp.specs.Steps.{Does, Serves, ServesBy, ResumesOne, Puts, PutsInForce, Sets, SetsEvent, clears};
ghost use Rattle.ti_jdwp.specs.declared.actions.Action.TheVariants.{Ask, Write};
ghost use Rattle.ti_jdwp.specs.declared.actions.Phase.TheVariants.{Asking};
ghost use Rattle.ti_jdwp.specs.declared.session_error.SessionError.TheVariants.{OutOfMemory};
