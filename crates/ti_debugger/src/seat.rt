//! A session, and what the agent owes it.

use crate::asked::Asked;
use crate::desk::Desk;
use crate::due::Due;
use crate::prepared::Prepared;
use crate::refusal::Refusal;
use crate::stopping::Spot;
use ti_jdwp::{Action, JdwpError, Request, Session, SessionError};
use ti_service::{LifeEvent, LifeKind};

/// How many steps of a session are taken at once.
const STEPS: u32 = 262_144;

/// What a caller does next with the connection.
#[derive(Clone, Copy, Debug, PartialEq, Eq)]
pub enum Todo {
    /// Write `output` to the socket, and tell how much it took by `written`.
    Write,
    /// Close the socket, and call `closed`.
    Close,
    /// Nothing, until the socket gives more or `tick` was called.
    Wait,
    /// Answer the `question`, by `tell_variables`, `tell_values` or `tell_none`.
    Ask,
}

/// A session, and what the agent owes it.
#[derive(Drop)]
pub(crate) struct Seat {
    pub(crate) session: Session,
    pub(crate) due: Option<Due>,
    /// There is more to do than was done at once.
    pub(crate) rests: bool,
}

impl Seat {
    /// The session of a debugger that has connected, which waits for the handshake. If the runtime waits for its first debugger, and
    /// a thread is there, it is told that the runtime begins.
    pub(crate) fn open(desk: &mut Desk) -> Seat
        ensures opened { OpensAs desk.old.starts (first (alive_in desk.old.crowd.list.items)) result.session desk.new.starts }
        ensures due { result.due ≡ None }
        ensures rest { desk.new ≡ record desk.old { starts = desk.new.starts } }
    {
        let mut session = Session::new(desk.alloc);
        if desk.starts {
            if let Some(thread) = desk.crowd.first_alive() {
                desk.starts = !session.began(thread);
            }
        }
        Seat {
            session,
            due: None,
            rests: false,
        }
    }

    /// The session is told that the runtime ends. What it waited for is not due any more, but for a suspension that is still to be posted,
    /// so that it can be undone. It gives whether the event is told or nobody hears; else it is lost, since there is no memory.
    pub(crate) fn runtime_ends(&mut self) -> bool
        ensures told { Dies self.old.session result self.new.session }
        ensures due { self.new.due ≡ due_at_end self.old.due }
    {
        self.due = match self.due {
            Some(Due::Post(thread)) => Some(Due::Post(thread)),
            _ => None,
        };
        self.session.runtime_ends()
    }

    /// What the caller does next. What the session asks for is done here, as far as it can be now. The error is lack of memory.
    pub(crate) fn next(&mut self, desk: &mut Desk, now: u64) -> Result<Todo, SessionError>
        ensures served { Serving now self.old.session self.old.due desk.old self.new.session self.new.due desk.new }
        ensures desk { Works desk.old desk.new }
        ensures says { IfOk result (λ t. Says desk.new.asked self.new.session t) }
        ensures open { is_some (question_in desk.old.asked) ≡ true → (self.new.session ≡ self.old.session) × (self.new.due ≡ self.old.due) × (desk.new ≡ desk.old) }
    {
        if desk.asked.is_open() {
            return Ok(self.todo(desk));
        }
        self.rests = false;
        for _ in 0..STEPS {
            if let Some(todo) = self.step(desk, now)? {
                return Ok(todo);
            }
        }
        self.rests = true;
        Ok(self.todo(desk))
    }

    /// Takes one step of the session. `None` if there is more to do now. The error is lack of memory.
    fn step(&mut self, desk: &mut Desk, now: u64) -> Result<Option<Todo>, SessionError>
        ensures served { Serving now self.old.session self.old.due desk.old self.new.session self.new.due desk.new }
        ensures more { IfOk result (λ o. IfNone o (Going now self.old.session self.old.due desk.old self.new.session self.new.due desk.new)) }
        ensures desk { Works desk.old desk.new }
        ensures says { IfOk result (λ o. IfSome o (λ t. Says desk.new.asked self.new.session t)) }
    {
        if !self.settle(desk, now)? {
            return Ok(Some(self.todo(desk)));
        }
        self.go_on(desk)
    }

    /// Takes up what the session says next, which waits for nothing. `None` if there is more to do now. The error is lack of memory.
    fn go_on(&mut self, desk: &mut Desk) -> Result<Option<Todo>, SessionError>
        requires { self.old.due ≡ None }
        ensures goes { (now : ℕ) → Going now self.old.session self.old.due desk.old self.new.session self.new.due desk.new }
        ensures desk { Works desk.old desk.new }
        ensures says { IfOk result (λ o. IfSome o (λ t. Says desk.new.asked self.new.session t)) }
    {
        let action = self.session.next()?;
        self.take_up(desk, action);
        Ok(self.todo_after(desk, action))
    }

    /// What the caller does once the session said this. `None` if there is more to do now.
    fn todo_after(&self, desk: &Desk, action: Action) -> Option<Todo>
        ensures { IfSome result (λ t. Says desk.now.asked self.now.session t) }
    {
        match action {
            Action::Close => Some(self.closing()),
            Action::Write | Action::Wait => Some(self.todo(desk)),
            _ => None,
        }
    }

    /// Whether there is something to write, or a question is open.
    fn todo(&self, desk: &Desk) -> Todo
        ensures { Says desk.now.asked self.now.session result }
    {
        if !self.session.output().is_empty() {
            Todo::Write
        } else if desk.asked.is_open() {
            Todo::Ask
        } else {
            Todo::Wait
        }
    }

    /// Closes the connection, once all is written.
    fn closing(&self) -> Todo
        ensures { (asked : Asked) → Says asked self.now.session result }
    {
        if self.session.output().is_empty() {
            Todo::Close
        } else {
            Todo::Write
        }
    }

    /// Takes up what the session asks for.
    fn take_up(&mut self, desk: &mut Desk, action: Action)
        ensures session { self.new.session ≡ self.old.session }
        ensures due { self.new.due ≡ due_by action self.old.due }
        ensures undertakes { Undertakes action desk.old desk.new }
        ensures desk { Works desk.old desk.new }
    {
        match action {
            Action::Ask(request) => self.due = Some(Due::Answer(request)),
            Action::ListThreads => self.due = Some(Due::List),
            Action::Suspend(thread) => {
                desk.forget(thread);
                self.due = Some(Due::Post(thread));
            }
            Action::Settle => self.due = Some(Due::Settle),
            Action::Resume(thread) => desk.release(thread),
            Action::SetBreakpoint {
                class,
                method,
                index,
            } => {
                self.due = Some(Due::Place(Spot {
                    class,
                    method,
                    index,
                }));
            }
            Action::Locate(thread) => self.due = Some(Due::Locate(thread)),
            Action::LetGo(thread) => desk.let_go(thread),
            Action::Again | Action::Write | Action::Close | Action::Wait => (),
        }
    }

    /// Gives the session what it waits for. Whether it waits for nothing any more. The error is lack of memory.
    fn settle(&mut self, desk: &mut Desk, now: u64) -> Result<bool, SessionError>
        ensures came { Comes now self.old.session self.old.due desk.old self.new.session self.new.due desk.new result }
        ensures desk { Works desk.old desk.new }
    {
        let Some(due) = self.due else {
            return Ok(true);
        };
        let given = self.give(desk, due, now)?;
        if given {
            self.due = None;
            desk.asked = Asked::Nothing;
        }
        Ok(given)
    }

    /// Gives the session this. Whether it was there. The error is lack of memory.
    fn give(&mut self, desk: &mut Desk, due: Due, now: u64) -> Result<bool, SessionError>
        ensures gave { Given now due self.old.session desk.old self.new.session desk.new result }
        ensures due { self.new.due ≡ self.old.due }
        ensures desk { Works desk.old desk.new }
    {
        match due {
            Due::Answer(request) => self.give_answer(desk, request),
            Due::List => self.give_list(desk),
            Due::Post(thread) => self.give_posted(desk, thread, now),
            Due::Settle => self.give_settled(desk, now),
            Due::Place(spot) => self.give_placed(desk, spot),
            Due::Locate(thread) => self.give_located(desk, thread),
        }
    }

    /// Replies to a request, if the answer is there.
    fn give_answer(&mut self, desk: &mut Desk, request: Request) -> Result<bool, SessionError>
        ensures gave { (now : ℕ) → Given now (Answer request) self.old.session desk.old self.new.session desk.new result }
        ensures due { self.new.due ≡ self.old.due }
        ensures desk { Works desk.old desk.new }
    {
        match desk.reply_to(request, self.session.data()) {
            Ok(reply) => {
                self.session.reply(reply.body.as_slice())?;
                desk.take(&reply.effect);
                Ok(true)
            }
            Err(Refusal::Error(error)) => {
                self.session.refuse(error)?;
                Ok(true)
            }
            Err(Refusal::Later) => Ok(false),
        }
    }

    /// Lists the threads that are there.
    fn give_list(&mut self, desk: &Desk) -> Result<bool, SessionError>
        ensures gave { (now : ℕ) → Given now List self.old.session desk.now self.new.session desk.now result }
        ensures due { self.new.due ≡ self.old.due }
    {
        let threads = match desk.crowd.alive(desk.alloc) {
            Ok(threads) => threads,
            Err(_) => return Err(SessionError::OutOfMemory),
        };
        self.session.threads(threads.as_slice())?;
        Ok(true)
    }

    /// Suspends a thread, if its cell is free.
    fn give_posted(&mut self, desk: &mut Desk, thread: u32, now: u64) -> Result<bool, SessionError>
        ensures gave { Given now (Post thread) self.old.session desk.old self.new.session desk.new result }
        ensures due { self.new.due ≡ self.old.due }
        ensures desk { Works desk.old desk.new }
    {
        match desk.suspend(thread, now) {
            Some(posted) => {
                self.session.suspended(posted)?;
                Ok(true)
            }
            None => Ok(false),
        }
    }

    /// Says that the suspensions stand, if they do or the second is over.
    fn give_settled(&mut self, desk: &mut Desk, now: u64) -> Result<bool, SessionError>
        ensures gave { Given now Settle self.old.session desk.old self.new.session desk.new result }
        ensures due { self.new.due ≡ self.old.due }
        ensures desk { Works desk.old desk.new }
    {
        desk.settle_all();
        if desk.is_awaiting(now) {
            return Ok(false);
        }
        self.session.settled()?;
        Ok(true)
    }

    /// Sets a breakpoint, if the roster is free.
    fn give_placed(&mut self, desk: &mut Desk, spot: Spot) -> Result<bool, SessionError>
        ensures gave { (now : ℕ) → Given now (Place spot) self.old.session desk.old self.new.session desk.new result }
        ensures due { self.new.due ≡ self.old.due }
        ensures desk { Works desk.old desk.new }
    {
        match desk.place(spot) {
            Ok(()) => {
                self.session.placed(Ok(()))?;
                Ok(true)
            }
            Err(Refusal::Error(error)) => {
                self.session.placed(Err(error))?;
                Ok(true)
            }
            Err(Refusal::Later) => Ok(false),
        }
    }

    /// Says where a thread stands that is to step, if its cell and the roster are free.
    fn give_located(&mut self, desk: &mut Desk, thread: u32) -> Result<bool, SessionError>
        ensures gave { (now : ℕ) → Given now (Locate thread) self.old.session desk.old self.new.session desk.new result }
        ensures due { self.new.due ≡ self.old.due }
        ensures desk { Works desk.old desk.new }
    {
        match desk.locate(thread) {
            Ok(standing) => {
                self.session.located(Some(standing))?;
                Ok(true)
            }
            Err(Refusal::Error(_)) => {
                self.session.located(None)?;
                Ok(true)
            }
            Err(Refusal::Later) => Ok(false),
        }
    }

    /// Tells the session of the start or the end of a thread.
    pub(crate) fn tell(&mut self, life: LifeEvent)
        ensures told { TellsLives self.old.session self.new.session }
        ensures due { self.new.due ≡ self.old.due }
    {
        let _it_counts_what_is_lost = match life.kind {
            LifeKind::ThreadStart => self.session.thread_started(life.thread.0),
            LifeKind::ThreadEnd => self.session.thread_ended(life.thread.0),
            LifeKind::ThreadAttached | LifeKind::ThreadDetached => return,
        };
    }

    /// Tells the session of a class that was defined, as one of this thread. False if it is lost, and is to be told again.
    pub(crate) fn tell_class(&mut self, thread: u32, prepared: &Prepared) -> bool
        ensures told { TellsClass prepared.now.class (string_bytes prepared.now.signature) self.old.session result self.new.session }
        ensures due { self.new.due ≡ self.old.due }
    {
        self.session
            .class_prepared(thread, prepared.class, prepared.signature.as_bytes())
    }
}

ghost use Rattle.std.specs.Prelude.{◌≡◌, ℕ, true, None, is_some, string_bytes, IfNone, IfOk, IfSome};
ghost use Rattle.ti_jdwp.specs.Notes.{Dies};
ghost use Rattle.ti_debugger.specs.Crowds.{alive_in, first};
ghost use Rattle.ti_debugger.specs.Ending.{due_at_end};
ghost use Rattle.ti_debugger.specs.Desks.{Works};
ghost use Rattle.ti_debugger.specs.Opening.{OpensAs};
ghost use Rattle.ti_debugger.specs.Questions.{question_in};
ghost use Rattle.ti_debugger.specs.declared.asked.Asked.{Asked};
ghost use Rattle.ti_debugger.specs.Seats.{Says};
ghost use Rattle.ti_debugger.specs.Serving.{Comes, Given, Going, Serving, Undertakes, due_by};
ghost use Rattle.ti_debugger.specs.declared.due.Due.TheVariants.{Answer, List, Post, Settle, Place, Locate};
ghost use Rattle.ti_debugger.specs.Told.{TellsLives, TellsClass};
