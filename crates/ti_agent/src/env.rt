//! An environment, its desks, and its calls at one thread under their JVM TI names.

use crate::answers::{count_in, done_in, location_in, state_in, trace_in, word_in};
use crate::home::{Alone, Home};
use crate::manner::Manner;
use crate::posts::buffer_for;
use std::alloc::Global;
use std::marker::Model;
use std::sync::Wait;
use ti_chunked::{Chunked, KeyOf};
use ti_env::EnvState;
use ti_handshake::Desk;
use ti_types::{Answer, Call, Caps, EnvNo, Frame, ThreadNo, TiError, TraceBuf};

/// An agent's environment, with a desk at each of its threads. A thread is found by its number. The desks are in the order
/// of their threads' numbers, and no two are at threads of one number.
///
/// A call at a thread may be refused before it reaches the thread, with the first of these errors that fits:
///
/// - 99 MUST_POSSESS_CAPABILITY: it needs a capability that the environment does not have.
/// - 10 INVALID_THREAD: there is no desk at a thread of this number. But 15 THREAD_NOT_ALIVE if there was a thread of this
///   number once: after `take_desk`, or below the number given to `know_threads`.
/// - 103 ILLEGAL_ARGUMENT: its count or depth is negative.
/// - 209 CALLS_SPENT (this profile): the environment has no call left at this thread.
///
/// Then nothing changes. Otherwise the call spends one call at the thread, and gives the thread's answer, an error included.
///
/// A call that waits while the thread runs takes a `Manner`: `&rt` to wait as long as it takes, or `Within` a time.
///
/// It has its home in it: what it belongs to (`Home`). `Env` alone belongs to nothing. Contracts see the home (`home`), and the
/// environment without it (`env`). No call changes the home.
///
/// # Examples
///
/// ```rattle
/// # use ti_agent::{Env, FreeDesk};
/// # use ti_handshake::SharedCell;
/// # use ti_types::{Caps, EnvNo, Kind, Limits, MethodNo, Step, ThreadNo, TiError};
/// # let (alloc, thread) = (rt.alloc(), ThreadNo(0));
/// # let limits = Limits::new(1, 1, 4, 16, 8).ok_or("the limits are in range")?;
/// let (_cell, fresh, mut desks) = SharedCell::make(alloc, limits, thread)?;
/// let mut running = fresh.start(&rt);
/// running.step(Step::Enter(MethodNo(3)))?;
/// let desk = desks.pop().ok_or("there is one environment")?;
/// let free = FreeDesk::new(desk).ok().ok_or("the desk is new")?;
/// let mut env = Env::with_no_desks(alloc, EnvNo(0), limits);
/// assert!(rt; env.add_desk(free).is_ok());
/// // A thread that sleeps answers at once. One that runs answers at its next poll.
/// let Ok(_asleep) = running.block(&rt, Kind::Sleep) else {
///     return Err("the thread has 2 left to spend".into());
/// };
/// assert!(rt; env.get_frame_count(&rt, thread) == Ok(1));
/// let trace = env.get_stack_trace(&rt, alloc, thread, 0, 8)?;
/// assert!(rt; trace.frames().len() == 1 && trace.frames()[0].method == MethodNo(3));
/// match env.suspend_thread(&rt, thread) {
///     Err(TiError::MustPossessCapability) => env.add_capabilities(Caps::CAN_SUSPEND)?,
///     _ => return Err("can_suspend is not held".into()),
/// }
/// env.suspend_thread(&rt, thread)?;
/// ```
#[derive(Drop)]
pub struct Env<H: Home = Alone> {
    /// What the environment belongs to. Only its own crate can change what is in it.
    pub home: H,
    pub(crate) env: EnvNo,
    pub(crate) state: EnvState,
    /// The place of a thread is that of its desk here.
    pub(crate) desks: Chunked<Desk>,
}

impl<H: Home> Model for Env<H> {
    ghost use Rattle.ti_agent.specs.Env.{IsWhole};
    ghost use Rattle.ti_agent.specs.Home.{Housed, IsAtHome};

    ghost Value = { Housed H };

    ghost view = { λ a. record { home = a.home; env = record { env = a.env; state = a.state; desks = a.desks } } };

    ghost invariant = { λ a. IsWhole (record { env = a.env; state = a.state; desks = a.desks }) × IsAtHome H.about H.holds a.home (record { env = a.env; state = a.state; desks = a.desks }) };
}

/// The number of a desk's thread, as a key of desks.
struct ThreadKey;

impl KeyOf<Desk> for ThreadKey {
    ghost key = { λ d. d.view.subject.thread.0 };

    fn key(desk: &Desk) -> u32 {
        desk.thread().0
    }
}

impl Env {
    /// Makes an environment that belongs to nothing, of these desks, which are in the order of their threads' numbers. All
    /// desks are under the limits of the state, and none has made a call. The state has as many places as there are desks.
    ///
    /// `with_no_desks` and `add_desk` test all of that, and have no condition.
    pub fn new(env: EnvNo, state: EnvState, desks: Vec<Desk>) -> Env
        requires count { length state.spent ≡ length desks.items }
        requires desks { AreNewDesks env state desks.items }
        ensures { result.env ≡ record { env = env; state = state; desks = desks.items } }
    {
        for desk in &desks {
            desk.facts();
        }
        Env {
            home: Alone,
            env,
            state,
            desks: Chunked::from_vec(desks),
        }
    }
}

impl<H: Home> Env<H> {
    /// The desks of the environment, in the order of their places. Their seats may go back to the owners'
    /// (`ThreadCell::rejoin`). What the environment kept for itself is gone, as after DisposeEnvironment (JVM TI 11).
    pub fn into_desks(self) -> Vec<Desk>
        ensures { result.items ≡ self.env.desks }
    {
        let Env {
            home: _,
            env: _,
            state: _,
            desks,
        } = self;
        desks.into_vec()
    }

    /// The place of a thread, as the environment's state and the operations on its desks name it. If there is no desk at a
    /// thread of this number, it is the number of desks.
    ///
    /// It looks first where the desk is if a thread of each number is there, and then by binary search.
    #[inline(always)]
    pub(crate) fn place_of(&self, thread: ThreadNo) -> ThreadNo
        ensures { result ≡ place_of self.now.env.desks thread }
    {
        let count = self.state.threads();
        if self.is_at(thread.0, thread) {
            return thread;
        }
        let place = self.desks.partition_point::<ThreadKey>(thread.0) as u32;
        if self.is_at(place, thread) {
            return ThreadNo(place);
        }
        ThreadNo(count)
    }

    /// Whether there is a desk at a place, and it is at this thread.
    #[inline(always)]
    fn is_at(&self, place: u32, thread: ThreadNo) -> bool
        ensures there { result ≡ true → place < length self.now.env.desks }
        ensures at { result ≡ true → (thread_at self.now.env.desks place).0 ≡ thread.0 }
        ensures other { result ≡ false → place < length self.now.env.desks → (thread_at self.now.env.desks place).0 ≢ thread.0 }
    {
        place < self.state.threads() && self.desks[place as usize].thread().0 == thread.0
    }

    /// What is told of a number that has no desk: 15 in place of 10, if there was a thread of this number once. Any other
    /// error stays.
    pub(crate) fn map_error(&self, thread: ThreadNo, error: TiError) -> TiError
        ensures { result ≡ map_error (nat_lt thread.0 self.now.env.state.known) error }
    {
        match error {
            TiError::InvalidThread if u64::from(thread.0) < self.state.known() => {
                TiError::ThreadNotAlive
            }
            _ => error,
        }
    }

    /// Asks the thread at this place an admitted call, and waits for its answer if the call has to wait. The buffer has just
    /// the room that the call takes.
    #[inline(always)]
    fn ask_one<R: Wait>(
        &mut self,
        rt: &R,
        thread: ThreadNo,
        place: ThreadNo,
        call: Call,
        buf: TraceBuf,
    ) -> Answer
        requires place { place ≡ place_of self.old.env.desks thread }
        requires admitted { thread_refusal self.old.env thread call ≡ None }
        requires buf { IsJustBufferOf self.old.env.state.limits call buf }
        ensures went { Went self.old.env self.new.env thread call (said result) }
        ensures kind { IsKind call (said result) }
        ensures room { is_for_memory (said result) ≡ false }
        ensures home { self.new.home ≡ self.old.home }
    {
        let _thread = thread;
        let answer = self.desks[place.0 as usize].call(rt, call, buf);
        self.state.spend(place);
        answer
    }

    /// The place of a thread, if a call reaches it, as `EnvState::admit` says. But 15 in place of 10, if there was a thread of
    /// this number once.
    #[inline(always)]
    pub(crate) fn admit(&self, thread: ThreadNo, call: Call) -> Result<ThreadNo, TiError>
        ensures admitted { OnOk result (thread_refusal self.now.env thread call ≡ None) }
        ensures place { IfOk result (λ place. place ≡ place_of self.now.env.desks thread) }
        ensures there { OnOk result (place_in self.now.env.desks thread < length self.now.env.desks) }
        ensures refused { IfErr result (λ e. thread_refusal self.now.env thread call ≡ Some e) }
    {
        let place = self.place_of(thread);
        match self.state.admit(place, call) {
            Ok(()) => Ok(place),
            Err(error) => Err(self.map_error(thread, error)),
        }
    }

    /// Whether the environment has all of these capabilities.
    pub(crate) fn holds(&self, caps: Caps) -> bool
        ensures { result ≡ has_all self.now.env.state.caps caps }
    {
        self.state.caps().has(caps)
    }

    /// Asks the thread a call that takes no buffer.
    #[inline(always)]
    pub(crate) fn ask<R: Wait>(&mut self, rt: &R, thread: ThreadNo, call: Call) -> Answer
        requires bare { takes_buffer call ≡ false }
        ensures called { IsCalled self.old.env self.new.env thread call (said result) }
        ensures kind { IsKind call (said result) }
        ensures home { self.new.home ≡ self.old.home }
    {
        match self.admit(thread, call) {
            Ok(place) => self.ask_one(rt, thread, place, call, TraceBuf::none()),
            Err(error) => Answer::Refused(error),
        }
    }

    /// Asks the thread any call, with the buffer that the call takes.
    pub(crate) fn ask_any<R: Wait>(
        &mut self,
        rt: &R,
        alloc: Global,
        thread: ThreadNo,
        call: Call,
    ) -> Answer
        ensures called { IsCalled self.old.env self.new.env thread call (said result) }
        ensures kind { IsKind call (said result) }
        ensures home { self.new.home ≡ self.old.home }
    {
        let place = match self.admit(thread, call) {
            Ok(place) => place,
            Err(error) => return Answer::Refused(error),
        };
        match buffer_for(alloc, self.state.limits(), call) {
            Ok(buf) => self.ask_one(rt, thread, place, call, buf),
            Err(error) => Answer::Refused(error),
        }
    }

    /// Asks the thread any call, and gives its answer. It waits if the call under its JVM TI name does. `manner` says how: `&rt`
    /// as long as it takes, or `Within` a time.
    ///
    /// The answer may be an error: one that refused the call before it reached the thread, 110 OUT_OF_MEMORY if there is no
    /// memory for a trace's frames, or the thread's own.
    pub fn call<M: Manner>(
        &mut self,
        manner: M,
        alloc: Global,
        thread: ThreadNo,
        call: Call,
    ) -> Answer
        ensures called { M.called self.old.env self.new.env thread call (said result) }
        ensures kind { IsKind call (said result) }
        ensures home { self.new.home ≡ self.old.home }
    {
        manner.call(self, alloc, thread, call)
    }

    /// GetThreadState (JVM TI 11): the thread's state bits, in any mode. It never waits.
    ///
    /// Errors: 10, 209, and 15 THREAD_NOT_ALIVE if its desk is gone.
    pub fn get_thread_state<R: Wait>(&mut self, rt: &R, thread: ThreadNo) -> Result<u32, TiError>
        ensures called { IsCalled self.old.env self.new.env thread call.State (in_state result) }
        ensures home { self.new.home ≡ self.old.home }
    {
        state_in(self.ask(rt, thread, Call::State))
    }

    /// GetFrameCount (JVM TI 11): the number of the thread's frames. It waits if the thread runs.
    ///
    /// Errors: 10, 209, 15 THREAD_NOT_ALIVE.
    pub fn get_frame_count<M: Manner>(
        &mut self,
        manner: M,
        thread: ThreadNo,
    ) -> Result<u32, TiError>
        ensures called { M.called self.old.env self.new.env thread call.FrameCount (in_count result) }
        ensures home { self.new.home ≡ self.old.home }
    {
        count_in(manner.ask(self, thread, Call::FrameCount))
    }

    /// GetFrameLocation (JVM TI 11): the frame at a depth, 0 for the newest. It waits if the thread runs.
    ///
    /// Errors: 10, 103 if `depth` is negative, 209, 15 THREAD_NOT_ALIVE, and 31 NO_MORE_FRAMES if there is no frame at this
    /// depth.
    pub fn get_frame_location<M: Manner>(
        &mut self,
        manner: M,
        thread: ThreadNo,
        depth: i32,
    ) -> Result<Frame, TiError>
        ensures called { M.called self.old.env self.new.env thread (call.Location depth) (in_location result) }
        ensures home { self.new.home ≡ self.old.home }
    {
        location_in(manner.ask(self, thread, Call::Location { depth }), depth)
    }

    /// GetStackTrace (JVM TI 11): at most `max_count` frames from `start` on, the newest first. A negative `start` counts
    /// from the oldest frame, -1 for the oldest. It waits if the thread runs.
    ///
    /// Errors: 10, 103 if `max_count` is negative, 209, and 110 OUT_OF_MEMORY if there is no memory for the frames. Then
    /// nothing was posted. From the thread: 15 THREAD_NOT_ALIVE, and 103 if there is no frame at `start`. But 0 fits an
    /// empty stack.
    pub fn get_stack_trace<M: Manner>(
        &mut self,
        manner: M,
        alloc: Global,
        thread: ThreadNo,
        start: i32,
        max_count: i32,
    ) -> Result<TraceBuf, TiError>
        ensures called { M.called self.old.env self.new.env thread (call.Trace start max_count) (in_trace result) }
        ensures home { self.new.home ≡ self.old.home }
    {
        let call = Call::Trace { start, max_count };
        trace_in(manner.call(self, alloc, thread, call), start, max_count)
    }

    /// SuspendThread (JVM TI 11): suspends the thread. It waits if the thread runs, and needs `can_suspend`.
    ///
    /// Errors: 99, 10, 209, 15 THREAD_NOT_ALIVE, and 14 THREAD_SUSPENDED if the thread is suspended already.
    pub fn suspend_thread<M: Manner>(&mut self, manner: M, thread: ThreadNo) -> Result<(), TiError>
        ensures called { M.called self.old.env self.new.env thread call.Suspend (in_done result) }
        ensures home { self.new.home ≡ self.old.home }
    {
        done_in(manner.ask(self, thread, Call::Suspend))
    }

    /// ResumeThread (JVM TI 11): the thread is no longer suspended. It never waits, and needs `can_suspend`.
    ///
    /// Errors: 99, 10, 209, 15 THREAD_NOT_ALIVE, and 13 THREAD_NOT_SUSPENDED.
    pub fn resume_thread<R: Wait>(&mut self, rt: &R, thread: ThreadNo) -> Result<(), TiError>
        ensures called { IsCalled self.old.env self.new.env thread call.Resume (in_done result) }
        ensures home { self.new.home ≡ self.old.home }
    {
        done_in(self.ask(rt, thread, Call::Resume))
    }

    /// PopFrame (JVM TI 11): the newest frame goes. It waits if the thread runs, and needs `can_pop_frame`.
    ///
    /// Errors: 99, 10, 209, 15 THREAD_NOT_ALIVE, 13 THREAD_NOT_SUSPENDED, and 31 NO_MORE_FRAMES if there are fewer than two
    /// frames. 32 OPAQUE_FRAME if one of the two newest is native.
    pub fn pop_frame<M: Manner>(&mut self, manner: M, thread: ThreadNo) -> Result<(), TiError>
        ensures called { M.called self.old.env self.new.env thread call.Pop (in_done result) }
        ensures home { self.new.home ≡ self.old.home }
    {
        done_in(manner.ask(self, thread, Call::Pop))
    }

    /// GetThreadLocalStorage (JVM TI 11): the environment's word at the thread, 0 until it is set. It never waits.
    ///
    /// Errors: 10, 209, 15 THREAD_NOT_ALIVE.
    pub fn get_thread_local_storage<R: Wait>(
        &mut self,
        rt: &R,
        thread: ThreadNo,
    ) -> Result<u64, TiError>
        ensures called { IsCalled self.old.env self.new.env thread call.GetWord (in_word result) }
        ensures home { self.new.home ≡ self.old.home }
    {
        word_in(self.ask(rt, thread, Call::GetWord))
    }

    /// SetThreadLocalStorage (JVM TI 11): sets the environment's word at the thread. It never waits.
    ///
    /// Errors: 10, 209, 15 THREAD_NOT_ALIVE.
    pub fn set_thread_local_storage<R: Wait>(
        &mut self,
        rt: &R,
        thread: ThreadNo,
        word: u64,
    ) -> Result<(), TiError>
        ensures called { IsCalled self.old.env self.new.env thread (call.SetWord word) (in_done result) }
        ensures home { self.new.home ≡ self.old.home }
    {
        done_in(self.ask(rt, thread, Call::SetWord(word)))
    }
}

ghost use Rattle.std.specs.Prelude.{◌≡◌, ◌≢◌, ◌<◌, nat_lt, length, true, false, None, Some, IfOk, IfErr, OnOk};
ghost use Rattle.ti_types.specs.Answer.{said};
ghost use Rattle.ti_types.specs.Caps.{has_all};
ghost use Rattle.ti_types.specs.declared.call.Call.TheVariants as call;
ghost use Rattle.ti_replay.specs.Admission.{takes_buffer};
ghost use Rattle.ti_agent.specs.Buffers.{IsJustBufferOf};
ghost use Rattle.ti_agent.specs.Env.{Environment, AreNewDesks, place_in, place_of, thread_at, thread_refusal, map_error};
ghost use Rattle.ti_agent.specs.Asks.{Went, IsCalled, IsKind, is_for_memory, in_state, in_count, in_word, in_location, in_trace, in_done};
