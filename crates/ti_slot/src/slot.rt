//! The slot of a thread: its history, its state, and the calls that wait.

use crate::asked::Asked;
use crate::call_answers::{answer_at_once, answer_by_frames, stack};
use crate::condition::{Condition, set, take_call};
use crate::new_entries::push;
use std::alloc::Global;
use std::marker::Model;
use ti_frames::{Frames, Log};
use ti_ops::PendingOps;
use ti_replay::rules::{is_put_off, is_running, is_stopper, waits};
use ti_trail::{Record, Recording};
use ti_types::{
    Answer, Call, Entry, EnvNo, Limits, Mode, ThreadNo, TiError, Ticket, TraceBuf, WordList,
};

/// One thread: its state, its frames while it does not run, its waiting calls, and its history.
///
/// Contracts see it as a `Thread`: its limits, its number, its history, and the tickets of the waiting calls whose answers
/// were not collected. All else is a function of these.
///
/// Each call below takes a constant time, or the time of the steps, calls and frames that it moves. None goes over the
/// history, and only `new` takes memory.
///
/// # Examples
///
/// ```rattle
/// # use ti_slot::{Asked, Slot};
/// # use ti_types::{Answer, Call, EnvNo, Kind, Limits, MethodNo, Safe, Step, ThreadNo, TraceBuf};
/// # let limits = Limits::new(1, 1, 4, 16, 8).ok_or("the limits are in range")?;
/// let mut slot = Slot::new(rt.alloc(), limits, ThreadNo(0))?;
/// let (mut frames, mut log) = slot.start()?;
/// // The thread runs: it makes its steps on its frames, and logs them.
/// frames.apply(Step::Enter(MethodNo(3)))?;
/// log.push(Step::Enter(MethodNo(3)));
/// let asked = slot.ask(EnvNo(0), Call::FrameCount, TraceBuf::none());
/// let Asked::Waiting(ticket) = asked else {
///     return Err("a running thread answers later".into());
/// };
/// assert!(rt; slot.armed() && slot.collect(ticket).is_none());
/// let handed_over = slot.hand_over(frames, &mut log, Safe::Blocked(Kind::Sleep));
/// assert!(rt; handed_over.is_ok());
/// assert!(rt; matches!(slot.collect(ticket), Some(Answer::Count(1))));
/// ```
#[derive(Drop)]
pub struct Slot {
    pub(crate) limits: Limits,
    pub(crate) number: ThreadNo,
    // What calls change is kept together, so that little memory goes from one processor to another with the slot.
    pub(crate) condition: Condition,
    pub(crate) history: Record<Entry>,
    /// What the thread has spent of its own entries.
    pub(crate) own: u64,
    /// How often the thread has handed over.
    pub(crate) handed: u64,
    pub(crate) ops: PendingOps,
    /// `None` exactly while the thread runs, which has them then.
    pub(crate) frames: Option<Frames>,
    /// `None` from the start on: the thread has it then.
    pub(crate) log: Option<Log>,
}

impl Model for Slot {
    ghost use Rattle.ti_slot.specs.Thread.{Thread};

    ghost Value = { Thread };

    ghost use Rattle.ti_slot.specs.Inside.{thread_in, IsWhole};

    ghost view = { thread_in };

    ghost invariant = { IsWhole };
}

impl Slot {
    /// A thread that has not started, with all the room that it will ever need. Its history takes memory only if it is to be
    /// read again.
    ///
    /// Fails with `OutOfMemory` (110) if there is no memory for that room, and in no other case (this profile).
    pub fn new(alloc: Global, limits: Limits, number: ThreadNo) -> Result<Self, TiError>
        ensures thread { IfOk result (λ s. s ≡ new_slot limits number) }
        ensures memory { IfErr result (λ e. e ≡ TiError.OutOfMemory) }
    {
        let recording = Recording::of(limits.kept);
        let frames = Frames::new(alloc, limits.depth)?;
        let log = Log::new(alloc, limits.own, recording)?;
        let words = WordList::zeros(alloc, limits.envs as usize)?;
        let ops = PendingOps::new(alloc, limits.envs, limits.window + 1)?;
        let all_calls = limits.envs as u64 * limits.calls;
        let history = Record::new(alloc, limits.own + 4 * all_calls + 2, recording)?;
        Ok(Slot {
            limits,
            number,
            condition: Condition {
                mode: Mode::New,
                suspended: false,
                stopper: None,
                words,
            },
            frames: Some(frames),
            log: Some(log),
            own: 0,
            handed: 0,
            ops,
            history,
        })
    }

    /// Makes a call at the thread. One that reads frames, a suspension and a pop wait for a running thread until it hands
    /// over or ends (JEP 312). Every other call is answered at once. The entry has the number of the environment's next
    /// call.
    ///
    /// The answer may be a refusal by the thread, as JVM TI 11 says of each call. It is `ThreadNotAlive` (15),
    /// `IllegalArgument` (103) for a trace's `start`, `NoMoreFrames` (31), `ThreadSuspended` (14), `ThreadNotSuspended` (13)
    /// or `OpaqueFrame` (32). A refused call changes nothing but the history. A pop takes the newest of the frames that lie
    /// here.
    ///
    /// The call is well formed, and the environment has a call left. The buffer is empty and has room for a trace's frames.
    /// One call may wait beyond the window.
    #[inline(always)]
    pub fn ask(&mut self, env: EnvNo, call: Call, buf: TraceBuf) -> Asked
        requires env { env.0 < self.old.limits.envs }
        requires well_formed { is_well_formed call ≡ true }
        requires calls { calls_spent env self.old.history < self.old.limits.calls }
        requires room { waits_is call ≡ true → held_by env self.old.uncollected ≤ self.old.limits.window }
        requires buf { IsBufferOf self.old.limits call buf }
        ensures asked { IsAsked self.old self.new env call result }
        ensures late { IsLate call result }
        ensures legal { is_legal self.new.limits self.new.history ≡ true }
    {
        if !waits(call) {
            return Asked::Answered(self.ask_at_once(env, call));
        }
        let no = self.ops.asked(env);
        let entry = Entry::Asked(env, no, call);
        if is_put_off(self.condition.mode, call) {
            let ticket = Ticket {
                env,
                thread: self.number,
                no,
            };
            self.ops.post(ticket, call, buf);
            push(&mut self.history, entry);
            Asked::Waiting(ticket)
        } else {
            let Some(frames) = &mut self.frames else {
                unreachable!()
            };
            push(&mut self.history, entry);
            let told = answer_by_frames(&self.condition, frames, &self.limits, call, buf);
            take_call(&mut self.condition, frames, env, call);
            self.ops.pass(env);
            Asked::Answered(told)
        }
    }

    /// Makes a call at the thread that is answered at once, whatever the thread does: a question for its state, a resumption,
    /// or one of the two calls about the environment's word. It is the same as `ask` of such a call, but takes no buffer and
    /// gives no ticket.
    ///
    /// The answer may be a refusal by the thread, as JVM TI 11 says of each call. It is `ThreadNotAlive` (15) or
    /// `ThreadNotSuspended` (13). A refused call changes nothing but the history.
    ///
    /// The call is not one that waits, and the environment has a call left.
    #[inline(always)]
    pub fn ask_at_once(&mut self, env: EnvNo, call: Call) -> Answer
        requires env { env.0 < self.old.limits.envs }
        requires at_once { waits_is call ≡ false }
        requires calls { calls_spent env self.old.history < self.old.limits.calls }
        ensures asked { IsAsked self.old self.new env call (Answered result) }
        ensures legal { is_legal self.new.limits self.new.history ≡ true }
    {
        let no = self.ops.asked(env);
        push(&mut self.history, Entry::Asked(env, no, call));
        let told = answer_at_once(&self.condition, env, call);
        set(&mut self.condition, env, call);
        self.ops.pass(env);
        told
    }

    /// How many calls of an environment wait, or have an answer that is not collected. 0 if there is no such environment.
    #[inline(always)]
    pub fn out(&self, env: EnvNo) -> u32
        ensures { result ≡ held_by env self.now.uncollected }
    {
        if env.0 < self.limits.envs {
            self.ops.out(env)
        } else {
            0
        }
    }

    /// Whether a call waits, or has an answer that is not collected.
    pub fn is_out(&self, ticket: Ticket) -> bool
        ensures { result ≡ has ticket self.now.uncollected }
    {
        if ticket.thread.0 == self.number.0 {
            self.ops.is_out(ticket)
        } else {
            false
        }
    }

    /// The ticket of the first of an environment's calls, from a number on, that waits or has an answer that is not
    /// collected. `None` if there is none.
    pub fn next_out(&self, env: EnvNo, from: u64) -> Option<Ticket>
        ensures { IsNextOut self.now.number self.now.uncollected env from result }
    {
        match self.ops.next_out(env, from) {
            None => None,
            Some(no) => Some(Ticket {
                env,
                thread: self.number,
                no,
            }),
        }
    }

    /// Takes the answer to a call that waited, once it is there: the reply of the history to the ticket.
    ///
    /// `None` before that, and for a ticket that was collected, was answered at once or was never given. Then nothing
    /// changes.
    pub fn collect(&mut self, ticket: Ticket) -> Option<Answer>
        ensures answer { option_map said result ≡ (if has ticket self.old.uncollected then reply_to self.old.limits self.old.history ticket else None) }
        ensures thread { self.new ≡ with_tickets self.old (if is_some result then without_ticket ticket self.old.uncollected else self.old.uncollected) }
    {
        if ticket.thread.0 != self.number.0 {
            return None;
        }
        self.ops.collect(ticket)
    }

    /// Reads the thread's state and at most `max_count` of its newest frames under a stop of the environment (JVM TI 11,
    /// GetAllStackTraces). A thread that is not alive has no frames. `max_count` is not negative. The buffer is empty and
    /// has room for the frames.
    ///
    /// Refused with `NotStopped` (212) if the environment's stop is not in force. Otherwise refused with `StillRunning`
    /// (213) if the thread still runs (this profile). A refused read changes nothing.
    pub fn read(&mut self, env: EnvNo, max_count: i32, buf: TraceBuf) -> Answer
        requires env { env.0 < self.old.limits.envs }
        requires count { is_not_negative max_count ≡ true }
        requires calls { calls_spent env self.old.history < self.old.limits.calls }
        requires buf { HasRoomFor self.old.limits (or_zero_of max_count) buf }
        ensures answer { read_answer (stopping_refusal (view self.old.limits self.old.history) (event.Read env self.old.number max_count)) (reply self.new.limits self.new.history (length self.old.history)) ≡ Some (said result) }
        ensures thread { self.new ≡ with_more self.old (if_none (stopping_refusal (view self.old.limits self.old.history) (event.Read env self.old.number max_count)) (entry.Read env max_count ∷ [])) }
        ensures legal { is_legal self.new.limits self.new.history ≡ true }
    {
        if !is_stopper(self.condition.stopper, env) {
            return Answer::Refused(TiError::NotStopped);
        }
        let Some(frames) = &self.frames else {
            return Answer::Refused(TiError::StillRunning);
        };
        let told = stack(&self.condition, frames, max_count, buf);
        push(&mut self.history, Entry::Read(env, max_count));
        told
    }

    /// Lets an environment stop the thread, which runs on to its next hand-over and may not return (this profile).
    ///
    /// Refused with `AlreadyStopped` (211) if a stop is in force, the environment's own too. Then nothing changes.
    pub fn stop(&mut self, env: EnvNo) -> Answer
        requires env { env.0 < self.old.limits.envs }
        requires calls { calls_spent env self.old.history < self.old.limits.calls }
        ensures answer { said result ≡ done_or (stopping_refusal (view self.old.limits self.old.history) (event.Stop env self.old.number)) }
        ensures thread { self.new ≡ with_more self.old (if_none (stopping_refusal (view self.old.limits self.old.history) (event.Stop env self.old.number)) (entry.Stop env ∷ [])) }
        ensures legal { is_legal self.new.limits self.new.history ≡ true }
    {
        if self.condition.stopper.is_some() {
            return Answer::Refused(TiError::AlreadyStopped);
        }
        self.condition.stopper = Some(env);
        push(&mut self.history, Entry::Stop(env));
        Answer::Done
    }

    /// Lets an environment take its stop away.
    ///
    /// Refused with `NotStopped` (212) if this environment's stop is not in force. Then nothing changes.
    pub fn go(&mut self, env: EnvNo) -> Answer
        requires { env.0 < self.old.limits.envs }
        ensures answer { said result ≡ done_or (stopping_refusal (view self.old.limits self.old.history) (event.Go env self.old.number)) }
        ensures thread { self.new ≡ with_more self.old (if_none (stopping_refusal (view self.old.limits self.old.history) (event.Go env self.old.number)) (entry.Go env ∷ [])) }
        ensures legal { is_legal self.new.limits self.new.history ≡ true }
    {
        let held = is_stopper(self.condition.stopper, env);
        if !held {
            return Answer::Refused(TiError::NotStopped);
        }
        self.condition.stopper = None;
        push(&mut self.history, Entry::Go(env));
        Answer::Done
    }

    /// What the thread may still spend of its own budget: a step costs 1, a hand-over to native or blocked 2.
    #[inline(always)]
    pub fn own_left(&self) -> u64
        ensures left { result + own_spent self.now.history ≡ self.now.limits.own }
    {
        self.limits.own - self.own
    }

    /// How often the thread has handed over, in native code, blocked or at a poll. A hand-over that was refused does not
    /// count, and neither does the thread's end.
    ///
    /// # Examples
    ///
    /// ```rattle
    /// # use ti_slot::Slot;
    /// # use ti_types::{Kind, Limits, Safe, ThreadNo};
    /// # let limits = Limits::new(1, 1, 4, 16, 8).ok_or("the limits are in range")?;
    /// let mut slot = Slot::new(rt.alloc(), limits, ThreadNo(0))?;
    /// let (frames, mut log) = slot.start()?;
    /// assert!(rt; slot.hand_overs() == 0);
    /// // No frame is native, so the thread does not hand over to native code.
    /// let Err((_, frames)) = slot.hand_over(frames, &mut log, Safe::Native) else {
    ///     return Err("the newest frame is not native".into());
    /// };
    /// assert!(rt; slot.hand_overs() == 0);
    /// let handed_over = slot.hand_over(frames, &mut log, Safe::Blocked(Kind::Sleep));
    /// assert!(rt; handed_over.is_ok() && slot.hand_overs() == 1);
    /// let frames = slot.back()?;
    /// slot.end(frames, &mut log);
    /// assert!(rt; slot.hand_overs() == 1);
    /// ```
    pub fn hand_overs(&self) -> u64
        ensures { result ≡ hand_overs self.now.history }
    {
        self.handed
    }

    /// Whether the thread has to hand over at its next poll: a waiting call is unanswered, or a stop is in force.
    #[inline(always)]
    pub fn armed(&self) -> bool
        ensures { result ≡ is_armed self.now.limits self.now.history }
    {
        self.ops.waiting() > 0 || self.condition.stopper.is_some()
    }

    /// Whether the thread may not start or return: it is suspended, or a stop is in force.
    #[inline(always)]
    pub fn barred(&self) -> bool
        ensures { result ≡ is_barred (view self.now.limits self.now.history) }
    {
        self.condition.suspended || self.condition.stopper.is_some()
    }

    /// Whether this environment's stop is in force and the thread does not run.
    pub fn standing(&self, env: EnvNo) -> bool
        ensures { result ≡ is_standing self.now.limits self.now.history env }
    {
        is_stopper(self.condition.stopper, env) && !is_running(self.condition.mode)
    }

    /// Whose stop is in force. `None` if there is no stop.
    pub fn stopper(&self) -> Option<EnvNo>
        ensures { result ≡ (view self.now.limits self.now.history).stopper }
    {
        self.condition.stopper
    }

    /// What is always true of the tickets. None is there twice, and each is of a call of this thread's history. An
    /// environment has at most as many as it asked calls.
    pub fn tickets(&self)
        ensures once { AreOnce self.now.uncollected }
        ensures few { (env : EnvNo) → held_by env self.now.uncollected ≤ asked_by env self.now.history }
        ensures known { (k : Ticket) → has k self.now.uncollected ≡ true → (k.thread.0 == self.now.number.0 && nat_lt k.no (asked_by k.env self.now.history)) ≡ true }
    {
        let _ = &self.history;
    }

    /// How many entries the history has.
    #[inline(always)]
    pub fn len(&self) -> usize
        ensures len { result ≡ length self.now.history }
        ensures legal { is_legal self.now.limits self.now.history ≡ true }
    {
        self.history.len() as usize
    }

    /// The entries so far, the earliest first. `None` if the limits do not keep them (see `Limits::recorded`).
    pub fn history(&self) -> Option<&[Entry]>
        ensures kept { is_some result ≡ self.now.limits.kept }
        ensures entries { IfSome result (λ s. s.now ≡ self.now.history) }
        ensures legal { is_legal self.now.limits self.now.history ≡ true }
    {
        self.history.items()
    }

    /// The entries so far, the earliest first. `None` if the limits do not keep them. The rest of the slot is dropped.
    pub fn into_history(self) -> Option<Vec<Entry>>
        ensures kept { is_some result ≡ self.limits.kept }
        ensures entries { IfSome result (λ v. v.items ≡ self.history) }
        ensures legal { is_legal self.limits self.history ≡ true }
    {
        let Slot {
            limits: _,
            number: _,
            condition: _,
            frames: _,
            log: _,
            own: _,
            handed: _,
            ops: _,
            history,
        } = self;
        history.into_items()
    }
}

ghost use Rattle.std.specs.Prelude.{◌≡◌, ◌<◌, ◌≤◌, ◌+◌, ◌-◌, ◌*◌, ◌∷◌, [], true, false, length, Some, None, IfOk, IfErr, IfSome, if◌then◌else◌, is_some};
ghost use Rattle.ti_types.specs.Answer.{said};
ghost use Rattle.ti_types.specs.declared.entry.Entry.TheVariants as entry;
ghost use Rattle.ti_types.specs.declared.event.Event.TheVariants as event;
ghost use Rattle.ti_replay.specs.Answers.{or_zero as or_zero_of};
ghost use Rattle.ti_replay.specs.Settling.{waits as waits_is};
ghost use Rattle.ti_replay.specs.View.{view, is_barred};
ghost use Rattle.ti_replay.specs.Legal.{is_legal, is_armed, is_well_formed, is_not_negative, own_spent, calls_spent, asked_by};
ghost use Rattle.ti_replay.specs.Events.{stopping_refusal, if_none};
ghost use Rattle.ti_replay.specs.Standing.{is_standing};
ghost use Rattle.ti_replay.specs.Replies.{reply};
ghost use Rattle.ti_slot.specs.declared.asked.Asked.TheVariants.{Answered};
ghost use Rattle.ti_slot.specs.Thread.{new_slot, with_more, with_tickets, done_or, IsAsked, IsLate, read_answer};
ghost use Rattle.std.specs.Option.{option_map};
ghost use Rattle.ti_slot.specs.Tickets.{has, held_by, without_ticket, AreOnce, IsNextOut};
ghost use Rattle.ti_types.specs.declared.event.Ticket.{Ticket};
ghost use Rattle.ti_types.specs.declared.numbers.EnvNo.{EnvNo};
ghost use Rattle.std.specs.Prelude.{◌&&◌, ◌==◌, nat_lt};
ghost use Rattle.ti_replay.specs.Tickets.{reply_to};
ghost use Rattle.ti_slot.specs.Waiting.{IsBufferOf, HasRoomFor};
ghost use Rattle.ti_slot.specs.HandOvers.{hand_overs};
