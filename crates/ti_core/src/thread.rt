//! A thread of the core: its slot, and its frames and log while it runs.

use std::alloc::Global;
use std::marker::Model;
use ti_frames::{Frames, Log};
use ti_slot::{Asked, Slot};
use ti_types::{
    Answer, Call, Entry, EnvNo, Limits, Outcome, Safe, Step, ThreadNo, TiError, Ticket, TraceBuf,
};

/// One thread of the core: its slot, and beside it the frames and the log of a thread that runs.
#[derive(Drop)]
pub struct OneThread {
    slot: Slot,
    frames: Option<Frames>,
    log: Option<Log>,
}

impl Model for OneThread {
    ghost use Rattle.ti_core.specs.Thread.{ThreadState};

    ghost Value = { ThreadState };

    ghost use Rattle.ti_core.specs.Inside.{state_in, IsWhole};

    ghost view = { λ a. state_in a.slot a.log };

    ghost invariant = { λ a. IsWhole a.slot a.frames a.log };
}

impl OneThread {
    /// A thread that has not started, with all the room that it will need. No environment may spend more calls than may be out
    /// at once.
    ///
    /// The error is 110 if there is no memory for it.
    pub fn new(alloc: Global, limits: Limits, number: ThreadNo) -> Result<Self, TiError>
        requires wide { limits.calls ≤ limits.window }
        ensures new { IfOk result (λ t. t ≡ new_state limits number) }
        ensures memory { IfErr result (λ e. e ≡ TiError.OutOfMemory) }
    {
        let slot = Slot::new(alloc, limits, number)?;
        Ok(OneThread {
            slot,
            frames: None,
            log: None,
        })
    }

    /// Starts the thread: 210 if it is not new, then 206 if a stop is in force.
    pub fn start(&mut self) -> Result<(), TiError>
        ensures next { self.new ≡ own_next self.old.thread.limits self.old entry.Start }
        ensures said { result ≡ own_said (refusal_at self.old.thread.limits self.old entry.Start) }
    {
        match self.slot.start() {
            Ok((frames, log)) => {
                self.frames = Some(frames);
                self.log = Some(log);
                Ok(())
            }
            Err(error) => Err(error),
        }
    }

    /// Lets the thread return: 205 if it is not safe, then 206 if it is barred.
    pub fn back(&mut self) -> Result<(), TiError>
        ensures next { self.new ≡ own_next self.old.thread.limits self.old entry.Back }
        ensures said { result ≡ own_said (refusal_at self.old.thread.limits self.old entry.Back) }
    {
        match self.slot.back() {
            Ok(frames) => {
                self.frames = Some(frames);
                Ok(())
            }
            Err(error) => Err(error),
        }
    }

    /// Makes a step, which the running thread logs: 204 if it does not run, then 201, 202 or 203 by its frames, then 208.
    pub fn own(&mut self, step: Step) -> Result<(), TiError>
        ensures next { self.new ≡ own_next self.old.thread.limits self.old (entry.Own step) }
        ensures said { result ≡ own_said (refusal_at self.old.thread.limits self.old (entry.Own step)) }
    {
        let left = self.slot.own_left() as usize;
        let Some(frames) = &mut self.frames else {
            return Err(TiError::NotRunning);
        };
        let Some(log) = &mut self.log else {
            unreachable!()
        };
        if let Some(error) = frames.refusal(step) {
            return Err(error);
        }
        if left <= log.len() {
            return Err(TiError::OwnSpent);
        }
        match frames.apply(step) {
            Ok(()) => {
                log.push(step);
                Ok(())
            }
            Err(_) => unreachable!(),
        }
    }

    /// Hands over: the frames and the log's steps go into the slot, and the waiting calls take place. 204 if the thread does
    /// not run, then 207 or 208.
    pub fn hand_over(&mut self, safe: Safe) -> Result<(), TiError>
        requires armed { safe ≡ AtPoll → is_armed self.old.thread.limits (entries self.old) ≡ true }
        ensures next { self.new ≡ own_next self.old.thread.limits self.old (entry.Hand safe) }
        ensures said { result ≡ own_said (refusal_at self.old.thread.limits self.old (entry.Hand safe)) }
    {
        let Some(frames) = self.frames.take() else {
            return Err(TiError::NotRunning);
        };
        let Some(log) = &mut self.log else {
            unreachable!()
        };
        match self.slot.hand_over(frames, log, safe) {
            Ok(()) => Ok(()),
            Err((error, frames)) => {
                self.frames = Some(frames);
                Err(error)
            }
        }
    }

    /// Ends the thread: its frames go, and then the waiting calls take place. 204 if it does not run.
    pub fn end(&mut self) -> Result<(), TiError>
        ensures next { self.new ≡ own_next self.old.thread.limits self.old entry.End }
        ensures said { result ≡ own_said (refusal_at self.old.thread.limits self.old entry.End) }
    {
        let Some(frames) = self.frames.take() else {
            return Err(TiError::NotRunning);
        };
        let Some(log) = &mut self.log else {
            unreachable!()
        };
        self.slot.end(frames, log);
        Ok(())
    }

    /// Makes the event of the thread's own that leaves this entry, if it is not refused.
    pub fn make(&mut self, own: Entry) -> Result<(), TiError>
        requires own { is_made own ≡ true }
        ensures next { self.new ≡ own_next self.old.thread.limits self.old own }
        ensures said { result ≡ own_said (refusal_at self.old.thread.limits self.old own) }
    {
        match own {
            Entry::Start => self.start(),
            Entry::Own(step) => self.own(step),
            Entry::Hand(safe) => self.hand_over(safe),
            Entry::Back => self.back(),
            Entry::End => self.end(),
            Entry::Asked(_, _, _) | Entry::Stop(_) | Entry::Read(_, _) | Entry::Go(_) =>
                unreachable!(),
        }
    }

    /// Polls. If nobody calls for the thread, nothing happens. Otherwise it hands over, and returns if nothing bars it. 204
    /// if the thread does not run.
    pub fn poll(&mut self) -> Outcome
        ensures next { self.new ≡ poll_next self.old.thread.limits self.old }
        ensures said { result ≡ poll_said self.old.thread.limits self.old }
    {
        if self.frames.is_none() {
            return Outcome::Refused(TiError::NotRunning);
        }
        if !self.slot.armed() {
            return Outcome::Clear;
        }
        let _handed = self.hand_over(Safe::AtPoll);
        match self.back() {
            Ok(()) => Outcome::Went,
            Err(_) => Outcome::Held,
        }
    }

    /// Makes an admitted call: its answer, or its ticket if it waits for the running thread.
    pub fn ask(&mut self, env: EnvNo, call: Call, buf: TraceBuf) -> Outcome
        requires env { env.0 < self.old.thread.limits.envs }
        requires well_formed { is_well_formed call ≡ true }
        requires calls { calls_spent env self.old.thread.history < self.old.thread.limits.calls }
        requires buf { IsBufferOf self.old.thread.limits call buf }
        ensures next { self.new ≡ ask_next self.old.thread.limits self.old env call }
        ensures said { told_now result ≡ given (reply_now self.old.thread.limits self.old env call) }
        ensures ticket { IfPosted result (λ k. k ≡ ticket_of self.old.thread env) }
    {
        self.slot.tickets();
        match self.slot.ask(env, call, buf) {
            Asked::Answered(answer) => Outcome::Gave(answer),
            Asked::Waiting(ticket) => Outcome::Posted(ticket),
        }
    }

    /// An admitted stop: 211 if any stop is in force.
    pub fn stop(&mut self, env: EnvNo) -> Outcome
        requires env { env.0 < self.old.thread.limits.envs }
        requires calls { calls_spent env self.old.thread.history < self.old.thread.limits.calls }
        ensures next { self.new ≡ stop_next self.old.thread.limits self.old env self.old.thread.number }
        ensures said { told_now result ≡ stop_told self.old.thread.limits self.old env self.old.thread.number }
    {
        Outcome::Gave(self.slot.stop(env))
    }

    /// A go: 212 if this environment's stop is not in force.
    pub fn go(&mut self, env: EnvNo) -> Outcome
        requires env { env.0 < self.old.thread.limits.envs }
        ensures next { self.new ≡ go_next self.old.thread.limits self.old env self.old.thread.number }
        ensures said { told_now result ≡ go_told self.old.thread.limits self.old env self.old.thread.number }
    {
        Outcome::Gave(self.slot.go(env))
    }

    /// An admitted read: 212 if this environment's stop is not in force, then 213 if the thread runs.
    pub fn read(&mut self, env: EnvNo, max_count: i32, buf: TraceBuf) -> Outcome
        requires env { env.0 < self.old.thread.limits.envs }
        requires count { is_not_negative max_count ≡ true }
        requires calls { calls_spent env self.old.thread.history < self.old.thread.limits.calls }
        requires buf { HasRoomFor self.old.thread.limits (or_zero_of max_count) buf }
        ensures next { self.new ≡ read_next self.old.thread.limits self.old env self.old.thread.number max_count }
        ensures said { told_now result ≡ read_told self.old.thread.limits self.old env self.old.thread.number max_count }
        ensures gave { is_some (told_now result) ≡ true }
    {
        Outcome::Gave(self.slot.read(env, max_count, buf))
    }

    /// The answer to a call that waited, once, if it is there.
    pub fn take(&mut self, ticket: Ticket) -> Option<Answer>
        ensures answer { option_map said result ≡ (if has ticket self.old.thread.uncollected then reply_to self.old.thread.limits self.old.thread.history ticket else None) }
        ensures next { self.new ≡ taken self.old ticket (is_some result) }
    {
        self.slot.collect(ticket)
    }

    /// Whether this environment's stop is in force and the thread does not run.
    pub fn standing(&self, env: EnvNo) -> bool
        ensures { result ≡ is_standing self.now.thread.limits self.now.thread.history env }
    {
        self.slot.standing(env)
    }
}

ghost use Rattle.std.specs.Prelude.{◌≡◌, ◌≢◌, ◌<◌, ◌≤◌, if◌then◌else◌, true, false, None, Some, MatchOption, IfOk, IfErr, is_some};
ghost use Rattle.std.specs.Option.{option_map};
ghost use Rattle.ti_types.specs.Answer.{said};
ghost use Rattle.ti_types.specs.declared.entry.Entry.TheVariants as entry;
ghost use Rattle.ti_replay.specs.Answers.{or_zero as or_zero_of};
ghost use Rattle.ti_replay.specs.Legal.{is_armed, is_well_formed, is_not_negative, calls_spent};
ghost use Rattle.ti_replay.specs.Events.{given};
ghost use Rattle.ti_replay.specs.Outcomes.{told_now};
ghost use Rattle.ti_replay.specs.Tickets.{reply_to};
ghost use Rattle.ti_slot.specs.Waiting.{IsBufferOf, HasRoomFor};
ghost use Rattle.ti_slot.specs.Thread.{ticket_of};
ghost use Rattle.ti_slot.specs.Tickets.{has};
ghost use Rattle.ti_core.specs.Thread.{ThreadState, is_made, entries, refusal_at, own_next, own_said, poll_next, poll_said, reply_now, ask_next, stop_next, stop_told, go_next, go_told, read_next, read_told, taken, new_state};
ghost use Rattle.ti_core.specs.Inside.{state_in, IsWhole};
ghost use Rattle.ti_core.specs.Threads.{IfPosted};
ghost use Rattle.ti_replay.specs.Standing.{is_standing};
ghost use Rattle.ti_types.specs.declared.state.Safe.TheVariants.{AtPoll};
