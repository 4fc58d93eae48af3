//! Desks that come and go while an environment is at work.

use crate::env::Env;
use crate::free_desk::FreeDesk;
use crate::home::{Alone, Home};
use std::alloc::Global;
use std::sync::Wait;
use ti_cell::Pace;
use ti_types::{EnvNo, Limits, ThreadNo, TiError};

impl Env {
    /// Makes an environment that belongs to nothing, has done nothing, and is at no thread yet (this profile). It takes no
    /// memory.
    pub fn with_no_desks(alloc: Global, env: EnvNo, limits: Limits) -> Env
        ensures { result.env ≡ record { env = env; state = env_at_no_thread limits; desks = [] } }
    {
        Env::at_home(alloc, Alone, env, limits)
    }
}

impl<H: Home> Env<H> {
    /// The number of the environment (this profile).
    pub fn number(&self) -> EnvNo
        ensures { result ≡ self.now.env.env }
    {
        self.env
    }

    /// The limits of the environment and its desks (this profile).
    pub fn limits(&self) -> Limits
        ensures { result ≡ self.now.env.state.limits }
    {
        self.state.limits()
    }

    /// At how many threads the environment has a desk (this profile).
    pub fn desk_count(&self) -> u32
        ensures { result ≡ length self.now.env.desks }
    {
        self.state.threads()
    }

    /// The number of the thread of a desk, by its index among the desks (this profile). `None` if there is no such desk.
    pub fn thread_at(&self, index: u32) -> Option<ThreadNo>
        ensures thread { IfSome result (λ t. t ≡ thread_at self.now.env.desks index) }
        ensures place { IfSome result (λ t. index ≡ place_in self.now.env.desks t) }
        ensures there { IfSome result (λ t. index < length self.now.env.desks) }
        ensures none { IfNone result (length self.now.env.desks ≤ index) }
    {
        if index < self.state.threads() {
            Some(self.desks[index as usize].thread())
        } else {
            None
        }
    }

    /// The index of the desk at a thread, among the desks (this profile). If there is no desk at a thread of this number, it is
    /// the number of desks.
    pub fn index_of(&self, thread: ThreadNo) -> u32
        ensures { result ≡ place_in self.now.env.desks thread }
    {
        self.place_of(thread).0
    }

    /// How many of the environment's calls are out at a thread: they wait, or have an answer that is not collected (this
    /// profile). 0 if there is no desk at a thread of this number.
    pub fn out_at(&self, thread: ThreadNo) -> u32
        ensures { result ≡ outstanding self.now.env thread }
    {
        self.out_by_index(self.index_of(thread))
    }

    /// The same as `out_at`, by the index of the desk. 0 if there is no such desk.
    pub fn out_by_index(&self, index: u32) -> u32
        ensures { result ≡ out_of (slice_get self.now.env.desks index) }
    {
        if index < self.state.threads() {
            self.desks[index as usize].out()
        } else {
            0
        }
    }

    /// Whether a thread of this number may come: the number is not below `known`, and above those of all desks.
    fn is_new(&self, thread: ThreadNo) -> bool
        ensures { result ≡ is_new self.now.env thread }
    {
        if u64::from(thread.0) < self.state.known() {
            return false;
        }
        let count = self.state.threads();
        count == 0 || self.desks[count as usize - 1].thread().0 < thread.0
    }

    /// Adds a desk, behind the others (this profile). The environment's calls reach its thread from then on, and have what is
    /// left there. The desk may be in the environment's home, which is always so if the environment belongs to nothing.
    ///
    /// The error is the first of these that fits:
    ///
    /// - 116 INVALID_ENVIRONMENT: it is another environment's desk, or its thread is under other limits.
    /// - 103 ILLEGAL_ARGUMENT: its thread's number is not above those of all desks, or is of a thread that was there before
    ///   (`take_desk`, `know_threads`).
    /// - 216 (this profile: `Full`): there are 65,536 desks.
    /// - 110 OUT_OF_MEMORY: there is no memory for it.
    ///
    /// Then nothing changes, and the desk comes back as it was.
    ///
    /// # Examples
    ///
    /// ```rattle
    /// # use ti_agent::{Env, FreeDesk};
    /// # use ti_handshake::SharedCell;
    /// # use ti_types::{EnvNo, Limits, ThreadNo, TiError};
    /// # let alloc = rt.alloc();
    /// # let limits = Limits::new(1, 1, 4, 16, 8).ok_or("the limits are in range")?;
    /// # let others = limits.with_window(2).ok_or("the window is in range")?;
    /// # let (_cell, _fresh, mut desks) = SharedCell::make(alloc, limits, ThreadNo(0))?;
    /// # let desk = desks.pop().ok_or("there is one environment")?;
    /// # let free = FreeDesk::new(desk).ok().ok_or("the desk is new")?;
    /// let mut env = Env::with_no_desks(alloc, EnvNo(0), others);
    /// let Err((TiError::InvalidEnvironment, free)) = env.add_desk(free) else {
    ///     return Err("the desk is under other limits".into());
    /// };
    /// let mut env = Env::with_no_desks(alloc, EnvNo(0), limits);
    /// assert!(rt; env.add_desk(free).is_ok());
    /// ```
    pub fn add_desk(&mut self, free: FreeDesk) -> Result<(), (TiError, FreeDesk)>
        requires home { H.holds self.old.home (spot_of free.desk) }
        ensures admitted { OnOk result (desk_refusal self.old.env free ≡ None) }
        ensures added { OnOk result (self.new.env ≡ with_desk self.old.env free) }
        ensures refused { IfErr result (λ r. Some r.0 ≡ or_else (desk_refusal self.old.env free) (Some OutOfMemory)) }
        ensures back { IfErr result (λ r. r.1 ≡ free) }
        ensures unchanged { OnErr result (self.new ≡ self.old) }
        ensures home { self.new.home ≡ self.old.home }
    {
        if free.env().0 != self.env.0 || !are_same(free.limits(), self.limits()) {
            return Err((TiError::InvalidEnvironment, free));
        }
        if !self.is_new(free.thread()) {
            return Err((TiError::IllegalArgument, free));
        }
        if self.state.is_full() {
            return Err((TiError::Full, free));
        }
        match self.state.add_place(free.spent) {
            Ok(()) => (),
            Err(error) => return Err((error, free)),
        }
        let FreeDesk { desk, spent } = free;
        match self.desks.push(desk) {
            Ok(()) => Ok(()),
            Err(desk) => {
                let last = ThreadNo(self.state.threads() - 1);
                self.state.remove_place(last);
                Err((TiError::OutOfMemory, FreeDesk { desk, spent }))
            }
        }
    }

    /// Takes the desk at a thread out of the environment, with what is spent there (this profile). The others keep their
    /// order. From then on the environment's calls at this number are answered 15 THREAD_NOT_ALIVE, and no desk at a thread
    /// of this number or a lower one comes.
    ///
    /// The calls that are out there stay out.
    ///
    /// `None` if there is no desk at a thread of this number. Then nothing changes.
    pub fn take_desk(&mut self, thread: ThreadNo) -> Option<FreeDesk>
        ensures taken { IfSome result (λ f. IsTaken self.old.env self.new.env thread f) }
        ensures nobody { IfNone result (length self.old.env.desks ≤ place_in self.old.env.desks thread) }
        ensures unchanged { IfNone result (self.new ≡ self.old) }
        ensures home { self.new.home ≡ self.old.home }
    {
        let index = self.index_of(thread);
        self.take_by_index(index)
    }

    /// The same as `take_desk`, by the index of the desk. `None` if there is no such desk.
    pub fn take_by_index(&mut self, index: u32) -> Option<FreeDesk>
        ensures there { IfSome result (λ f. index < length self.old.env.desks) }
        ensures taken { IfSome result (λ f. (t : ThreadNo) → index ≡ place_in self.old.env.desks t → IsTaken self.old.env self.new.env t f) }
        ensures nobody { IfNone result (length self.old.env.desks ≤ index) }
        ensures unchanged { IfNone result (self.new ≡ self.old) }
        ensures home { self.new.home ≡ self.old.home }
    {
        if index >= self.state.threads() {
            return None;
        }
        let desk = self.desks.remove(index as usize);
        let spent = self.state.remove_place(ThreadNo(index));
        self.state.know(u64::from(desk.thread().0) + 1);
        Some(FreeDesk { desk, spent })
    }

    /// Takes the desk at a thread out of the environment, as `take_desk` does, and leaves nothing there of what the
    /// environment did (JVM TI 11, DisposeEnvironment). If it may suspend threads or pop frames, it waits until none of its calls is out
    /// there (`quiesce`). Otherwise those that are out are cancelled. Its word is 0 again, if a call is left there: that costs one.
    ///
    /// `None` if there is no desk at a thread of this number. Then nothing changes. The error is 110 OUT_OF_MEMORY if there is
    /// no memory to note the calls that are cancelled. Then nothing else changed.
    pub fn clear_desk<R: Wait>(
        &mut self,
        rt: &R,
        alloc: Global,
        thread: ThreadNo,
    ) -> Result<Option<FreeDesk>, TiError>
        ensures cleared { IfOk result (λ r. IfSome r (λ f. Retires self.old.env self.new.env thread f)) }
        ensures nobody { IfOk result (λ r. IfNone r (length self.old.env.desks ≤ place_in self.old.env.desks thread)) }
        ensures same { IfOk result (λ r. IfNone r (MayQuiesce self.old.env self.new.env thread)) }
        ensures memory { IfErr result (λ e. e ≡ OutOfMemory) }
        ensures steps { OnErr result (MayQuiesce self.old.env self.new.env thread) }
        ensures home { self.new.home ≡ self.old.home }
    {
        let pace = Pace::new();
        for _ in rt.forever() {
            match self.settle(rt, alloc, thread) {
                Ok(()) => (),
                Err(error) => return Err(error),
            }
            match self.clear_desk_now(alloc, thread) {
                Ok(cleared) => {
                    wake_sleepers_of(&cleared);
                    return Ok(cleared);
                }
                Err(TiError::Busy) => self.await_free_at(rt, thread, &pace),
                Err(error) => return Err(error),
            }
        }
        unreachable!()
    }

    /// Notes that the numbers below this one were threads once (this profile). So a call at one of them that has no desk is
    /// answered 15 THREAD_NOT_ALIVE, and not 10 INVALID_THREAD. What is known already stays known.
    pub fn know_threads(&mut self, below: u64)
        ensures called { self.new.env ≡ record { env = self.old.env.env; state = with_known self.old.env.state below; desks = self.old.env.desks } }
        ensures home { self.new.home ≡ self.old.home }
    {
        self.state.know(below);
    }
}

/// Wakes whoever sleeps at the thread of a desk and may go on.
fn wake_sleepers_of(free: &Option<FreeDesk>) {
    if let Some(free) = free {
        free.wake_sleepers();
    }
}

/// Whether these limits are the same.
fn are_same(one: Limits, other: Limits) -> bool
    ensures { result ≡ are_same one other }
{
    one.threads == other.threads
        && one.envs == other.envs
        && one.depth == other.depth
        && one.own == other.own
        && one.calls == other.calls
        && one.window == other.window
        && one.kept == other.kept
}

ghost use Rattle.std.specs.Prelude.{◌≡◌, ◌<◌, ◌≤◌, [], length, slice_get, None, Some, IfSome, IfNone, IfOk, IfErr, OnOk, OnErr};
ghost use Rattle.ti_types.specs.declared.numbers.ThreadNo.{ThreadNo};
ghost use Rattle.ti_types.specs.Refusing.{or_else};
ghost use Rattle.ti_types.specs.declared.error.TiError.TheVariants.{OutOfMemory};
ghost use Rattle.ti_env.specs.Env.{env_at_no_thread, with_known};
ghost use Rattle.ti_agent.specs.Env.{out_of, outstanding, place_in, thread_at};
ghost use Rattle.ti_agent.specs.Spots.{spot_of};
ghost use Rattle.ti_agent.specs.Desks.{are_same, desk_refusal, is_new, with_desk, IsTaken, Retires};
ghost use Rattle.ti_agent.specs.Quiesced.{MayQuiesce};
