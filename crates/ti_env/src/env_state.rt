//! What an environment keeps for itself, and which calls it refuses.

use std::alloc::Global;
use std::marker::Model;
use ti_chunked::Chunked;
use ti_types::{Call, Caps, Limits, ThreadNo, TiError, needs};

/// What an environment keeps for itself: its capabilities, its own word, and how many calls it has spent at each
/// thread. No other environment changes any of it.
///
/// A thread is named by its place here, counted from 0. `new` makes a place for each of the `threads` of the limits. An
/// environment that is made `at_no_thread` gets its places later, by `add_place`. By `remove_place` a place goes.
///
/// It also keeps which numbers were threads once: all below `known`.
///
/// # Examples
///
/// ```rattle
/// use ti_env::EnvState;
/// use ti_types::{Call, Caps, Limits, ThreadNo, TiError};
///
/// let limits = Limits::new(1, 1, 4, 16, 8).ok_or("the limits are in range")?;
/// let mut state = EnvState::new(rt.alloc(), limits)?;
/// let thread = ThreadNo(0);
/// assert!(rt; state.admit(thread, Call::Suspend) == Err(TiError::MustPossessCapability));
/// state.add(Caps::CAN_SUSPEND)?;
/// state.admit(thread, Call::Suspend)?;
/// state.spend(thread);
/// assert_eq!(rt; state.left(thread), 7, "one of 8 is spent");
/// assert!(rt; state.admit(ThreadNo(1), Call::State) == Err(TiError::InvalidThread));
/// ```
#[derive(Drop, Debug)]
pub struct EnvState {
    caps: Caps,
    /// The capabilities that it has or once had.
    had: Caps,
    /// By the place of the thread.
    spent: Chunked<u64>,
    limits: Limits,
    word: u64,
    /// The numbers below this one were threads once.
    known: u64,
}

impl Model for EnvState {
    ghost use Rattle.std.specs.Prelude.{◌≤◌, length};
    ghost use Rattle.ti_env.specs.Env.{EnvValue};

    ghost Value = { EnvValue };

    ghost view = { λ a. record { caps = a.caps; had = a.had; spent = a.spent; limits = a.limits; word = a.word; known = a.known } };

    ghost invariant = { λ a. length a.spent ≤ 65536 };
}

impl EnvState {
    /// An environment that has done nothing (JVM TI 11, GetCapabilities and GetEnvironmentLocalStorage). It has no
    /// capabilities and the word 0, and has spent no call at any of the `threads` of the limits. It knows of no number that
    /// it was a thread once.
    ///
    /// The one error is 110 OUT_OF_MEMORY, if there is no memory for a number for each thread. Every other call takes no
    /// memory.
    pub fn new(alloc: Global, limits: Limits) -> Result<Self, TiError>
        ensures new { IfOk result (λ s. s ≡ new_env limits) }
        ensures memory { IfErr result (λ e. e ≡ OutOfMemory) }
    {
        Ok(EnvState {
            caps: Caps::none(),
            had: Caps::none(),
            spent: Chunked::from_vec(vec![in alloc; 0; limits.threads as usize]?),
            limits,
            word: 0,
            known: 0,
        })
    }

    /// An environment that has done nothing, and has no place for a thread yet (this profile). It takes no memory.
    pub fn at_no_thread(alloc: Global, limits: Limits) -> Self
        ensures { result ≡ env_at_no_thread limits }
    {
        EnvState {
            caps: Caps::none(),
            had: Caps::none(),
            spent: Chunked::new(alloc),
            limits,
            word: 0,
            known: 0,
        }
    }

    /// Whether there are 65,536 places, so that no other can be added (this profile).
    pub fn is_full(&self) -> bool
        ensures { result ≡ nat_le 65536 (length self.now.spent) }
    {
        self.spent.len() >= MOST_PLACES
    }

    /// Adds a place for a thread, behind the others. This many calls are spent there already (this profile).
    ///
    /// The error is 216 (this profile: `Full`) if there are 65,536 places, and then 110 OUT_OF_MEMORY if there is no memory
    /// for one more. Then nothing changes.
    pub fn add_place(&mut self, spent: u64) -> Result<(), TiError>
        ensures added { OnOk result (self.new ≡ with_place self.old spent) }
        ensures admitted { OnOk result (place_refusal self.old ≡ None) }
        ensures refused { IfErr result (λ e. Some e ≡ or_else (place_refusal self.old) (Some OutOfMemory)) }
        ensures unchanged { OnErr result (self.new ≡ self.old) }
    {
        if self.is_full() {
            return Err(TiError::Full);
        }
        match self.spent.push(spent) {
            Ok(()) => Ok(()),
            Err(_) => Err(TiError::OutOfMemory),
        }
    }

    /// Removes a place. Those behind it move up by one (this profile). It gives how many calls are spent there. There must be
    /// such a place.
    pub fn remove_place(&mut self, place: ThreadNo) -> u64
        requires there { place.0 < length self.old.spent }
        ensures spent { result ≡ spent_at self.old place }
        ensures removed { self.new ≡ without_place self.old place }
    {
        self.spent.remove(place.0 as usize)
    }

    /// Notes that the numbers below this one were threads once (this profile). What is known already stays known.
    pub fn know(&mut self, below: u64)
        ensures { self.new ≡ with_known self.old below }
    {
        if self.known < below {
            self.known = below;
        }
    }

    /// All numbers below this one were threads once, as `know` was told (this profile). 0 if none is known.
    pub fn known(&self) -> u64
        ensures { result ≡ self.now.known }
    {
        self.known
    }

    /// The limits that it was made under.
    pub fn limits(&self) -> Limits
        ensures { result ≡ self.now.limits }
    {
        self.limits
    }

    /// How many places for threads there are, at most 65,536 (this profile).
    pub fn threads(&self) -> u32
        ensures counted { length self.now.spent ≡ result }
        ensures most { result ≤ 65536 }
    {
        self.spent.len() as u32
    }

    /// The capabilities that the environment has (JVM TI 11, GetCapabilities).
    pub fn caps(&self) -> Caps
        ensures { result ≡ self.now.caps }
    {
        self.caps
    }

    /// The capabilities that the environment has, or has relinquished (this profile). A call that it posted with one of them may
    /// still take place.
    pub fn had(&self) -> Caps
        ensures { result ≡ self.now.had }
    {
        self.had
    }

    /// Adds capabilities to those that the environment has, all of them or none (JVM TI 11, AddCapabilities). One that it
    /// has already is no error.
    ///
    /// The error is 98 NOT_AVAILABLE if one of them cannot be had. Then nothing changes.
    pub fn add(&mut self, caps: Caps) -> Result<(), TiError>
        ensures available { IsOk result ↔ (can_be_had caps ≡ true) }
        ensures added { OnOk result (self.new ≡ with_caps self.old (caps_with self.old.caps caps)) }
        ensures refused { IfErr result (λ e. e ≡ NotAvailable) }
        ensures unchanged { OnErr result (self.new ≡ self.old) }
    {
        if !caps.can_be_had() {
            return Err(TiError::NotAvailable);
        }
        self.caps = self.caps.add(caps);
        self.had = self.had.add(self.caps);
        Ok(())
    }

    /// Relinquishes capabilities (JVM TI 11, RelinquishCapabilities). One that the environment does not have is no error.
    pub fn relinquish(&mut self, caps: Caps)
        ensures { self.new ≡ with_caps self.old (caps_without self.old.caps caps) }
    {
        self.caps = self.caps.relinquish(caps);
        self.had = self.had.add(self.caps);
    }

    /// The environment's own word, 0 until it is set (JVM TI 11, GetEnvironmentLocalStorage). Its words at threads are not
    /// here.
    pub fn word(&self) -> u64
        ensures { result ≡ self.now.word }
    {
        self.word
    }

    /// Sets the environment's own word (JVM TI 11, SetEnvironmentLocalStorage).
    pub fn set_word(&mut self, word: u64)
        ensures { self.new ≡ with_word self.old word }
    {
        self.word = word;
    }

    /// Checks that there is such a thread (otherwise 10), that the call is well formed (otherwise 103), and that a call is
    /// left (otherwise 209).
    #[inline(always)]
    fn check(&self, thread: ThreadNo, well_formed: bool) -> Result<(), TiError>
        ensures passed { OnOk result (reaching_refusal (is_there self.now thread) well_formed (spent_at self.now thread) self.now.limits.calls ≡ None) }
        ensures refused { IfErr result (λ e. reaching_refusal (is_there self.now thread) well_formed (spent_at self.now thread) self.now.limits.calls ≡ Some e) }
    {
        let index = thread.0 as usize;
        if index >= self.spent.len() {
            return Err(TiError::InvalidThread);
        }
        if !well_formed {
            return Err(TiError::IllegalArgument);
        }
        if self.spent[index] >= self.limits.calls {
            return Err(TiError::CallsSpent);
        }
        Ok(())
    }

    /// Whether a call reaches its thread. The error is the first of these that fits:
    ///
    /// - 99 MUST_POSSESS_CAPABILITY: the call needs a capability that the environment does not have.
    /// - 10 INVALID_THREAD: there is no such thread.
    /// - 103 ILLEGAL_ARGUMENT: `max_count` or `depth` is negative.
    /// - 209 CALLS_SPENT: no call is left at the thread.
    ///
    /// The first three are JVM TI 11's. The last and the order are this profile's. Nothing changes, and nothing is spent.
    #[inline(always)]
    pub fn admit(&self, thread: ThreadNo, call: Call) -> Result<(), TiError>
        ensures admitted { OnOk result (call_refusal self.now thread call ≡ None) }
        ensures refused { IfErr result (λ e. call_refusal self.now thread call ≡ Some e) }
    {
        if !self.caps.has(needs(call)) {
            return Err(TiError::MustPossessCapability);
        }
        self.check(thread, call.is_well_formed())
    }

    /// Whether a stop reaches its thread (this profile). The error is the first of these that fits:
    ///
    /// - 10 INVALID_THREAD: there is no such thread.
    /// - 209 CALLS_SPENT: no call is left there.
    ///
    /// Nothing changes, and nothing is spent.
    pub fn admit_stop(&self, thread: ThreadNo) -> Result<(), TiError>
        ensures admitted { OnOk result (stop_refusal self.now thread ≡ None) }
        ensures refused { IfErr result (λ e. stop_refusal self.now thread ≡ Some e) }
    {
        self.check(thread, true)
    }

    /// Whether a read under a stop reaches its thread (this profile, after JVM TI 11's GetAllStackTraces). The error is the
    /// first of these that fits:
    ///
    /// - 10 INVALID_THREAD: there is no such thread.
    /// - 103 ILLEGAL_ARGUMENT: `max_count` is negative.
    /// - 209 CALLS_SPENT: no call is left there.
    ///
    /// Nothing changes, and nothing is spent.
    pub fn admit_read(&self, thread: ThreadNo, max_count: i32) -> Result<(), TiError>
        ensures admitted { OnOk result (read_refusal self.now thread max_count ≡ None) }
        ensures refused { IfErr result (λ e. read_refusal self.now thread max_count ≡ Some e) }
    {
        self.check(thread, max_count >= 0)
    }

    /// How many calls are left at a thread (this profile). 0 if there is no such thread.
    pub fn left(&self, thread: ThreadNo) -> u64
        ensures { result ≡ left_at self.now thread }
    {
        let index = thread.0 as usize;
        if index >= self.spent.len() {
            return 0;
        }
        self.limits.calls.saturating_sub(self.spent[index])
    }

    /// Spends one of the calls that are left at a thread. Nothing is spent at the others (this profile). There must be such
    /// a thread, and a call must be left there, as after `admit`, `admit_stop` or `admit_read`.
    #[inline(always)]
    pub fn spend(&mut self, thread: ThreadNo)
        requires there { thread.0 < length self.old.spent }
        requires left { spent_at self.old thread < self.old.limits.calls }
        ensures { self.new ≡ with_spent self.old thread }
    {
        let _calls = self.limits.calls;
        self.spent[thread.0 as usize] += 1;
    }
}

/// How many places there may be at most.
const MOST_PLACES: usize = 65536;

ghost use Rattle.std.specs.Prelude.{◌≡◌, ◌<◌, ◌≤◌, ◌↔◌, true, nat_le, None, Some, length, IfOk, IfErr, OnOk, OnErr, IsOk};
ghost use Rattle.ti_types.specs.Caps.{caps_with, caps_without, can_be_had};
ghost use Rattle.ti_types.specs.declared.error.TiError.TheVariants.{NotAvailable, OutOfMemory};
ghost use Rattle.ti_types.specs.Admitting.{reaching_refusal};
ghost use Rattle.ti_types.specs.Refusing.{or_else};
ghost use Rattle.ti_env.specs.Env.{EnvValue, new_env, env_at_no_thread, with_place, without_place, with_known, with_caps, with_word, with_spent, is_there, spent_at, left_at, place_refusal, call_refusal, stop_refusal, read_refusal};
