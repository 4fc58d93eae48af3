//! The roster itself.

mod stops;
mod threads;

use crate::coming::Coming;
use crate::info::ThreadInfo;
use crate::life::Life;
use crate::row::{Row, ThreadKey};
use std::alloc::Global;
use std::marker::Model;
use std::sync::Arc;
use ti_agent::FreeDesk;
use ti_cell::Watched;
use ti_chunked::Chunked;
use ti_stops::Stops;
use ti_trail::GhostList;
use ti_types::{EnvNo, Limits, ThreadNo, TiError};

/// Who is there, and what has happened. Contracts see it as a `Log`: what happened, the limits, and whose seat the roster goes
/// to when it is put back.
#[derive(Drop)]
pub struct Roster {
    log: GhostList<Coming>,
    /// How much has happened.
    len: u64,
    /// The number of the next thread.
    next: u32,
    limits: Limits,
    /// Whose seat it goes to when it is put back.
    user: Option<EnvNo>,
    /// The threads that are there, in the order of their numbers.
    rows: Chunked<Row>,
    /// What is noted of each environment's number. `None` while no environment has it. Otherwise the environment has taken its
    /// desks at the threads below this number.
    marks: Vec<Option<u32>>,
    /// By the number of an environment: whether calls of the last one of this number were out at a thread when it was disposed of.
    littered: Vec<bool>,
    /// The events of threads' lives.
    pub(crate) life: Life,
    /// What was asked about stops, and who waits.
    stops: Stops,
    /// Whether somebody has asked for a stop, or no longer does, since the roster was last put back.
    asked: bool,
    /// What is to be told of that. `None` if nothing is.
    watched: Option<Arc<Watched>>,
}

impl Model for Roster {
    ghost use Rattle.std.specs.Prelude.{◌≡◌, ◌<◌, ◌^◌, length};
    ghost use Rattle.ti_roster.specs.Events.{AreEvents};
    ghost use Rattle.ti_roster.specs.Log.{Log, threads_in};
    ghost use Rattle.ti_roster.specs.Rows.{AreRows};
    ghost use Rattle.ti_roster.specs.Stops.{stops_of};

    ghost Value = { Log };

    ghost view = { λ r. record { items = r.log.items; limits = r.limits; user = r.user } };

    ghost invariant = { λ r. (r.len ≡ length r.log.items) × (r.len < 2 ^ 62) × (r.next ≡ threads_in r.log.items) × AreRows r.log.items r.limits r.rows r.marks.items × AreEvents r.log.items r.life.events × (r.stops ≡ stops_of r.log.items) };
}

impl Roster {
    /// A roster of nobody, with as many numbers as the limits have environments. 110 OUT_OF_MEMORY if there is no memory for
    /// it.
    pub fn new(alloc: Global, limits: Limits) -> Result<Roster, TiError>
        ensures new { IfOk result (λ r. r ≡ record { items = []; limits = limits; user = None }) }
        ensures memory { IfErr result (λ e. e ≡ OutOfMemory) }
    {
        Ok(Roster {
            log: GhostList::new(),
            len: 0,
            next: 0,
            limits,
            user: None,
            rows: Chunked::new(alloc),
            marks: vec![in alloc; None; limits.envs as usize]?,
            littered: vec![in alloc; false; limits.envs as usize]?,
            life: Life::new(alloc)?,
            stops: Stops::new(alloc),
            asked: false,
            watched: None,
        })
    }

    /// Whose seat it goes to when it is put back: an environment's, or any other user's.
    pub fn user(&self) -> Option<EnvNo>
        ensures { result ≡ self.now.user }
    {
        self.user
    }

    /// Notes whose seat it goes to when it is put back.
    pub(crate) fn serve(&mut self, user: Option<EnvNo>)
        ensures { self.new ≡ record self.old { user = user } }
    {
        self.user = user;
    }

    /// How much has happened.
    pub fn len(&self) -> u64
        ensures len { result ≡ length self.now.items }
        ensures fits { result < 2 ^ 62 }
    {
        self.len
    }

    /// Whether there is a thread of this number: it came, and was not given back.
    pub fn is_live(&self, thread: ThreadNo) -> bool
        ensures { result ≡ is_live thread self.now.items }
    {
        self.index_of(thread).is_some()
    }

    /// How many of the threads that are there have a number below this one. It is a binary search.
    fn count_below(&self, number: u32) -> usize
        ensures within { result ≤ length (live self.now.items) }
        ensures below { (j : ℕ) (n : Newcomer) → j < result → slice_get (live self.now.items) j ≡ Some n → n.thread.0 < number }
        ensures from { (j : ℕ) (n : Newcomer) → result ≤ j → slice_get (live self.now.items) j ≡ Some n → number ≤ n.thread.0 }
    {
        self.rows.partition_point::<ThreadKey>(number)
    }

    /// The index of a thread's row, if the thread is there.
    fn index_of(&self, thread: ThreadNo) -> Option<usize>
        ensures there { IfSome result (λ i. IsIndex (live self.now.items) thread i) }
        ensures none { IfNone result (is_live thread self.now.items ≡ false) }
    {
        let i = self.count_below(thread.0);
        if i < self.rows.len() && self.rows[i].thread().0 == thread.0 {
            Some(i)
        } else {
            None
        }
    }

    /// The limits of all threads and environments.
    pub(crate) fn limits(&self) -> Limits
        ensures { result ≡ self.now.limits }
    {
        self.limits
    }

    /// How many threads have come. It is the number of the next one.
    pub fn next(&self) -> u32
        ensures { result ≡ threads_in self.now.items }
    {
        self.next
    }

    /// The name and the priority of a thread that is there, as they were when it was attached.
    ///
    /// The error is the first of these that fits:
    ///
    /// - 10 INVALID_THREAD: there was no thread of this number.
    /// - 15 THREAD_NOT_ALIVE: it was given back.
    /// - 110 OUT_OF_MEMORY: there is no memory for the name.
    pub fn info(&self, alloc: Global, thread: ThreadNo) -> Result<ThreadInfo, TiError>
        ensures told { IfOk result (λ i. IsToldOf self.now thread i) }
        ensures refused { IfErr result (λ e. e ≡ info_refusal self.now thread) }
    {
        match self.index_of(thread) {
            Some(i) => self.rows[i].newcomer.info.copy(alloc),
            None => Err(self.missing(thread)),
        }
    }

    /// Why a thread that is not there is not there: 15 if it was given back, or else 10.
    fn missing(&self, thread: ThreadNo) -> TiError
        ensures { result ≡ (if nat_lt thread.0 (threads_in self.now.items) then ThreadNotAlive else InvalidThread) }
    {
        if thread.0 < self.next {
            TiError::ThreadNotAlive
        } else {
            TiError::InvalidThread
        }
    }

    /// The numbers of the live threads, each above those before it: of each that has started and has not ended, and is there. 110
    /// OUT_OF_MEMORY if there is no memory for them.
    pub fn threads(&self, alloc: Global) -> Result<Vec<ThreadNo>, TiError>
        ensures threads { IfOk result (λ t. t.items ≡ map (λ n. n.thread) (alive self.now.items)) }
        ensures memory { IfErr result (λ e. e ≡ OutOfMemory) }
    {
        let mut threads = Vec::with_capacity(alloc, self.rows.len())?;
        for i in 0..self.rows.len() {
            if self.rows[i].stage.is_alive() {
                threads.push_reserved(self.rows[i].thread());
            }
        }
        Ok(threads)
    }

    /// The first number that no environment has, and at which no call was out when the last environment was disposed of.
    fn clean_place(&self) -> Option<u32>
        ensures place { IfSome result (λ p. (p < self.now.limits.envs) × (mark_of (record { 0 = p }) self.now.items ≡ None)) }
    {
        for p in 0..self.limits.envs {
            let at = p as usize;
            if self.marks[at].is_none() && !is_set(&self.littered, at) {
                return Some(p);
            }
        }
        None
    }

    /// The first number that no environment has.
    fn free_place(&self) -> Option<u32>
        ensures place { IfSome result (λ p. (p < self.now.limits.envs) × (mark_of (record { 0 = p }) self.now.items ≡ None)) }
        ensures none { IfNone result (AreTaken self.now) }
    {
        for p in 0..self.limits.envs {
            if self.marks[p as usize].is_none() {
                return Some(p);
            }
        }
        None
    }

    /// The number of the environment that comes next: a clean one, if there is one.
    fn next_place(&self) -> Option<u32>
        ensures place { IfSome result (λ p. (p < self.now.limits.envs) × (mark_of (record { 0 = p }) self.now.items ≡ None)) }
        ensures none { IfNone result (AreTaken self.now) }
    {
        match self.clean_place() {
            Some(place) => Some(place),
            None => self.free_place(),
        }
    }

    /// An environment comes, and has a number that no environment has. It has taken no desk. From now on the roster is in
    /// its service. While there is another, it is not given a number at which calls of the last environment were out when that was
    /// disposed of, since these take room of its window.
    ///
    /// 216 `Full` (this profile) if every number is taken, or if there were 2^62 - 1 comings and goings in all. Then nothing
    /// changes. It takes no memory.
    pub fn attach(&mut self) -> Result<EnvNo, TiError>
        ensures free { IfOk result (λ e. (e.0 < self.old.limits.envs) × (mark_of e self.old.items ≡ None)) }
        ensures attached { IfOk result (λ e. self.new ≡ with_user (with_item self.old (Attached e)) e) }
        ensures refused { IfErr result (λ e. (e ≡ Full) × IsPlaceless self.old) }
        ensures unchanged { OnErr result (self.new ≡ self.old) }
    {
        if self.len >= LAST {
            return Err(TiError::Full);
        }
        let Some(place) = self.next_place() else {
            return Err(TiError::Full);
        };
        let env = EnvNo(place);
        self.marks[place as usize] = Some(0);
        clear(&mut self.littered, place as usize);
        self.log = self.log.and(&Coming::Attached(env));
        self.len += 1;
        self.user = Some(env);
        Ok(env)
    }

    /// An environment's desks at the threads below this number are in no row.
    fn first_left(&self, env: EnvNo) -> u32
        requires { env.0 < self.now.limits.envs }
        ensures { (t : ThreadNo) → t.0 < result → lies env t self.now.items ≡ Out }
    {
        match self.marks[env.0 as usize] {
            Some(first) => first,
            None => 0,
        }
    }

    /// Whether an environment has taken its desks at all threads that came. It has one of the numbers.
    fn has_met_all(&self, env: EnvNo) -> bool
        requires { env.0 < self.now.limits.envs }
        ensures { result ≡ has_met_all env self.now.items }
    {
        match self.marks[env.0 as usize] {
            Some(mark) => mark == self.next,
            None => false,
        }
    }

    /// The environment that the roster serves takes its desks at the threads that came since it last did, and are there. The
    /// desks are in the order of their threads' numbers, and unused. If no thread came, nothing changes.
    ///
    /// The error is the first of these that fits, and then nothing changes:
    ///
    /// - 116 INVALID_ENVIRONMENT: the roster serves no environment, or none of this service.
    /// - 216 `Full` (this profile): there were 2^62 - 1 comings and goings in all.
    /// - 110 OUT_OF_MEMORY: there is no memory for the desks' list.
    pub fn meet(&mut self, alloc: Global) -> Result<Vec<FreeDesk>, TiError>
        ensures met { IfOk result (λ d. HasMet self.old self.new d.items) }
        ensures refused { IfErr result (λ e. e ≡ meeting_refusal self.old) }
        ensures unchanged { OnErr result (self.new ≡ self.old) }
    {
        let env = match self.user {
            Some(env) if env.0 < self.limits.envs => env,
            _ => return Err(TiError::InvalidEnvironment),
        };
        if self.has_met_all(env) {
            return Ok(Vec::new(alloc));
        }
        if self.len >= LAST {
            return Err(TiError::Full);
        }
        let first = self.count_below(self.first_left(env));
        let mut desks = Vec::with_capacity(alloc, self.rows.len() - first)?;
        take_desks(&mut self.rows, first, env, &mut desks);
        self.marks[env.0 as usize] = Some(self.next);
        self.log = self.log.and(&Coming::Met(env, self.next));
        self.len += 1;
        Ok(desks)
    }

    /// The desk of an environment that leaves goes into the row of its thread. If the thread was given back, or its row has
    /// the desk, it is let go of.
    fn take_back(&mut self, desk: FreeDesk)
        requires may { MayGoBack self.old desk }
        requires place { desk.desk.env.0 < self.old.limits.envs }
        requires room { length self.old.items < most_items }
        ensures { self.new ≡ and_back self.old desk }
    {
        let (env, thread) = (desk.env(), desk.thread());
        let Some(i) = self.index_of(thread) else {
            return;
        };
        let place = env.0 as usize;
        if self.rows[i].has(place) {
            return;
        }
        set_if(&mut self.littered, place, desk.out() > 0);
        self.rows[i].put(place, desk);
        self.marks[place] = Some(0);
        self.log = self.log.and(&Coming::GaveBack(env, thread));
        self.len += 1;
    }

    /// The environment that the roster serves is disposed of. Its number is free, and the roster serves nobody. Each of its
    /// desks goes back into the row of its thread, unless the thread was given back: then the desk is let go of.
    ///
    /// The error is the first of these that fits, and then nothing changes, and the desks come back:
    ///
    /// - 116 INVALID_ENVIRONMENT: the roster serves no environment, or none of this service.
    /// - 216 `Full` (this profile): there were 2^62 - 1 comings and goings in all, or there would be with the desks.
    pub fn dispose(&mut self, desks: Vec<FreeDesk>) -> Result<(), (TiError, Vec<FreeDesk>)>
        requires { All (λ f. MayGoBack self.old f) desks.items }
        ensures disposed { OnOk result (HasDisposed self.old self.new desks.items) }
        ensures refused { IfErr result (λ r. r.0 ≡ (if serves self.old then Full else InvalidEnvironment)) }
        ensures limit { IfErr result (λ r. r.0 ≡ Full → most_items ≤ length self.old.items + length desks.items) }
        ensures back { IfErr result (λ r. r.1 ≡ desks) }
        ensures unchanged { OnErr result (self.new ≡ self.old) }
    {
        let env = match self.user {
            Some(env) if env.0 < self.limits.envs => env,
            _ => return Err((TiError::InvalidEnvironment, desks)),
        };
        if self.len + desks.len() as u64 >= LAST {
            return Err((TiError::Full, desks));
        }
        for desk in desks {
            self.take_back(desk);
        }
        self.marks[env.0 as usize] = None;
        self.asked = self.asked || self.stops.is_watched();
        self.stops.leave(env);
        self.log = self.log.and(&Coming::Disposed(env));
        self.len += 1;
        self.user = None;
        Ok(())
    }
}

/// Whether there is such a flag, and it is set.
fn is_set(flags: &[bool], at: usize) -> bool {
    matches!(flags.get(at), Some(true))
}

/// Sets a flag on this condition, if there is one at this index.
fn set_if(flags: &mut [bool], at: usize, condition: bool) {
    if let Some(one) = flags.get_mut(at) {
        *one = *one || condition;
    }
}

/// Clears a flag, if there is one at this index.
fn clear(flags: &mut [bool], at: usize) {
    if let Some(one) = flags.get_mut(at) {
        *one = false;
    }
}

/// Takes the desks of an environment out of the rows from an index on, in which there is room for it.
fn take_desks(rows: &mut Chunked<Row>, start: usize, env: EnvNo, desks: &mut Vec<FreeDesk>)
    requires places { (i : ℕ) (r : Row) → slice_get rows.old i ≡ Some r → env.0 < length r.desks.items }
    requires room { length desks.old.items + length rows.old ≤ vec_capacity desks.old + start }
    ensures count { length rows.new ≡ length rows.old }
    ensures before { (i : ℕ) (r q : Row) → i < start → slice_get rows.old i ≡ Some r → slice_get rows.new i ≡ Some q → q ≡ r }
    ensures each { (i : ℕ) (r q : Row) → start ≤ i → slice_get rows.old i ≡ Some r → slice_get rows.new i ≡ Some q → IsTaken env r q }
    ensures desks { desks.new.items ≡ desks.old.items ++ desks_in env (drop start rows.old) }
{
    for i in start..rows.len() {
        if let Some(desk) = rows[i].take(env.0 as usize) {
            desks.push_reserved(desk);
        }
    }
}

/// How much may happen at most.
const LAST: u64 = (1 << 62) - 1;

ghost use Rattle.std.specs.Prelude.{◌≡◌, ◌<◌, ◌≤◌, ◌^◌, ◌+◌, ◌++◌, [], ℕ, All, false, drop, length, map, nat_lt, slice_get, vec_capacity, None, Some, IfOk, IfErr, IfSome, IfNone, OnOk, OnErr, if◌then◌else◌};
ghost use Rattle.ti_types.specs.declared.error.TiError.TheVariants.{Full, InvalidEnvironment, InvalidThread, OutOfMemory, ThreadNotAlive};
ghost use Rattle.ti_roster.specs.declared.coming.Coming.TheVariants.{Attached};
ghost use Rattle.ti_roster.specs.Log.{Out, lies, threads_in, mark_of, live, is_live, with_item, with_user};
ghost use Rattle.ti_roster.specs.Stages.{alive};
ghost use Rattle.ti_types.specs.declared.numbers.ThreadNo.{ThreadNo};
ghost use Rattle.ti_roster.specs.declared.newcomer.Newcomer.{Newcomer};
ghost use Rattle.ti_roster.specs.declared.row.Row.{Row};
ghost use Rattle.ti_roster.specs.Roster.{AreTaken, HasDisposed, HasMet, IsPlaceless, IsToldOf, MayGoBack, and_back, has_met_all, info_refusal, meeting_refusal, most_items, serves};
ghost use Rattle.ti_roster.specs.Rows.{IsIndex, IsTaken, desks_in};
