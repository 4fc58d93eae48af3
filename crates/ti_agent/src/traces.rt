//! Stack traces of several threads at once, under one lock.

use crate::env::Env;
use crate::home::Home;
use crate::thread_counts::{
    all_threads, all_with_one_read, are_all_paid, count_each, counted_threads,
};
use std::alloc::Global;
use std::mem::replace;
use std::sync::{Mutex, Wait};
use ti_chunked::Chunked;
use ti_env::EnvState;
use ti_handshake::Desk;
use ti_types::{Answer, EnvNo, StackInfo, ThreadNo, TiError, TraceBuf};
use ti_vmop::{Round, Standing, VmTurn, stop_all};

/// Makes `count` empty buffers. Each has room for the lesser of `max_count` frames and the depth limit. 110 OUT_OF_MEMORY if
/// there is no memory for them.
pub(crate) fn buffers(
    alloc: Global,
    count: usize,
    max_count: i32,
    depth: u32,
) -> Result<Vec<TraceBuf>, TiError>
    requires count { is_not_negative max_count ≡ true }
    ensures made { IfOk result (λ v. length v.items ≡ count) }
    ensures room { IfOk result (λ v. (limits : Limits) → limits.depth ≡ depth → AreRoomy limits max_count v.items) }
    ensures memory { IfErr result (λ e. e ≡ OutOfMemory) }
{
    let mut bufs = Vec::with_capacity(alloc, count)?;
    for _ in 0..count {
        bufs.push_reserved(TraceBuf::make(alloc, max_count, depth)?);
    }
    Ok(bufs)
}

/// The state and the frames of a thread, from the answer to a read.
pub(crate) fn told_of(thread: ThreadNo, answer: Answer) -> StackInfo
    requires stack { is_stack (said answer) ≡ true }
    ensures told { told_info result ∷ [] ≡ told_stack thread (said answer) }
    ensures thread { result.thread ≡ thread }
{
    let Answer::Stack { state, frames } = answer else {
        unreachable!()
    };
    StackInfo {
        thread,
        state,
        frames,
    }
}

/// Reads the thread at each of these places, in the list's order, and keeps each answer. All of them are standing.
fn read_each<R: Wait>(
    rt: &R,
    standing: &mut Standing<'_, '_>,
    desks: &mut [Desk],
    state: &mut EnvState,
    places: &[ThreadNo],
    max_count: i32,
    bufs: Vec<TraceBuf>,
    infos: &mut Vec<StackInfo>,
)
    requires cells { cells_of standing.old.threads desks.old ≡ standing.old.cells }
    requires held { AreStopped (record { env = standing.old.env; state = state.old; desks = desks.old }) standing.old.threads }
    requires there { AreThere (length desks.old) standing.old.threads }
    requires listed { AreListed standing.old.threads places.now }
    requires none { standing.old.reads ≡ 0 }
    requires left { AreLeft state.old places.now }
    requires count { is_not_negative max_count ≡ true }
    requires bufs { (length bufs.items ≡ length places.now) × AreRoomy state.old.limits max_count bufs.items }
    requires empty { infos.old.items ≡ [] }
    requires room { length places.now ≤ vec_capacity infos.old }
    ensures cells { cells_of standing.old.threads desks.new ≡ standing.old.cells }
    ensures held { AreStopped (record { env = standing.old.env; state = state.new; desks = desks.new }) standing.old.threads }
    ensures reads { HasRead (record { env = standing.old.env; state = state.old; desks = desks.old }) (record { env = standing.old.env; state = state.new; desks = desks.new }) max_count places.now (threads_at desks.old places.now) infos.new.items }
    ensures standing { standing.new ≡ with_reads standing.old (length places.now) }
{
    let mut bufs = bufs;
    for i in 0..places.len() {
        let place = places[i];
        let buf = match bufs.pop() {
            Some(buf) => buf,
            None => unreachable!(),
        };
        let answer = standing.read(rt, desks, state, place, max_count, buf);
        let thread = desks[place.0 as usize].thread();
        infos.push_reserved(told_of(thread, answer));
    }
}

/// Stops the thread at each of these places once, reads it as often as its place is in the list, and lets all go.
fn trace_each<R: Wait>(
    rt: &R,
    turn: &mut VmTurn,
    env: EnvNo,
    desks: &mut [Desk],
    state: &mut EnvState,
    stopping: &[(ThreadNo, u64)],
    places: &[ThreadNo],
    max_count: i32,
    bufs: Vec<TraceBuf>,
    infos: &mut Vec<StackInfo>,
) -> Round
    requires whole { IsWhole (record { env = env; state = state.old; desks = desks.old }) }
    requires stopping { stopping.now ≡ each_once (length state.old.spent) places.now }
    requires there { are_there (length state.old.spent) places.now ≡ true }
    requires paid { are_paid state.old stopping.now ≡ true }
    requires count { is_not_negative max_count ≡ true }
    requires bufs { (length bufs.items ≡ length places.now) × AreRoomy state.old.limits max_count bufs.items }
    requires empty { infos.old.items ≡ [] }
    requires room { length places.now ≤ vec_capacity infos.old }
    ensures whole { IsWhole (record { env = env; state = state.new; desks = desks.new }) }
    ensures traced { IsTraced (record { env = env; state = state.old; desks = desks.old }) (record { env = env; state = state.new; desks = desks.new }) max_count stopping.now places.now (threads_at desks.old places.now) infos.new.items result }
{
    let Ok(mut standing) = stop_all(rt, turn, env, desks, state, stopping) else {
        unreachable!()
    };
    read_each(
        rt,
        &mut standing,
        desks,
        state,
        places,
        max_count,
        bufs,
        infos,
    );
    standing.go(rt, desks)
}

impl<H: Home> Env<H> {
    /// How many threads there are, if all may be traced. It does not try the memory. 103 ILLEGAL_ARGUMENT if `max_count` is
    /// negative, and 209 CALLS_SPENT if a thread has fewer than two calls left.
    pub(crate) fn admit_all(&self, max_count: i32) -> Result<u32, TiError>
        ensures count { IfOk result (λ n. n ≡ length self.now.env.state.spent) }
        ensures desks { IfOk result (λ n. n ≡ length self.now.env.desks) }
        ensures admitted { OnOk result (refusal_of_all self.now.env.state max_count ≡ None) }
        ensures refused { IfErr result (λ e. refusal_of_all self.now.env.state max_count ≡ Some e) }
    {
        if max_count < 0 {
            return Err(TiError::IllegalArgument);
        }
        let count = self.state.threads();
        if !are_all_paid(&self.state, count) {
            return Err(TiError::CallsSpent);
        }
        Ok(count)
    }

    /// Whether there is a desk at each thread of a list.
    fn are_all_there(&self, threads: &[ThreadNo]) -> bool
        ensures { result ≡ are_there (length self.now.env.state.spent) (places_of self.now.env.desks threads.now) }
    {
        let count = self.state.threads();
        for i in 0..threads.len() {
            if self.place_of(threads[i]).0 >= count {
                return false;
            }
        }
        true
    }

    /// The places of these threads. 110 OUT_OF_MEMORY if there is no memory for the list.
    pub(crate) fn places(
        &self,
        alloc: Global,
        threads: &[ThreadNo],
    ) -> Result<Vec<ThreadNo>, TiError>
        ensures all { IfOk result (λ v. v.items ≡ places_of self.now.env.desks threads.now) }
        ensures memory { IfErr result (λ e. e ≡ OutOfMemory) }
    {
        let mut places = Vec::with_capacity(alloc, threads.len())?;
        for i in 0..threads.len() {
            places.push_reserved(self.place_of(threads[i]));
        }
        Ok(places)
    }

    /// Whether the threads of a list may be traced. It tries neither their calls nor the memory. 10 INVALID_THREAD if there
    /// is no desk at one of them, and 103 ILLEGAL_ARGUMENT if `max_count` is negative.
    pub(crate) fn admit_list(&self, threads: &[ThreadNo], max_count: i32) -> Result<(), TiError>
        ensures admitted { OnOk result (refusal_of_list self.now.env.state (places_of self.now.env.desks threads.now) max_count ≡ None) }
        ensures refused { IfErr result (λ e. refusal_of_list self.now.env.state (places_of self.now.env.desks threads.now) max_count ≡ Some e) }
    {
        if !self.are_all_there(threads) {
            return Err(TiError::InvalidThread);
        }
        if max_count < 0 {
            return Err(TiError::IllegalArgument);
        }
        Ok(())
    }

    /// Traces the threads at these places, and stops each of them once. All memory is taken before any stop. 110 OUT_OF_MEMORY if
    /// there is none; then nothing has changed.
    fn trace<R: Wait>(
        &mut self,
        rt: &R,
        alloc: Global,
        turn: &Mutex<VmTurn>,
        stopping: &[(ThreadNo, u64)],
        places: &[ThreadNo],
        max_count: i32,
    ) -> Result<(Vec<StackInfo>, Round), TiError>
        requires stopping { stopping.now ≡ each_once (length self.old.env.state.spent) places.now }
        requires there { are_there (length self.old.env.state.spent) places.now ≡ true }
        requires paid { are_paid self.old.env.state stopping.now ≡ true }
        requires count { is_not_negative max_count ≡ true }
        ensures traced { IfOk result (λ r. IsTraced self.old.env self.new.env max_count stopping.now places.now (threads_at self.old.env.desks places.now) r.0.items r.1) }
        ensures memory { IfErr result (λ e. e ≡ OutOfMemory) }
        ensures unchanged { OnErr result (self.new ≡ self.old) }
        ensures home { self.new.home ≡ self.old.home }
    {
        let bufs = buffers(alloc, places.len(), max_count, self.state.limits().depth)?;
        let mut infos = Vec::with_capacity(alloc, places.len())?;
        let mut held = turn.lock(rt);
        let mut desks = replace(&mut self.desks, Chunked::new(alloc)).into_vec();
        let round = trace_each(
            rt,
            &mut held,
            self.env,
            &mut desks,
            &mut self.state,
            stopping,
            places,
            max_count,
            bufs,
            &mut infos,
        );
        self.desks = Chunked::from_vec(desks);
        Ok((infos, round))
    }

    /// GetAllStackTraces (JVM TI 11): the state and frames of each thread that is alive, in the order of their desks.
    /// There are at most `max_count` frames of each, the newest first. Also given is the round that was made.
    ///
    /// It waits for the lock. Under it, all threads are stopped before the first is read. All are read before the first is
    /// let go. It spends two calls at each thread: one for its stop and one for its read.
    ///
    /// The errors, in this order, all before any stop:
    ///
    /// - 103 ILLEGAL_ARGUMENT: `max_count` is negative.
    /// - 209 CALLS_SPENT: a thread has fewer than two calls left.
    /// - 110 OUT_OF_MEMORY: there is no memory for the result.
    ///
    /// Then nothing has changed. The order of the errors is this profile's. So is the rule that no memory is taken while
    /// threads are standing.
    pub fn get_all_stack_traces<R: Wait>(
        &mut self,
        rt: &R,
        alloc: Global,
        turn: &Mutex<VmTurn>,
        max_count: i32,
    ) -> Result<(Vec<StackInfo>, Round), TiError>
        ensures admitted { OnOk result (refusal_of_all self.old.env.state max_count ≡ None) }
        ensures traced { IfOk result (λ r. TracesAlive self.old.env self.new.env max_count r.0.items r.1) }
        ensures refused { IfErr result (λ e. Some e ≡ or_else (refusal_of_all self.old.env.state max_count) (Some OutOfMemory)) }
        ensures unchanged { OnErr result (self.new ≡ self.old) }
        ensures home { self.new.home ≡ self.old.home }
    {
        let count = self.admit_all(max_count)?;
        let places = all_threads(alloc, count)?;
        let stopping = all_with_one_read(alloc, count)?;
        let (mut infos, round) = self.trace(rt, alloc, turn, &stopping, &places, max_count)?;
        infos.retain(|info: &StackInfo| info.state & 1 == 1);
        Ok((infos, round))
    }

    /// GetThreadListStackTraces (JVM TI 11): the state and frames of each thread of a list, in the list's order. There are
    /// at most `max_count` frames of each, the newest first. Also given is the round that was made.
    ///
    /// A thread that is not alive has no frames. A thread that is in the list more than once is stopped once, and read for
    /// each element. It waits for the lock. Under it, all threads are stopped before the first is read. All are read before
    /// the first is let go. It spends one call at each thread for its stop, and one for each of its reads.
    ///
    /// The errors, in this order, all before any stop:
    ///
    /// - 10 INVALID_THREAD: there is no desk at one of them.
    /// - 103 ILLEGAL_ARGUMENT: `max_count` is negative.
    /// - 110 OUT_OF_MEMORY: there is no memory for the list of their places, or to count how often each thread is in it.
    /// - 209 CALLS_SPENT: a thread has fewer calls left than its stop and its reads cost.
    /// - 110 OUT_OF_MEMORY: there is no memory for the result.
    ///
    /// Then nothing has changed. This profile chose the order of the errors, and that a repeated thread is reported again.
    /// It also chose that no memory is taken while threads are standing.
    pub fn get_thread_list_stack_traces<R: Wait>(
        &mut self,
        rt: &R,
        alloc: Global,
        turn: &Mutex<VmTurn>,
        threads: &[ThreadNo],
        max_count: i32,
    ) -> Result<(Vec<StackInfo>, Round), TiError>
        ensures admitted { OnOk result (refusal_of_list self.old.env.state (places_of self.old.env.desks threads.now) max_count ≡ None) }
        ensures paid { OnOk result (refusal_of_counted self.old.env.state (places_of self.old.env.desks threads.now) ≡ None) }
        ensures traced { IfOk result (λ r. IsTraced self.old.env self.new.env max_count (each_once (length self.old.env.desks) (places_of self.old.env.desks threads.now)) (places_of self.old.env.desks threads.now) threads.now r.0.items r.1) }
        ensures refused { IfErr result (λ e. IsListRefused self.old.env.state (places_of self.old.env.desks threads.now) max_count e) }
        ensures unchanged { OnErr result (self.new ≡ self.old) }
        ensures home { self.new.home ≡ self.old.home }
    {
        self.admit_list(threads, max_count)?;
        let places = self.places(alloc, threads)?;
        let counts = count_each(alloc, &self.state, &places)?;
        let stopping = counted_threads(alloc, counts)?;
        self.trace(rt, alloc, turn, &stopping, &places, max_count)
    }
}

ghost use Rattle.std.specs.Prelude.{◌≡◌, ◌≤◌, ◌∷◌, true, [], length, vec_capacity, Some, None, IfOk, IfErr, OnOk, OnErr};
ghost use Rattle.ti_types.specs.Answer.{said};
ghost use Rattle.ti_types.specs.Numbers.{is_not_negative};
ghost use Rattle.ti_types.specs.declared.error.TiError.TheVariants.{OutOfMemory};
ghost use Rattle.ti_types.specs.Refusing.{or_else};
ghost use Rattle.ti_types.specs.declared.limits.Limits.{Limits};
ghost use Rattle.ti_vmop.specs.Turns.{AreThere, are_paid, cells_of, with_reads};
ghost use Rattle.ti_agent.specs.Buffers.{AreRoomy};
ghost use Rattle.ti_agent.specs.Env.{IsWhole, places_of, threads_at};
ghost use Rattle.ti_agent.specs.Traces.{are_there, each_once, is_stack, told_info, told_stack, refusal_of_all, refusal_of_list, refusal_of_counted, AreStopped, AreLeft, AreListed, HasRead, IsListRefused, IsTraced, TracesAlive};
