//! Global operations: threads are stopped, read and let go.

use crate::one_thread::{await_one, go_one, read_one, stop_one};
use std::marker::Model;
use std::sync::Wait;
use ti_env::EnvState;
use ti_handshake::Desk;
use ti_trail::GhostList;
use ti_types::{Answer, EnvNo, ThreadNo, TiError, TraceBuf};

/// The lock for global operations, kept in a `Mutex`. Whoever has it makes one, and has it until the threads are let
/// go.
#[derive(Drop)]
pub struct VmTurn {}

impl VmTurn {
    /// A lock. There should be one for all environments.
    pub fn new() -> VmTurn {
        VmTurn {}
    }
}

/// Threads that are standing for an environment, each listed with the reads that were to come. It has to be spent: `go` lets
/// them go. Until then it has the lock, so no other operation begins under it.
pub struct Standing<'t, 'l> {
    pub(crate) turn: &'t mut VmTurn,
    pub(crate) env: EnvNo,
    pub(crate) threads: &'l [(ThreadNo, u64)],
    /// The desks at which they were stopped, for contracts alone.
    pub(crate) desks: GhostList<Desk>,
    pub(crate) reads: u64,
}

impl<'t, 'l> Model for Standing<'t, 'l> {
    ghost use Rattle.std.specs.Prelude.{Some, map};
    ghost use Rattle.ti_vmop.specs.Turns.{Stood, AreDistinct};

    ghost Value = { Stood };

    ghost view = { λ s. record { env = s.env; threads = s.threads.now; cells = map (λ p. Some p.cell) s.desks.items; reads = s.reads } };

    ghost invariant = { λ s. AreDistinct s.threads.now };
}

/// What came of a global operation: whose it was, and how many threads and reads it had. Only `Standing::go` makes one.
#[derive(Drop)]
pub struct Round {
    env: EnvNo,
    threads: usize,
    reads: u64,
}

impl Round {
    /// The environment whose operation it was.
    pub fn env(&self) -> EnvNo
        ensures { result ≡ self.now.env }
    {
        self.env
    }

    /// How many threads were stopped.
    pub fn threads(&self) -> usize
        ensures { result ≡ self.now.threads }
    {
        self.threads
    }

    /// How many reads were made.
    pub fn reads(&self) -> u64
        ensures { result ≡ self.now.reads }
    {
        self.reads
    }
}

/// Whether each thread has a call left for its stop and each read.
pub(crate) fn are_paid_for(state: &EnvState, threads: &[(ThreadNo, u64)]) -> bool
    requires there { AreThere (length state.now.spent) threads.now }
    ensures { result ≡ are_paid state.now threads.now }
{
    for i in 0..threads.len() {
        let (thread, reads) = threads[i];
        if state.left(thread) <= reads {
            return false;
        }
    }
    true
}

/// Stops each thread, in the order of the list, and spends a call for each.
fn stop_each<R: Wait>(rt: &R, desks: &mut [Desk], state: &mut EnvState, threads: &[(ThreadNo, u64)])
    requires there { AreThere (length desks.old) threads.now × (length state.old.spent ≡ length desks.old) }
    requires distinct { AreDistinct threads.now }
    requires paid { are_paid state.old threads.now ≡ true }
    requires may { (i : ℕ) (p : DeskState) → slice_get desks.old i ≡ Some p → is_listed i threads.now ≡ true → MayStop p.view.subject.limits state.old p (record { 0 = i }) }
    ensures desks { AtEach threads.now desks.old desks.new (λ e. entry.Stop e ∷ []) }
    ensures state { state.new ≡ spend_all state.old threads.now }
{
    for i in 0..threads.len() {
        let (thread, _reads) = threads[i];
        state.spend(thread);
        stop_one(rt, &mut desks[thread.0 as usize]);
    }
}

/// Waits until each thread is standing.
fn await_each<R: Wait>(rt: &R, desks: &mut [Desk], threads: &[(ThreadNo, u64)])
    requires there { AreThere (length desks.old) threads.now }
    requires distinct { AreDistinct threads.now }
    ensures desks { AtEach threads.now desks.old desks.new (λ e. []) }
    ensures stand { AllStand threads.now desks.new }
{
    for i in 0..threads.len() {
        let (thread, _reads) = threads[i];
        await_one(rt, &mut desks[thread.0 as usize]);
    }
}

/// The listed desks, in the order of the list. Only contracts read them.
fn listed_desks(desks: &[Desk], threads: &[(ThreadNo, u64)]) -> GhostList<Desk>
    requires there { AreThere (length desks.now) threads.now }
    ensures cells { map (λ p. Some p.cell) result.items ≡ cells_of threads.now desks.now }
{
    let mut listed = GhostList::new();
    for i in 0..threads.len() {
        let (thread, _reads) = threads[i];
        listed = listed.and(&desks[thread.0 as usize]);
    }
    listed
}

/// Stops each listed thread, in the order of the list, and answers when each has been seen standing (this profile). While
/// another environment's stop is in force at a thread, it waits. Each stop costs one call at its thread.
///
/// The desks are this environment's. A thread is listed by its place among them, and not by its number. The listed places are
/// there, each once, and the environment has a stop at none of them. The number beside a place is how many reads of the
/// thread there are to come.
///
/// Refused with `CallsSpent` (209) if a thread has fewer calls left than one and its reads to come. That is tested before
/// any stop, and then nothing changes.
pub fn stop_all<'t, 'l, R: Wait>(
    rt: &R,
    turn: &'t mut VmTurn,
    env: EnvNo,
    desks: &mut [Desk],
    state: &mut EnvState,
    threads: &'l [(ThreadNo, u64)],
) -> Result<Standing<'t, 'l>, TiError>
    requires desks { AreOneEnvironments env desks.old }
    requires there { AreThere (length desks.old) threads.now × (length state.old.spent ≡ length desks.old) }
    requires distinct { AreDistinct threads.now }
    requires may { (i : ℕ) (p : DeskState) → slice_get desks.old i ≡ Some p → is_listed i threads.now ≡ true → MayStop p.view.subject.limits state.old p (record { 0 = i }) }
    ensures spent { MatchResult result (λ _. are_paid state.old threads.now ≡ true) (λ e. (e ≡ Spent) × (are_paid state.old threads.now ≡ false)) }
    ensures none { IfErr result (λ _. (desks.new ≡ desks.old) × (state.new ≡ state.old)) }
    ensures desks { IfOk result (λ _. AtEach threads.now desks.old desks.new (λ e. entry.Stop e ∷ [])) }
    ensures stand { IfOk result (λ _. AllStand threads.now desks.new) }
    ensures state { IfOk result (λ _. state.new ≡ spend_all state.old threads.now) }
    ensures env { IfOk result (λ s. s.env ≡ env) }
    ensures cells { IfOk result (λ s. s.cells ≡ cells_of threads.now desks.new) }
    ensures standing { IfOk result (λ s. (s.threads ≡ threads.now) × (s.reads ≡ 0)) }
{
    if !are_paid_for(state, threads) {
        return Err(TiError::CallsSpent);
    }
    stop_each(rt, desks, state, threads);
    await_each(rt, desks, threads);
    let listed = listed_desks(desks, threads);
    Ok(Standing {
        turn,
        env,
        threads,
        desks: listed,
        reads: 0,
    })
}

impl<'t, 'l> Standing<'t, 'l> {
    /// Reads a listed thread, which was seen standing, in one hold: its state, and at most `max_count` of its newest frames
    /// (JVM TI 11, GetAllStackTraces). It costs one call.
    ///
    /// The answer shows the mode and the frames that the desk had seen, after the pops that others made since (JVM TI 11,
    /// PopFrame). A thread that is not alive has no frames.
    ///
    /// The desks are the very ones of `stop_all`. The thread has a call left, and `max_count` is not negative. The buffer is empty
    /// and has room for the frames. The reads are counted up to 2^64 - 1, which no budget reaches.
    pub fn read<R: Wait>(
        &mut self,
        rt: &R,
        desks: &mut [Desk],
        state: &mut EnvState,
        thread: ThreadNo,
        max_count: i32,
        buf: TraceBuf,
    ) -> Answer
        requires cells { cells_of self.old.threads desks.old ≡ self.old.cells }
        requires listed { is_listed thread.0 self.old.threads ≡ true }
        requires there { (thread.0 < length desks.old) × (length state.old.spent ≡ length desks.old) }
        requires left { spent_at state.old thread < state.old.limits.calls }
        requires count { is_not_negative max_count ≡ true }
        requires desk { (p : DeskState) → slice_get desks.old thread.0 ≡ Some p → MayRead self.old.env state.old p thread max_count buf }
        ensures desks { AtEach ((thread, 0) ∷ []) desks.old desks.new (λ e. entry.Read e max_count ∷ []) }
        ensures answer { (p q : DeskState) → slice_get desks.old thread.0 ≡ Some p → slice_get desks.new thread.0 ≡ Some q → IsRead p q max_count (said result) }
        ensures state { state.new ≡ with_spent state.old thread }
        ensures standing { self.new ≡ with_reads self.old (one_read_more self.old.reads) }
    {
        state.spend(thread);
        if self.reads < u64::MAX {
            self.reads += 1;
        }
        read_one(rt, &mut desks[thread.0 as usize], max_count, buf)
    }

    /// Lets each listed thread go, in the order of the list, and gives the round. It costs nothing. The desks are the very
    /// ones of `stop_all`.
    pub fn go<R: Wait>(self, rt: &R, desks: &mut [Desk]) -> Round
        requires cells { cells_of self.threads desks.old ≡ self.cells }
        requires there { AreThere (length desks.old) self.threads }
        requires stand { AllStand self.threads desks.old }
        requires env { (i : ℕ) (p : DeskState) → slice_get desks.old i ≡ Some p → is_listed i self.threads ≡ true → p.env ≡ self.env }
        ensures desks { AtEach self.entry.threads desks.old desks.new (λ e. entry.Go e ∷ []) }
        ensures env { result.env ≡ self.entry.env }
        ensures threads { result.threads ≡ length self.entry.threads }
        ensures reads { result.reads ≡ self.entry.reads }
    {
        let Standing {
            turn: _turn,
            env,
            threads,
            desks: _stopped,
            reads,
        } = self;
        go_each(rt, desks, threads);
        Round {
            env,
            threads: threads.len(),
            reads,
        }
    }
}

/// Lets each thread go, in the order of the list.
fn go_each<R: Wait>(rt: &R, desks: &mut [Desk], threads: &[(ThreadNo, u64)])
    requires there { AreThere (length desks.old) threads.now }
    requires distinct { AreDistinct threads.now }
    requires stand { AllStand threads.now desks.old }
    ensures desks { AtEach threads.now desks.old desks.new (λ e. entry.Go e ∷ []) }
{
    for i in 0..threads.len() {
        let (thread, _reads) = threads[i];
        go_one(rt, &mut desks[thread.0 as usize]);
    }
}

ghost use Rattle.std.specs.Prelude.{◌≡◌, ◌<◌, ℕ, true, false, [], ◌∷◌, length, map, Some, slice_get, IfOk, IfErr, MatchResult};
ghost use Rattle.ti_types.specs.Answer.{said};
ghost use Rattle.ti_types.specs.declared.entry.Entry.TheVariants as entry;
ghost use Rattle.ti_types.specs.declared.error.TiError.TheVariants.{CallsSpent as Spent};
ghost use Rattle.ti_env.specs.Env.{with_spent, spent_at};
ghost use Rattle.ti_handshake.specs.Desk.{DeskState};
ghost use Rattle.ti_vmop.specs.Turns.{is_listed, AreDistinct, AreThere, MayStop, are_paid, spend_all, AtEach, AllStand, cells_of, AreOneEnvironments, MayRead, IsRead, with_reads, one_read_more};
ghost use Rattle.ti_replay.specs.Legal.{is_not_negative};
