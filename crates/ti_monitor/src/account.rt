//! The stacks of a reading that were counted, and those that are still owed.

use crate::counting::{put_frame, put_stack};
use crate::label::{Label, label_at};
use crate::stack::{Stack, UNANSWERED, bare};
use crate::watched::Watched;
use std::alloc::{AllocError, Global};
use ti_http::Labels;
use ti_pprof::{Counts, Frame};

/// How many ticks at threads there are at most, 2^62.
const MOST: u64 = 1 << 62;

/// The stacks of a reading that were counted, and those that are owed. Each tick at a thread owes one, which is counted when
/// the thread has answered, or when it is known that it won't. A tick at a thread that turns out not to be alive is taken back. So the
/// stacks that were counted and those that are owed are as many as the other ticks at threads.
#[derive(Drop)]
pub(crate) struct Account {
    counts: Counts,
    /// How many are owed, by the thread's place.
    owed: Vec<u64>,
    /// How many ticks at threads there were that were not taken back.
    thread_ticks: u64,
    /// Stacks that were counted as they are, those that were counted as late, and those that were never seen.
    at_once: u64,
    late: u64,
    unanswered: u64,
    ghost balance: { counts.total + sum owed.items ≡ thread_ticks },
    ghost told: { at_once + (late + unanswered) ≡ counts.total },
    ghost below: { thread_ticks ≤ 2 ^ 62 },
}

impl Account {
    ghost use Rattle.std.specs.Prelude.{◌⊎◌, ◌∷◌, ◌<◌, OnOk, OnErr, IfOk, IfErr, drop, length};
    ghost use Rattle.std.specs.Bool.{OnTrue, OnFalse};
    ghost use Rattle.ti_monitor.specs.Accounts.{Answers, HasRoom, IsEmpty, IsExhausted, IsSame, IsUncounted, Loses, LosesUpTo, OwesAsBefore, TakesBack, TicksAt, Widens, owed_at};
    ghost use Rattle.ti_monitor.specs.Counting.{frame};
    ghost use Rattle.ti_monitor.specs.Watching.{label_at};

    /// Nothing yet, and no places. All memory for counts is taken here: for so many frames, and as many samples. The error is lack
    /// of memory.
    pub(crate) fn new(alloc: Global, room: u32) -> Result<Account, AllocError>
        ensures empty { IfOk result (λ a. IsEmpty a) }
        ensures room { IfOk result (HasRoom room) }
    {
        let counts = Counts::new(alloc, room, room)?;
        Ok(Account {
            counts,
            owed: Vec::new(alloc),
            thread_ticks: 0,
            at_once: 0,
            late: 0,
            unanswered: 0,
        })
    }

    /// One more place, behind the others. The error is lack of memory. Then the stacks that are counted and owed are the same.
    #[tactic(auto, using(crate::proofs::Sums::sum_snoc))]
    pub(crate) fn widen(&mut self) -> Result<(), AllocError>
        ensures widened { OnOk result (Widens self.old self.new) }
        ensures kept { OnErr result (IsSame self.old self.new) }
    {
        self.owed.reserve(1)?;
        self.owed.push_reserved(0);
        Ok(())
    }

    /// Whether there is a place. The one behind the others is made, if there is memory.
    pub(crate) fn reach(&mut self, place: usize) -> bool
        ensures owes { OwesAsBefore self.old self.new }
        ensures uncounted { IsUncounted self.old self.new }
        ensures there { OnTrue result (place < length self.new.owed.items) }
        ensures exhausted { OnFalse result (IsExhausted place self.new) }
    {
        if place >= self.owed.len() {
            let _none_without_memory = self.widen();
        }
        place < self.owed.len()
    }

    /// A tick at a place: one more stack is owed there. False if there is no such place, or if there were 2^62 ticks. Then nothing
    /// changes.
    #[tactic(auto, using(crate::proofs::Sums::sum_set))]
    pub(crate) fn tick_at(&mut self, place: usize) -> bool
        ensures ticks { OnTrue result (TicksAt self.old self.new place) }
        ensures refused { OnFalse result ((length self.old.owed.items ≤ place) ⊎ (self.old.thread_ticks ≡ 2 ^ 62)) }
        ensures unchanged { OnFalse result (self.new ≡ self.old) }
    {
        if place >= self.owed.len() || self.thread_ticks >= MOST {
            return false;
        }
        self.owed[place] += 1;
        self.thread_ticks += 1;
        true
    }

    /// Counts the stack of a place as often as it is owed. It gives how often that was.
    pub(crate) fn answer(&mut self, place: usize, stack: &Stack, label: Label) -> u64
        ensures answers { Answers self.old self.new place (drop 1 stack.now.frames.items) stack.now.frames.items label }
        ensures owed { result ≡ owed_at self.old place }
    {
        let owed = take_at(&mut self.owed, place);
        put_stack(&mut self.counts, stack, label, owed);
        self.at_once += owed.min(1);
        self.late += owed.saturating_sub(1);
        owed
    }

    /// Counts this frame as often as stacks are owed at a place. It gives how often that was.
    pub(crate) fn lose(&mut self, place: usize, frame: Frame, label: Label) -> u64
        ensures loses { Loses self.old self.new place frame label }
        ensures owed { result ≡ owed_at self.old place }
    {
        let owed = take_at(&mut self.owed, place);
        put_frame(&mut self.counts, frame, label, owed);
        self.unanswered += owed;
        owed
    }

    /// Takes back the ticks at a place, whose thread is not alive: no stack is owed there any more, and none is counted.
    #[tactic(auto, using(crate::proofs::Sums::sum_set))]
    pub(crate) fn take_back(&mut self, place: usize)
        ensures { TakesBack self.old self.new place }
    {
        let owed = take_at(&mut self.owed, place);
        self.thread_ticks -= owed;
    }

    /// Counts all that is owed under the frame `(did not answer)`, place by place. It gives how much that was.
    pub(crate) fn settle(&mut self, watched: &[Watched], kept: Labels) -> u64
        ensures loses { LosesUpTo self.old self.new (length self.old.owed.items) (frame 0 0) (label_at watched.now kept) }
        ensures all { self.new.counts.total ≡ self.new.thread_ticks }
        ensures ticks { self.new.thread_ticks ≡ self.old.thread_ticks }
        ensures owed { result ≡ sum self.old.owed.items }
    {
        let owed = self.outstanding();
        for place in 0..self.owed.len() {
            self.lose(place, bare(UNANSWERED), label_at(watched, place, kept));
        }
        owed
    }

    /// How many stacks are owed at a place.
    pub(crate) fn owed_at(&self, place: usize) -> u64
        ensures { result ≡ owed_at self.now place }
    {
        self.owed.get(place).copied().unwrap_or(0)
    }

    /// How many stacks are owed in all.
    pub(crate) fn outstanding(&self) -> u64
        ensures { result ≡ sum self.now.owed.items }
    {
        self.thread_ticks - self.counts.total()
    }

    /// How many places there are.
    pub(crate) fn places(&self) -> usize
        ensures { result ≡ length self.now.owed.items }
    {
        self.owed.len()
    }

    /// How many ticks at threads there were that were not taken back.
    pub(crate) fn thread_ticks(&self) -> u64
        ensures { result ≡ self.now.thread_ticks }
    {
        self.thread_ticks
    }

    /// How many stacks were counted as late.
    pub(crate) fn late(&self) -> u64
        ensures { result ≡ self.now.late }
    {
        self.late
    }

    /// How many stacks were never seen.
    pub(crate) fn unanswered(&self) -> u64
        ensures { result ≡ self.now.unanswered }
    {
        self.unanswered
    }

    /// Samples for which there was no room.
    pub(crate) fn no_room(&self) -> u64
        ensures { result ≡ self.now.counts.no_room }
    {
        self.counts.no_room()
    }

    /// What was counted.
    pub(crate) fn into_counts(self) -> Counts
        ensures { result ≡ self.counts }
    {
        self.counts
    }
}

/// Takes the number at a place, and leaves 0 there. It gives 0 if there is no such place.
#[tactic(auto, using(crate::proofs::Sums::sum_set))]
fn take_at(owed: &mut Vec<u64>, place: usize) -> u64
    ensures taken { result ≡ get_or owed.old.items place 0 }
    ensures left { owed.new.items ≡ slice_set owed.old.items place 0 }
    ensures sum { sum owed.new.items + result ≡ sum owed.old.items }
{
    if place >= owed.len() {
        return 0;
    }
    let taken = owed[place];
    owed[place] = 0;
    taken
}

ghost use Rattle.std.specs.Prelude.{◌≡◌, ◌+◌, ◌≤◌, ◌^◌, [], sum, get_or, slice_set};
