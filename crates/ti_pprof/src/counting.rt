//! Samples, counted in bounded memory. Nothing is lost: what does not fit is counted too.

use crate::stacks::{Frame, Trie};
use crate::table::{Row, Table};
use std::alloc::{AllocError, Global};

/// How often each stack of each thread was seen, by the thread's state.
#[derive(Drop)]
pub struct Counts {
    trie: Trie,
    table: Table,
    /// How often a stack was put in that did not fit.
    no_room: u64,
    /// How many stacks were put in.
    total: u64,
    ghost numbered: { AreNumbered table.rows.keys (length trie.nodes.keys) },
    ghost sums: { sum table.counts.items + no_room ≡ total },
    ghost below: { total < 2 ^ 63 },
}

/// How many stacks are put in, all together, stays below this number, 2^63.
pub const TOTAL_LIMIT: u64 = 1 << 63;

impl Counts {
    /// Nothing yet. All memory is taken here: for `most_nodes` frames that differ in themselves or in what is below them, and
    /// for `most_samples` samples that differ in their stacks, threads or states. The error is lack of memory.
    pub fn new(alloc: Global, most_nodes: u32, most_samples: u32) -> Result<Self, AllocError>
        ensures empty { IfOk result (λ c. samples_of c.trie c.table ≡ []) }
        ensures none { IfOk result (λ c. c.total ≡ 0) }
        ensures no_room { IfOk result (λ c. c.no_room ≡ 0) }
        ensures nodes { IfOk result (λ c. c.trie.most ≡ most_nodes) }
        ensures samples { IfOk result (λ c. c.table.most ≡ most_samples) }
    {
        let trie = Trie::new(alloc, most_nodes)?;
        let table = Table::new(alloc, most_samples)?;
        Ok(Counts {
            trie,
            table,
            no_room: 0,
            total: 0,
        })
    }

    /// Counts a stack, whose newest frame comes first, so many times, for a thread in a state. False if there is no room for
    /// it. Then no sample has changed, and it is counted among those without room. All together have to stay below `TOTAL_LIMIT`.
    pub fn put(&mut self, frames: &[Frame], thread: u32, state: u32, times: u64) -> bool
        requires { self.old.total + times < 2 ^ 63 }
        ensures counted { OnTrue result (IsCounted (samples_of self.old.trie self.old.table) (samples_of self.new.trie self.new.table) frames.now thread state times) }
        ensures kept { OnFalse result (samples_of self.new.trie self.new.table ≡ samples_of self.old.trie self.old.table) }
        ensures full { OnFalse result (IsFull self.new.trie self.new.table) }
        ensures missing { OnFalse result (HasNoRoom self.old.trie.nodes.keys frames.now self.new.trie self.new.table) }
        ensures absent { OnFalse result (¬ (IsThere (samples_of self.old.trie self.old.table) frames.now thread state)) }
        ensures no_room { self.new.no_room ≡ self.old.no_room + (if result then 0 else times) }
        ensures total { self.new.total ≡ self.old.total + times }
        ensures bounds { SameBounds self.old.trie self.old.table self.new.trie self.new.table }
        ensures grown { Grows self.old.trie.nodes.keys self.new.trie.nodes.keys }
        ensures few { length self.new.trie.nodes.keys ≤ length self.old.trie.nodes.keys + length frames.now }
        ensures asked { AreAsked self.old.trie.nodes.keys self.new.trie.nodes.keys frames.now }
    {
        match self.trie.number_of(frames) {
            Some(stack) => self.count(
                Row {
                    stack,
                    thread,
                    state,
                },
                times,
            ),
            None => {
                self.no_room += times;
                self.total += times;
                false
            }
        }
    }

    /// Counts the row of a stack that is there. False if there is no room for one more row. Then no sample has changed.
    fn count(&mut self, row: Row, times: u64) -> bool
        requires there { row.stack ≤ length self.old.trie.nodes.keys }
        requires below { self.old.total + times < 2 ^ 63 }
        ensures counted { OnTrue result (IsCounted (samples_of self.old.trie self.old.table) (samples_of self.new.trie self.new.table) (stack_at (stacks_of self.old.trie.nodes.keys) row.stack) row.thread row.state times) }
        ensures kept { OnFalse result (samples_of self.new.trie self.new.table ≡ samples_of self.old.trie self.old.table) }
        ensures full { OnFalse result (length self.new.table.rows.keys ≡ self.new.table.most) }
        ensures absent { OnFalse result (¬ (IsThere (samples_of self.old.trie self.old.table) (stack_at (stacks_of self.old.trie.nodes.keys) row.stack) row.thread row.state)) }
        ensures nodes { self.new.trie.nodes.keys ≡ self.old.trie.nodes.keys }
        ensures no_room { self.new.no_room ≡ self.old.no_room + (if result then 0 else times) }
        ensures total { self.new.total ≡ self.old.total + times }
        ensures bounds { SameBounds self.old.trie self.old.table self.new.trie self.new.table }
    {
        let fits = self.table.add(row, times);
        if !fits {
            self.no_room += times;
        }
        self.total += times;
        fits
    }

    /// How many stacks were put in. That is the sum of the samples' counts and of what had no room.
    pub fn total(&self) -> u64
        ensures total { result ≡ self.now.total }
        ensures sum { sum_by (λ (s : Sample). s.count) (samples_of self.now.trie self.now.table) + self.now.no_room ≡ result }
        ensures below { result < 2 ^ 63 }
    {
        self.total
    }

    /// The stacks.
    pub fn trie(&self) -> &Trie
        ensures trie { result.now ≡ self.now.trie }
        ensures numbered { AreNumbered self.now.table.rows.keys (length result.now.nodes.keys) }
    {
        &self.trie
    }

    /// How often each of them was seen.
    pub fn table(&self) -> &Table
        ensures { result.now ≡ self.now.table }
    {
        &self.table
    }

    /// How many stacks had no room.
    pub fn no_room(&self) -> u64
        ensures { result ≡ self.now.no_room }
    {
        self.no_room
    }
}

ghost use Rattle.std.specs.Prelude.{◌≡◌, ◌≤◌, ◌<◌, ◌+◌, ◌^◌, [], length, sum, if◌then◌else◌, IfOk};
ghost use Rattle.std.specs.Bool.{OnTrue, OnFalse};
ghost use Rattle.ti_pprof.specs.Stacks.{AreAsked, Grows, stack_at, stacks_of};
ghost use Rattle.std.specs.List.{sum_by};
ghost use Rattle.ti_pprof.specs.Samples.{AreNumbered, HasNoRoom, IsCounted, IsFull, IsThere, SameBounds, Sample, samples_of};
