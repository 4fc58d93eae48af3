//! How often each stack was seen, by thread and state, in a table of bounded size.

use indexmap::IndexSet;
use std::alloc::{AllocError, Global};

/// What is counted together: one stack of one thread in one state.
#[derive(Clone, Copy, Debug, PartialEq, Eq, Hash)]
pub struct Row {
    /// The stack, by its number.
    pub stack: u32,
    /// The thread, by its place in the list of threads that a profile is given.
    pub thread: u32,
    /// The state, by its place in the list of states that a profile is given.
    pub state: u32,
}

/// Rows, in the order in which they were first seen, each with its count. No row is there twice.
#[derive(Drop)]
pub struct Table {
    rows: IndexSet<Row>,
    /// One for each row.
    counts: Vec<u64>,
    /// How many rows there are at most.
    most: u32,
    ghost counted: { length counts.items ≡ length rows.keys },
    ghost bounded: { length rows.keys ≤ most },
    ghost reserved: { most ≤ length rows.keys + spare rows },
    ghost capacity: { most ≤ vec_capacity counts },
}

impl Table {
    /// No row yet. It takes the memory for all of its rows, `most` at most. The error is lack of memory.
    pub fn new(alloc: Global, most: u32) -> Result<Self, AllocError>
        ensures rows { IfOk result (λ t. t.rows.keys ≡ []) }
        ensures counts { IfOk result (λ t. t.counts.items ≡ []) }
        ensures most { IfOk result (λ t. t.most ≡ most) }
    {
        let rows = IndexSet::with_capacity(alloc, most as usize)?;
        let counts = Vec::with_capacity(alloc, most as usize)?;
        Ok(Table { rows, counts, most })
    }

    /// Counts a row so many times. False if it is not there, and there is no room for one more row. Then nothing has changed.
    /// All counts together have to stay below 2^64.
    pub fn add(&mut self, row: Row, times: u64) -> bool
        requires { sum self.old.counts.items + times < 2 ^ 64 }
        ensures counted { OnTrue result (IsRowCounted self.old.rows.keys self.old.counts.items self.new.rows.keys self.new.counts.items row times) }
        ensures rows_same { OnFalse result (self.new.rows.keys ≡ self.old.rows.keys) }
        ensures counts_same { OnFalse result (self.new.counts.items ≡ self.old.counts.items) }
        ensures full { OnFalse result (length self.new.rows.keys ≡ self.new.most) }
        ensures absent { OnFalse result (list_any (is_same_row row) self.old.rows.keys ≡ false) }
        ensures most { self.new.most ≡ self.old.most }
    {
        let most = self.most as usize;
        if let Some(place) = self.rows.get_index_of(&row) {
            self.counts[place] += times;
            return true;
        }
        if self.rows.len() >= most {
            return false;
        }
        self.insert(row, times);
        true
    }

    /// Adds a row that is not there, with its count. There has to be room for it.
    fn insert(&mut self, row: Row, times: u64)
        requires absent { list_any (is_same_row row) self.old.rows.keys ≡ false }
        requires room { length self.old.rows.keys < self.old.most }
        ensures rows { self.new.rows.keys ≡ self.old.rows.keys ++ row ∷ [] }
        ensures counts { self.new.counts.items ≡ self.old.counts.items ++ times ∷ [] }
        ensures most { self.new.most ≡ self.old.most }
    {
        self.counts.push_reserved(times);
        let Ok(_place) = self.rows.insert_full(row) else {
            unreachable!()
        };
    }

    /// The rows.
    pub fn rows(&self) -> &[Row]
        ensures { result.now ≡ self.now.rows.keys }
    {
        self.rows.as_slice()
    }

    /// The counts, one for each row.
    pub fn counts(&self) -> &[u64]
        ensures counts { result.now ≡ self.now.counts.items }
        ensures count { length result.now ≡ length self.now.rows.keys }
    {
        &self.counts
    }
}

ghost use Rattle.std.specs.Prelude.{◌≡◌, ◌≤◌, ◌<◌, ◌+◌, ◌++◌, ◌^◌, false, [], ◌∷◌, length, sum, vec_capacity, IfOk};
ghost use Rattle.std.specs.Bool.{OnTrue, OnFalse};
ghost use Rattle.std.specs.List.{list_any};
ghost use Rattle.indexmap.specs.IndexSet.{spare};
ghost use Rattle.ti_pprof.specs.Rows.{is_same_row, IsRowCounted};
