//! Counts how often each stack was seen.

use std::alloc::{AllocError, Global};
use ti_types::{Frame, MethodNo};

/// A stack that was seen, and how often.
#[derive(Drop)]
pub struct Folded {
    /// Its methods, the newest first.
    methods: Vec<MethodNo>,
    count: u64,
}

impl Folded {
    /// A stack that was seen once. The error is lack of memory.
    fn new(alloc: Global, frames: &[Frame]) -> Result<Self, AllocError>
        ensures once { IfOk result (λ f. f.count ≡ 1) }
        ensures methods { IfOk result (λ f. f.methods.items ≡ map (λ x. x.method) frames.now) }
    {
        let mut methods = Vec::with_capacity(alloc, frames.len())?;
        for frame in frames {
            methods.push(frame.method)?;
        }
        Ok(Folded { methods, count: 1 })
    }

    /// Whether it has the methods of these frames.
    fn is_of(&self, frames: &[Frame]) -> bool
        ensures { result ≡ same_methods self.now.methods.items (map (λ x. x.method) frames.now) }
    {
        if self.methods.len() != frames.len() {
            return false;
        }
        for i in 0..frames.len() {
            if self.methods[i] != frames[i].method {
                return false;
            }
        }
        true
    }

    /// Its methods, the newest first.
    pub fn methods(&self) -> &[MethodNo]
        ensures { result.now ≡ self.now.methods.items }
    {
        &self.methods
    }

    /// How often it was seen.
    pub fn count(&self) -> u64
        ensures { result ≡ self.now.count }
    {
        self.count
    }
}

/// All stacks that were seen.
#[derive(Drop)]
pub struct Fold {
    stacks: Vec<Folded>,
    /// How many stacks were folded.
    total: u64,
    ghost sums: { counts_of stacks.items ≡ total },
    ghost distinct: { AreDistinct (stacks_of stacks.items) },
}

impl Fold {
    /// No stack yet.
    pub fn new(alloc: Global) -> Self
        ensures none { result.total ≡ 0 }
        ensures empty { result.stacks.items ≡ [] }
    {
        Fold {
            stacks: Vec::new(alloc),
            total: 0,
        }
    }

    #[tactic(auto, using(crate::proofs::FoldLaws::one_more))]
    /// Adds one stack, its newest frame first. It is an error if there is no memory, or if the total would not fit in 64
    /// bits. Then nothing has changed.
    pub fn add(&mut self, alloc: Global, frames: &[Frame]) -> Result<(), AllocError>
        ensures more { OnOk result (self.new.total ≡ self.old.total + 1) }
        ensures given { OnOk result (seen (map (λ x. x.method) frames.now) self.new.stacks.items ≡ seen (map (λ x. x.method) frames.now) self.old.stacks.items + 1) }
        ensures others { OnOk result ((methods : List MethodNo) → methods ≢ map (λ x. x.method) frames.now → seen methods self.new.stacks.items ≡ seen methods self.old.stacks.items) }
        ensures unchanged { OnErr result (self.new.total ≡ self.old.total) }
        ensures same { OnErr result (self.new.stacks.items ≡ self.old.stacks.items) }
    {
        let Some(total) = self.total.checked_add(1) else {
            return Err(AllocError);
        };
        for i in 0..self.stacks.len() {
            if self.stacks[i].is_of(frames) {
                self.stacks[i].count += 1;
                self.total = total;
                return Ok(());
            }
        }
        self.stacks.push(Folded::new(alloc, frames)?)?;
        self.total = total;
        Ok(())
    }

    /// The different stacks, in the order in which they were first seen. None is there twice.
    pub fn stacks(&self) -> &[Folded]
        ensures all { result.now ≡ self.now.stacks.items }
        ensures sum { counts_of result.now ≡ self.now.total }
        ensures distinct { AreDistinct (stacks_of result.now) }
    {
        &self.stacks
    }

    /// How many stacks were folded: the sum of the counts.
    pub fn total(&self) -> u64
        ensures { result ≡ self.now.total }
    {
        self.total
    }
}

ghost use Rattle.std.specs.Prelude.{◌≡◌, ◌≢◌, ◌+◌, List, [], map, OnOk, OnErr, IfOk};
ghost use Rattle.tiprof.specs.Folds.{AreDistinct, counts_of, same_methods, seen, stacks_of};
