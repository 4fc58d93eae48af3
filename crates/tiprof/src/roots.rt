//! Stacks, kept apart by what their threads did and, if asked for, by worker. New threads' stacks are always apart.

use crate::fold::Fold;
use std::alloc::{AllocError, Global};
use ti_types::{Frame, ThreadNo};

/// What a thread did when its stack was taken.
#[derive(Clone, Copy)]
pub enum Doing {
    /// It ran, and handed its frames over at its next poll.
    Running,
    /// It was in native code or blocked, and was read there.
    Away,
}

impl Doing {
    /// What a thread did, by its state bits (JVM TI 11, GetThreadState). It ran if it is RUNNABLE and not IN_NATIVE.
    pub fn of_state(bits: u32) -> Doing
        ensures { result ≡ doing_of bits }
    {
        if bits & 0x400004 == 0x4 {
            Doing::Running
        } else {
            Doing::Away
        }
    }

    /// The word at the root of the stacks of such threads.
    pub fn word(self) -> &'static str
        ensures { result.now ≡ word_of self }
    {
        match self {
            Doing::Running => "running",
            Doing::Away => "native_or_blocked",
        }
    }
}

/// Whose stacks a part has.
#[derive(Clone, Copy)]
pub enum Owner {
    /// All workers'.
    Workers,
    /// Those of the worker of this number.
    Worker(usize),
    /// All new threads'.
    NewThreads,
}

impl Owner {
    /// The name at the root of its stacks. `None` if they have none. The error is lack of memory.
    pub fn name(self, alloc: Global) -> Result<Option<String>, AllocError>
        ensures name { IfOk result (λ n. option_map string_bytes n ≡ owner_name self) }
    {
        match self {
            Owner::Workers => Ok(None),
            Owner::Worker(number) => Ok(Some(format!(in alloc; "worker {number}")?)),
            Owner::NewThreads => Ok(Some(String::from_str(alloc, "new threads")?)),
        }
    }
}

/// The stacks of one owner.
#[derive(Drop)]
pub struct Part {
    running: Fold,
    away: Fold,
}

impl Part {
    /// No stack yet.
    fn new(alloc: Global) -> Part
        ensures none { folded_in result ≡ 0 }
        ensures empty { IsEmpty result }
    {
        Part {
            running: Fold::new(alloc),
            away: Fold::new(alloc),
        }
    }

    /// Adds one stack of a thread that did this, its newest frame first. The errors are those of `Fold::add`. Then nothing
    /// has changed.
    fn add(&mut self, alloc: Global, doing: Doing, frames: &[Frame]) -> Result<(), AllocError>
        ensures added { OnOk result (IsAddedTo self.old self.new doing (map (λ x. x.method) frames.now)) }
        ensures kept { OnErr result (stacks_in self.new ≡ stacks_in self.old) }
        ensures same { OnErr result (folded_in self.new ≡ folded_in self.old) }
    {
        match doing {
            Doing::Running => self.running.add(alloc, frames),
            Doing::Away => self.away.add(alloc, frames),
        }
    }

    /// The stacks of the threads that did this.
    pub fn fold(&self, doing: Doing) -> &Fold
        ensures { result.now ≡ fold_in self.now doing }
    {
        match doing {
            Doing::Running => &self.running,
            Doing::Away => &self.away,
        }
    }
}

/// All stacks.
#[derive(Drop)]
pub struct Roots {
    /// One for each worker, in the order of their numbers, or one for all. Then one for the new threads.
    parts: Vec<Part>,
    /// The threads of the numbers below this one are the workers.
    workers: u32,
    by_thread: bool,
    /// How many stacks were folded.
    total: u64,
    ghost count: { length parts.items ≡ parts_of_workers by_thread workers + 1 },
    ghost sums: { sum_by folded_in parts.items ≡ total },
}

impl Roots {
    /// No stack yet, for each of these workers or for all together, and for new threads. The error is lack of memory.
    pub fn new(alloc: Global, workers: u32, by_thread: bool) -> Result<Self, AllocError>
        ensures none { IfOk result (λ r. r.total ≡ 0) }
        ensures by_thread { IfOk result (λ r. r.by_thread ≡ by_thread) }
        ensures workers { IfOk result (λ r. r.workers ≡ workers) }
        ensures empty { IfOk result (λ r. All IsEmpty r.parts.items) }
    {
        let count = if by_thread { workers as usize } else { 1 } + 1;
        let mut parts = Vec::with_capacity(alloc, count)?;
        for _ in 0..count {
            parts.push_reserved(Part::new(alloc));
        }
        Ok(Roots {
            parts,
            workers,
            by_thread,
            total: 0,
        })
    }

    /// The place of a thread's part.
    fn place(&self, thread: ThreadNo) -> usize
        ensures { result ≡ place_of self.now.by_thread self.now.workers thread.0 }
    {
        if thread.0 >= self.workers {
            self.parts.len() - 1
        } else if self.by_thread {
            thread.0 as usize
        } else {
            0
        }
    }

    #[tactic(auto, using(crate::proofs::RootsLaws::kept_at, crate::proofs::RootsLaws::place_there))]
    /// Adds one stack of a thread that did this, its newest frame first. It is an error if there is no memory, or if the total
    /// would not fit in 64 bits. Then nothing has changed.
    pub fn add(
        &mut self,
        alloc: Global,
        thread: ThreadNo,
        doing: Doing,
        frames: &[Frame],
    ) -> Result<(), AllocError>
        ensures by_thread { self.new.by_thread ≡ self.old.by_thread }
        ensures workers { self.new.workers ≡ self.old.workers }
        ensures more { OnOk result (self.new.total ≡ self.old.total + 1) }
        ensures added { OnOk result (IsAddedAt self.old.parts.items self.new.parts.items (place_of self.old.by_thread self.old.workers thread.0) doing (map (λ x. x.method) frames.now)) }
        ensures kept { OnErr result (map stacks_in self.new.parts.items ≡ map stacks_in self.old.parts.items) }
        ensures same { OnErr result (self.new.total ≡ self.old.total) }
    {
        let at = self.place(thread);
        let Some(total) = self.total.checked_add(1) else {
            return Err(AllocError);
        };
        self.parts[at].add(alloc, doing, frames)?;
        self.total = total;
        Ok(())
    }

    /// The stacks of each owner: of each worker, in the order of their numbers, or of all workers, and then of the new threads.
    pub fn parts(&self) -> &[Part]
        ensures all { result.now ≡ self.now.parts.items }
        ensures sum { sum_by folded_in result.now ≡ self.now.total }
    {
        &self.parts
    }

    /// Whose stacks the part at this place has.
    pub fn owner(&self, place: usize) -> Owner
        ensures { result ≡ owner_at self.now.by_thread self.now.workers place }
    {
        if place >= self.parts.len() - 1 {
            Owner::NewThreads
        } else if self.by_thread {
            Owner::Worker(place)
        } else {
            Owner::Workers
        }
    }

    /// How many stacks were folded.
    pub fn total(&self) -> u64
        ensures { result ≡ self.now.total }
    {
        self.total
    }
}

ghost use Rattle.std.specs.Prelude.{◌≡◌, ◌+◌, map, length, OnOk, OnErr, IfOk};
ghost use Rattle.std.specs.List.{All, sum_by};
ghost use Rattle.std.specs.Option.{option_map};
ghost use Rattle.std.specs.String.{string_bytes};
ghost use Rattle.tiprof.specs.Lines.{owner_name};
ghost use Rattle.tiprof.specs.Roots.{doing_of, fold_in, folded_in, IsAddedTo, IsAddedAt, IsEmpty, owner_at, parts_of_workers, place_of, stacks_in, word_of};
