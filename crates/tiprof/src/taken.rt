//! What the samples have brought so far.
use crate::options::Options;
use crate::roots::{Doing, Roots};
use std::alloc::Global;
use ti_types::{Answer, Frame, ThreadNo};

/// The stacks, and how many threads were alive, over all samples.
#[derive(Drop)]
pub struct Taken {
    roots: Roots,
    live: u64,
}

impl Taken {
    /// Nothing yet. `None` if memory runs out.
    pub fn new(alloc: Global, options: Options) -> Option<Taken> {
        let roots = Roots::new(alloc, options.threads, options.by_thread).ok()?;
        Some(Taken { roots, live: 0 })
    }

    /// Adds one stack of a thread that is alive. `None` if memory runs out.
    pub fn add(
        &mut self,
        alloc: Global,
        thread: ThreadNo,
        doing: Doing,
        frames: &[Frame],
    ) -> Option<()>
        ensures by_thread { self.new.roots.by_thread ≡ self.old.roots.by_thread }
        ensures workers { self.new.roots.workers ≡ self.old.roots.workers }
        ensures added { OnSome result (IsAddedAt self.old.roots.parts.items self.new.roots.parts.items (place_of self.old.roots.by_thread self.old.roots.workers thread.0) doing (map (λ x. x.method) frames.now)) }
        ensures live { OnSome result (self.old.live < 18446744073709551615 → self.new.live ≡ self.old.live + 1) }
        ensures kept { IfNone result (map stacks_in self.new.roots.parts.items ≡ map stacks_in self.old.roots.parts.items) }
    {
        let Ok(()) = self.roots.add(alloc, thread, doing, frames) else {
            return None;
        };
        self.live = self.live.saturating_add(1);
        Some(())
    }

    /// Adds the answer to a stack trace, which counts for this many samples. A refused one adds nothing, since its thread is
    /// not alive. `None` if memory runs out.
    pub fn add_answer(
        &mut self,
        alloc: Global,
        thread: ThreadNo,
        doing: Doing,
        answer: Answer,
        samples: u64,
    ) -> Option<()>
        ensures by_thread { self.new.roots.by_thread ≡ self.old.roots.by_thread }
        ensures workers { self.new.roots.workers ≡ self.old.roots.workers }
        ensures added { OnSome result (AddsAnswer answer samples self.old.roots.parts.items self.new.roots.parts.items (place_of self.old.roots.by_thread self.old.roots.workers thread.0) doing) }
    {
        let Answer::Trace(buf) = answer else {
            return Some(());
        };
        self.add_times(alloc, thread, doing, buf.frames(), samples)
    }

    /// Adds one stack so many times. `None` if memory runs out.
    fn add_times(
        &mut self,
        alloc: Global,
        thread: ThreadNo,
        doing: Doing,
        frames: &[Frame],
        times: u64,
    ) -> Option<()>
        ensures by_thread { self.new.roots.by_thread ≡ self.old.roots.by_thread }
        ensures workers { self.new.roots.workers ≡ self.old.roots.workers }
        ensures added { OnSome result (AreAddedAt times self.old.roots.parts.items self.new.roots.parts.items (place_of self.old.roots.by_thread self.old.roots.workers thread.0) doing (map (λ x. x.method) frames.now)) }
    {
        for _ in 0..times {
            self.add(alloc, thread, doing, frames)?;
        }
        Some(())
    }

    /// The stacks.
    pub fn roots(&self) -> &Roots
        ensures { result.now ≡ self.now.roots }
    {
        &self.roots
    }

    /// How many threads were alive, over all samples.
    pub fn live(&self) -> u64
        ensures { result ≡ self.now.live }
    {
        self.live
    }
}

ghost use Rattle.std.specs.Prelude.{◌≡◌, ◌<◌, ◌+◌, map, IfNone, OnSome};
ghost use Rattle.tiprof.specs.Roots.{AddsAnswer, AreAddedAt, IsAddedAt, place_of, stacks_in};
