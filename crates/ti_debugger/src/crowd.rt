//! All threads that are watched, in the order of their numbers.

use crate::watched::Watched;
use std::alloc::{AllocError, Global};
use ti_types::ThreadNo;

/// How many threads are watched at most.
const MOST: usize = 65_536;

/// The threads that are watched, the lowest number first.
#[derive(Drop)]
pub(crate) struct Crowd {
    pub(crate) list: Vec<Watched>,
}

impl Crowd {
    /// Nobody. It takes no memory yet.
    pub(crate) fn new(alloc: Global) -> Crowd
        ensures { result.list.items ≡ [] }
    {
        Crowd {
            list: Vec::new(alloc),
        }
    }

    /// The place of a thread in the list. `None` if it is not watched.
    pub(crate) fn place_of(&self, thread: u32) -> Option<usize>
        ensures within { IfSome result (λ place. place < length self.now.list.items) }
        ensures found { IfSome result (λ place. number_at self.now.list.items place ≡ Some thread) }
        ensures none { IfNone result (watched_in thread self.now.list.items ≡ []) }
    {
        let mut low = 0;
        let mut high = self.list.len();
        while low < high {
            let middle = low + (high - low) / 2;
            let number = self.list[middle].thread.0;
            if number == thread {
                return Some(middle);
            }
            if number < thread {
                low = middle + 1;
            } else {
                high = middle;
            }
        }
        self.look_for(thread)
    }

    /// The place of a thread, by a look at each. The numbers rise, so a binary search has found it before, if it is there.
    fn look_for(&self, thread: u32) -> Option<usize>
        ensures within { IfSome result (λ place. place < length self.now.list.items) }
        ensures found { IfSome result (λ place. number_at self.now.list.items place ≡ Some thread) }
        ensures none { IfNone result (watched_in thread self.now.list.items ≡ []) }
    {
        for place in 0..self.list.len() {
            if self.list[place].thread.0 == thread {
                return Some(place);
            }
        }
        None
    }

    /// The highest number of a thread that is watched.
    pub(crate) fn last(&self) -> Option<ThreadNo> {
        let last = self.list.last()?;
        Some(last.thread)
    }

    /// The thread with the lowest number that is there.
    pub(crate) fn first_alive(&self) -> Option<u32>
        ensures { result ≡ first (alive_in self.now.list.items) }
    {
        for watched in &self.list {
            if !watched.ended {
                return Some(watched.thread.0);
            }
        }
        None
    }

    /// The numbers of the threads that are there, the lowest first. The error is lack of memory.
    #[tactic(auto, using(std::proofs::lemmas::List::Elements::filter_more))]
    pub(crate) fn alive(&self, alloc: Global) -> Result<Vec<u32>, AllocError>
        ensures { IfOk result (λ v. v.items ≡ alive_in self.now.list.items) }
    {
        let mut numbers = Vec::new(alloc);
        for one in &self.list {
            if !one.ended {
                numbers.push(one.thread.0)?;
            }
        }
        Ok(numbers)
    }

    /// The numbers of the threads that have started and not ended, the lowest first. The error is lack of memory.
    #[tactic(auto, using(std::proofs::lemmas::List::Elements::filter_more))]
    pub(crate) fn live(&self, alloc: Global) -> Result<Vec<u32>, AllocError>
        ensures { IfOk result (λ v. v.items ≡ live_in self.now.list.items) }
    {
        let mut numbers = Vec::new(alloc);
        for one in &self.list {
            if one.life.is_alive() {
                numbers.push(one.thread.0)?;
            }
        }
        Ok(numbers)
    }

    /// Whether a thread with a higher number is watched.
    pub(crate) fn has_later(&self, thread: u32) -> bool
        ensures { result ≡ any_later thread self.now.list.items }
    {
        self.list.iter().any(|one: &Watched| one.thread.0 > thread)
    }

    /// Watches one more thread, behind all others. If there is no room, those that have ended and were let go of are forgotten. False if
    /// there is no room even so, or no memory: then it is not watched.
    pub(crate) fn add(&mut self, one: Watched) -> bool
        ensures bound { length self.old.list.items ≤ 65536 → length self.new.list.items ≤ 65536 }
    {
        if self.list.len() >= MOST {
            self.forget_gone();
        }
        if self.list.len() >= MOST || self.list.reserve(1).is_err() {
            return false;
        }
        self.list.push_reserved(one);
        true
    }

    /// Forgets those that have ended and were let go of.
    fn forget_gone(&mut self)
        ensures { length self.new.list.items ≤ length self.old.list.items }
    {
        self.list.retain(|one: &Watched| !one.gone);
    }
}

ghost use Rattle.std.specs.Prelude.{◌≡◌, ◌<◌, ◌≤◌, [], Some, length, IfOk, IfSome, IfNone};
ghost use Rattle.ti_debugger.specs.Crowds.{number_at, alive_in, any_later, first, live_in, watched_in};
