//! Slots that are each written once, by any thread, in buckets that double. No call waits.

use crate::error::ClassError;
use boxcar::Keeps;
use boxcar::slot::{OnceSlot, SlotRule, Written};
use boxcar::table::{Entry, Row};
use boxcar::tag::{Names, Tag};
use std::alloc::{AllocError, Global};
use std::marker::Model;

/// Enough for an index of 32 bits.
const BUCKETS: usize = 28;

#[derive(Drop)]
struct Numbered {
    number: usize,
    tag: Tag,
}

struct Before;

impl Names<Numbered> for Before {
    ghost use Rattle.std.specs.Prelude.{◌∷◌};

    ghost numbers = { λ x. x.number ∷ x.tag.numbers };
}

struct Same;

impl Names<Tag> for Same {
    ghost numbers = { λ t. t.numbers };
}

fn with_number(number: usize, tag: &Tag) -> Tag
    ensures { result.numbers ≡ number ∷ tag.now.numbers }
{
    let tag = Tag::of::<Tag, Same>(tag);
    Tag::of::<Numbered, Before>(&Numbered { number, tag })
}

fn new_row<T: Drop, Q: SlotRule<T>>(
    alloc: Global,
    tag: &Tag,
    from: usize,
    len: usize,
) -> Result<Vec<OnceSlot<T, Q>>, AllocError>
    requires { from + len < 2 ^ 64 }
    ensures { IfOk result (λ v. Tagged tag.now.numbers from len v.items) }
{
    let mut slots = Vec::with_capacity(alloc, len)?;
    let mut j = 0;
    while j < len {
        slots.push_reserved(OnceSlot::new(&with_number(from + j, tag)));
        j += 1;
    }
    Ok(slots)
}

fn bucket_len(bucket: usize) -> usize
    requires { bucket < 28 }
    ensures { (result ≡ span bucket) × (result + result < 2 ^ 64) }
{
    32 << bucket
}

/// The bucket of an index, and its place there.
fn locate(index: u32) -> (usize, usize)
    ensures at { IsAt index result.0 result.1 }
    ensures few { result.0 < 28 }
{
    let skewed = index as usize + 32;
    let bucket = skewed.ilog2() as usize - 5;
    (bucket, skewed - bucket_len(bucket))
}

/// Contracts see the tag, by which each value keeps the rule at its index.
#[derive(Drop)]
pub(crate) struct Slots<T, P: Keeps<T>> {
    buckets: Vec<OnceSlot<Vec<OnceSlot<T, Entry<P>>>, Row>>,
    alloc: Global,
    tag: Tag,
}

impl<T, P: Keeps<T>> Model for Slots<T, P> {
    ghost use Rattle.std.specs.Prelude.{List, ℕ};
    ghost use base.Stored.{coded_list, coded_ℕ};
    ghost use Rattle.boxcar.specs.Table.{Tagged};

    ghost Value = { List ℕ };

    ghost coded = { coded_list coded_ℕ };

    ghost view = { λ s. s.tag.numbers };

    ghost invariant = { λ s. Tagged s.tag.numbers 0 28 s.buckets.items };
}

impl<T: Drop, P: Keeps<T>> Slots<T, P> {
    pub(crate) fn new(alloc: Global, tag: Tag) -> Result<Slots<T, P>, AllocError>
        ensures { IfOk result (λ s. s ≡ tag.numbers) }
    {
        let buckets = new_row(alloc, &tag, 0, BUCKETS)?;
        Ok(Slots {
            buckets,
            alloc,
            tag,
        })
    }

    /// The value at the index, if there is one now.
    pub(crate) fn get(&self, index: u32) -> Option<&T>
        ensures { IfSome result (λ r. P.holds self.now index r.now) }
    {
        let (bucket, slot) = locate(index);
        self.buckets[bucket].get()?[slot].get()
    }

    /// Makes the bucket unless it is there. Where another thread stores its own first, this one is dropped.
    fn lay(&self, bucket: usize) -> Result<(), ClassError>
        requires { bucket < 28 }
        ensures { IfErr result (λ e. IsTransient e) }
    {
        if self.buckets[bucket].get().is_some() {
            return Ok(());
        }
        let len = bucket_len(bucket);
        let slots = new_row(self.alloc, &self.tag, len, len)?;
        drop(self.buckets[bucket].set_written(slots));
        match self.buckets[bucket].get() {
            Some(_) => Ok(()),
            None => Err(ClassError::Busy),
        }
    }

    /// Makes the slots of these indexes, unless they are there. The error is `OutOfMemory`, or `Busy` if another thread is
    /// just storing them.
    pub(crate) fn reserve(&self, first: u32, last: u32) -> Result<(), ClassError>
        ensures { IfErr result (λ e. IsTransient e) }
    {
        let (mut bucket, _) = locate(first);
        let (end, _) = locate(last);
        while bucket <= end {
            self.lay(bucket)?;
            bucket += 1;
        }
        Ok(())
    }

    /// Writes a value, and gives what shows it. The value comes back if there is one already, or its slot was not made.
    pub(crate) fn set(&self, index: u32, value: T) -> Result<Written<T>, T>
        requires { P.holds self.now index value }
        ensures written { IfOk result (λ w. w.value ≡ value) }
        ensures back { IfErr result (λ v. v ≡ value) }
    {
        let (bucket, slot) = locate(index);
        match self.buckets[bucket].get() {
            Some(row) => row[slot].set_written(value),
            None => Err(value),
        }
    }
}

ghost use Rattle.std.specs.Prelude.{◌≡◌, ◌+◌, ◌^◌, ◌<◌, ◌∷◌, IfSome, IfOk, IfErr};
ghost use Rattle.boxcar.specs.Table.{IsAt, Tagged, span};
ghost use Rattle.ti_methods.specs.Errors.{IsTransient};
