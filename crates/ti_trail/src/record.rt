//! A list that is counted, and kept only if that was asked.

use crate::ghost_list::{GhostList, Reads};
use std::alloc::{AllocError, Global};
use std::marker::Model;

/// Whether the items of a record can be read again.
#[derive(Clone, Copy, Debug, PartialEq, Eq)]
pub enum Recording {
    /// Each is kept, in memory that is reserved when the record is made.
    Kept,
    /// They are only counted. This takes no memory.
    Counted,
}

impl Recording {
    /// `Kept` or `Counted`, as `keep` says.
    pub fn of(keep: bool) -> Self
        ensures { is_kept result ≡ keep }
    {
        if keep {
            Recording::Kept
        } else {
            Recording::Counted
        }
    }
}

/// What happened, the earliest first. Contracts see it as a `Recorded`: the items, how many there may be, and whether they
/// are kept.
#[derive(Drop)]
pub struct Record<T> {
    ghost_list: GhostList<T>,
    len: u64,
    room: u64,
    kept: Option<Vec<T>>,
}

impl<T> Model for Record<T> {
    ghost use Rattle.std.specs.Prelude.{◌≡◌, ◌≤◌, length, IfSome, is_some, vec_capacity};
    ghost use Rattle.ti_trail.specs.Record.{Recorded};

    ghost Value = { Recorded T };

    ghost view = { λ r. record { items = r.ghost_list.items; room = r.room; kept = is_some r.kept } };

    ghost invariant = { λ r. (r.len ≡ length r.ghost_list.items) × (r.len ≤ r.room) × IfSome r.kept (λ v. (v.items ≡ r.ghost_list.items) × (r.room ≤ vec_capacity v)) };
}

impl<T> Record<T> {
    /// An empty record with room for `room` items.
    ///
    /// Fails only if the items are to be kept and there is no memory for the room. A record that only counts takes none.
    pub fn new(alloc: Global, room: u64, recording: Recording) -> Result<Self, AllocError>
        ensures items { IfOk result (λ r. r.items ≡ []) }
        ensures room { IfOk result (λ r. r.room ≡ room) }
        ensures kept { IfOk result (λ r. r.kept ≡ is_kept recording) }
        ensures only_kept { OnErr result (is_kept recording ≡ true) }
    {
        let kept = match recording {
            Recording::Kept => Some(Vec::with_capacity(alloc, room as usize)?),
            Recording::Counted => None,
        };
        Ok(Record {
            ghost_list: GhostList::new(),
            len: 0,
            room,
            kept,
        })
    }

    /// How many items there are, at most the room.
    #[inline(always)]
    pub fn len(&self) -> u64
        ensures len { result ≡ length self.now.items }
        ensures fits { result ≤ self.now.room }
    {
        self.len
    }

    /// Whether there is no room for another item.
    pub fn is_full(&self) -> bool
        ensures { result ≡ nat_le self.now.room (length self.now.items) }
    {
        self.room <= self.len
    }

    /// The items. `None` if they are not kept.
    pub fn items(&self) -> Option<&[T]>
        ensures kept { is_some result ≡ self.now.kept }
        ensures items { IfSome result (λ s. s.now ≡ self.now.items) }
    {
        match &self.kept {
            Some(items) => Some(items.as_slice()),
            None => None,
        }
    }

    /// The items. `None` if they are not kept. The rest is dropped.
    pub fn into_items(self) -> Option<Vec<T>>
        ensures kept { is_some result ≡ self.kept }
        ensures items { IfSome result (λ v. v.items ≡ self.items) }
    {
        let Record {
            ghost_list: _,
            len: _,
            room: _,
            kept,
        } = self;
        kept
    }
}

impl<T: Drop> Record<T> {
    /// Adds an item at the end. There has to be room for it.
    #[inline(always)]
    pub fn push(&mut self, item: T)
        requires { length self.old.items < self.old.room }
        ensures { self.new ≡ with_items self.old (self.old.items ++ item ∷ []) }
    {
        self.ghost_list = self.ghost_list.and(&item);
        self.len += 1;
        if let Some(items) = &mut self.kept {
            items.push_reserved(item);
        }
    }

    /// Adds all items of another record at the end, each as `M` reads it. There has to be room for them. The items are kept
    /// only if both records keep theirs.
    #[inline(always)]
    pub fn append<S, M: Reads<S, T>>(&mut self, more: &Record<S>)
        requires { length self.old.items + length more.now.items ≤ self.old.room }
        ensures { self.new ≡ joined self.old more.now.kept (self.old.items ++ map M.read more.now.items) }
    {
        self.ghost_list = self.ghost_list.and_all::<S, M>(&more.ghost_list);
        self.len += more.len;
        if let Some(items) = &mut self.kept {
            match &more.kept {
                Some(more) => extend::<S, T, M>(items, more.as_slice()),
                None => self.kept = None,
            }
        }
    }

    /// Takes all items away. The room stays.
    #[inline(always)]
    pub fn clear(&mut self)
        ensures { self.new ≡ with_items self.old [] }
    {
        self.ghost_list = GhostList::new();
        self.len = 0;
        if let Some(items) = &mut self.kept {
            items.clear();
        }
    }

    /// Stops keeping the items. From here on they are only counted.
    pub fn forget(&mut self)
        ensures { self.new ≡ forgotten self.old }
    {
        self.kept = None;
    }
}

// Adds all of these at the end. There is room for them.
fn extend<S, T: Drop, M: Reads<S, T>>(items: &mut Vec<T>, more: &[S])
    requires { length items.old.items + length more.now ≤ vec_capacity items.old }
    ensures items { items.new.items ≡ items.old.items ++ map M.read more.now }
    ensures capacity { vec_capacity items.old ≤ vec_capacity items.new }
{
    for thing in more {
        match items.push(M::read(thing)) {
            Ok(()) => (),
            Err(_) => unreachable!(),
        }
    }
}

ghost use Rattle.std.specs.Prelude.{◌≡◌, ◌<◌, ◌≤◌, ◌+◌, ◌++◌, [], ◌∷◌, true, length, map, IfOk, IfSome, OnErr, is_some, vec_capacity, nat_le};
ghost use Rattle.ti_trail.specs.Record.{with_items, forgotten, joined, is_kept};
