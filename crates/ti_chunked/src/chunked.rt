//! The list.

use crate::chunks::{MOST, chunk_of, lower, push_behind, tidy};
use crate::key_of::{KeyOf, chunks_below, is_empty_at, place_in};
use std::alloc::Global;
use std::marker::Model;
use std::ops::{Index, IndexMut};

/// A list in chunks. Contracts see it as the list of its elements.
///
/// An index leads to its element by a binary search over the chunks, of which there are some for each 128 elements. To take an
/// element out moves those behind it in its chunk, at most 127, and lowers the index at which each later chunk starts. To find
/// an element by its key, `partition_point` searches the chunks once, and no index is looked up on the way.
///
/// # Examples
///
/// ```rattle
/// use ti_chunked::Chunked;
///
/// let mut list = Chunked::new(rt.alloc());
/// for number in 0..1000 {
///     assert!(rt; list.push(number).is_ok());
/// }
/// assert!(rt; list.remove(300) == 300);
/// assert!(rt; list.len() == 999 && list[300] == 301);
/// list[300] = 7;
/// assert!(rt; list[300] == 7 && list[299] == 299);
/// ```
#[derive(Drop, Debug)]
pub struct Chunked<T> {
    /// The first chunk. It has room for all elements, so that `into_vec` takes no memory.
    front: Vec<T>,
    /// The others, in their order.
    chunks: Vec<Vec<T>>,
    /// The index of the first element of each of them.
    starts: Vec<u32>,
    len: usize,
}

impl<T> Model for Chunked<T> {
    ghost use Rattle.std.specs.Prelude.{◌≡◌, ◌≤◌, ◌++◌, List, length, map, vec_capacity};
    ghost use Rattle.ti_chunked.specs.Chunks.{joined, starts_from};

    ghost Value = { List T };

    ghost view = { λ s. s.front.items ++ joined (map (λ c. c.items) s.chunks.items) };

    ghost invariant = { λ s. (s.starts.items ≡ starts_from (length s.front.items) (map (λ c. c.items) s.chunks.items)) × (s.len ≡ length (s.front.items ++ joined (map (λ c. c.items) s.chunks.items))) × (s.len ≤ vec_capacity s.front) };
}

impl<T> Chunked<T> {
    /// A list of nothing. It takes no memory.
    pub fn new(alloc: Global) -> Chunked<T>
        ensures { result ≡ [] }
    {
        Chunked {
            front: Vec::new(alloc),
            chunks: Vec::new(alloc),
            starts: Vec::new(alloc),
            len: 0,
        }
    }

    /// A list of these elements. It takes no memory. They stay in one chunk, so that to take one of them out moves all that
    /// were given behind it.
    pub fn from_vec(items: Vec<T>) -> Chunked<T>
        ensures { result ≡ items.items }
    {
        let (len, alloc) = (items.len(), *items.allocator());
        Chunked {
            front: items,
            chunks: Vec::new(alloc),
            starts: Vec::new(alloc),
            len,
        }
    }

    /// How many elements there are.
    pub fn len(&self) -> usize
        ensures { result ≡ length self.now }
    {
        self.len
    }

    /// Adds an element behind the others. If there is no memory for it, or there are 2^32 already, it comes back and nothing
    /// changes.
    pub fn push(&mut self, value: T) -> Result<(), T>
        ensures pushed { OnOk result (self.new ≡ self.old ++ value ∷ []) }
        ensures back { IfErr result (λ v. v ≡ value) }
        ensures unchanged { OnErr result (self.new ≡ self.old) }
    {
        let Some(len) = self.len.checked_add(1) else {
            return Err(value);
        };
        if self.front.reserve(len - self.front.len()).is_err() {
            return Err(value);
        }
        if self.chunks.is_empty() && self.front.len() < MOST {
            self.front.push_reserved(value);
        } else {
            let Ok(start) = u32::try_from(self.len) else {
                return Err(value);
            };
            let alloc = *self.front.allocator();
            push_behind(alloc, &mut self.chunks, &mut self.starts, start, value)?;
        }
        self.len = len;
        Ok(())
    }
}

impl<T: Drop> Chunked<T> {
    /// Takes out the element with this index. The others keep their order.
    pub fn remove(&mut self, index: usize) -> T
        requires { index < length self.old }
        ensures value { result ≡ slice_index_or self.old index result }
        ensures items { self.new ≡ remove self.old index }
    {
        self.len -= 1;
        if index < self.front.len() {
            lower(&mut self.starts, 0);
            return self.front.remove(index);
        }
        let chunk = chunk_of(&self.starts, index);
        let start = self.starts[chunk] as usize;
        let value = self.chunks[chunk].remove(index - start);
        lower(&mut self.starts, chunk + 1);
        tidy(&mut self.chunks, &mut self.starts, chunk);
        value
    }

    /// The elements in their order. It takes no memory.
    pub fn into_vec(self) -> Vec<T>
        ensures { result.items ≡ self }
    {
        let Chunked {
            mut front,
            chunks,
            starts: _,
            len: _,
        } = self;
        for chunk in chunks {
            let mut chunk = chunk;
            let Ok(()) = front.append(&mut chunk) else {
                unreachable!()
            };
        }
        front
    }
}

impl<T> Chunked<T> {
    /// An index at which an element with this key may go: the key of the element before it is below this one, and that of the
    /// element at it is not. If the elements are in the order of their keys, it is how many of them are below this one.
    ///
    /// It is one binary search: over the first elements of the chunks, and then within one chunk.
    pub fn partition_point<K: KeyOf<T>>(&self, key: u32) -> usize
        ensures within { result ≤ length self.now }
        ensures below { (i : ℕ) (x : T) → i + 1 ≡ result → slice_get self.now i ≡ Some x → K.key x < key }
        ensures from { (x : T) → slice_get self.now result ≡ Some x → key ≤ K.key x }
    {
        let count = chunks_below::<T, K>(&self.chunks, key);
        if is_empty_at(&self.chunks, count) {
            return self.index_of::<K>(key);
        }
        if count == 0 {
            return place_in::<T, K>(&self.front, key);
        }
        self.starts[count - 1] as usize + place_in::<T, K>(&self.chunks[count - 1], key)
    }

    /// The same as `partition_point`, by a binary search over all indexes. It is for a list with an empty chunk, which there is
    /// if that is the only one behind the first, or if there was no memory to join it with another.
    fn index_of<K: KeyOf<T>>(&self, key: u32) -> usize
        ensures within { result ≤ length self.now }
        ensures below { (i : ℕ) (x : T) → i + 1 ≡ result → slice_get self.now i ≡ Some x → K.key x < key }
        ensures from { (x : T) → slice_get self.now result ≡ Some x → key ≤ K.key x }
    {
        let mut low = 0;
        let mut high = self.len;
        while low < high {
            let middle = low + (high - low) / 2;
            if K::key(&self[middle]) < key {
                low = middle + 1;
            } else {
                high = middle;
            }
        }
        low
    }
}

impl<T> Index<usize> for Chunked<T> {
    type Output = T;

    ghost can_index = { λ s i. i < length s };

    ghost index_gives = { λ s i x. x ≡ slice_index_or s i x };

    #[inline(always)]
    fn index(&self, index: usize) -> &T
        requires { index < length self.now }
        ensures { result.now ≡ slice_index_or self.now index result.now }
    {
        if index < self.front.len() {
            return &self.front[index];
        }
        let chunk = chunk_of(&self.starts, index);
        let within = &self.chunks[chunk];
        &within[index - self.starts[chunk] as usize]
    }
}

impl<T> IndexMut<usize> for Chunked<T> {
    ghost use Rattle.ti_chunked.specs.Lends.{lends_item};

    #[inline(always)]
    fn index_mut(&mut self, index: usize) -> &mut T
        requires { index < length self.old }
        ensures* writes_back { sem 𝓛 (lends_item T.row self.entry index result) }
        ensures value { result.now ≡ slice_index_or self.old index result.now }
    {
        if index < self.front.len() {
            return &mut self.front[index];
        }
        let chunk = chunk_of(&self.starts, index);
        let start = self.starts[chunk] as usize;
        let within = &mut self.chunks[chunk];
        &mut within[index - start]
    }
}

ghost use Rattle.std.specs.Prelude.{◌≡◌, ℕ, ◌+◌, ◌<◌, ◌≤◌, ◌++◌, ◌∷◌, [], length, remove, slice_get, slice_index_or, Some, IfErr, OnOk, OnErr};
ghost use Rattle.std.specs.Borrow.{sem};
