//! The chunks behind the first one, and the indexes at which they start.

use std::alloc::{AllocError, Global};

/// How many elements a chunk has at most, if they were pushed one by one.
pub(crate) const MOST: usize = 128;

/// The place of the last chunk that starts at this index or before it. The first one does.
///
/// It looks first where the chunk is if all before it are full.
pub(crate) fn chunk_of(starts: &Vec<u32>, index: usize) -> usize
    requires some { 0 < length starts.now.items }
    requires from { slice_index starts.now.items 0 ≤ index }
    ensures there { result < length starts.now.items }
    ensures from { slice_index starts.now.items result ≤ index }
    ensures below { result + 1 < length starts.now.items → index < slice_index starts.now.items (result + 1) }
{
    let guess = (index - starts[0] as usize) / MOST;
    if is_at(starts, guess, index) {
        return guess;
    }
    if is_at(starts, guess + 1, index) {
        return guess + 1;
    }
    search(starts, index)
}

/// Whether this is the last chunk that starts at this index or before it.
fn is_at(starts: &Vec<u32>, chunk: usize, index: usize) -> bool
    ensures there { result ≡ true → chunk < length starts.now.items }
    ensures from { result ≡ true → slice_index starts.now.items chunk ≤ index }
    ensures below { result ≡ true → chunk + 1 < length starts.now.items → index < slice_index starts.now.items (chunk + 1) }
{
    if chunk >= starts.len() || starts[chunk] as usize > index {
        return false;
    }
    starts.len() - chunk < 2 || index < starts[chunk + 1] as usize
}

/// The same as `chunk_of`, by binary search.
fn search(starts: &Vec<u32>, index: usize) -> usize
    requires some { 0 < length starts.now.items }
    requires from { slice_index starts.now.items 0 ≤ index }
    ensures there { result < length starts.now.items }
    ensures from { slice_index starts.now.items result ≤ index }
    ensures below { result + 1 < length starts.now.items → index < slice_index starts.now.items (result + 1) }
{
    let mut low = 0;
    let mut high = starts.len();
    while high - low > 1 {
        let middle = low + (high - low) / 2;
        if starts[middle] as usize <= index {
            low = middle;
        } else {
            high = middle;
        }
    }
    low
}

/// Each chunk from this one on starts one element earlier.
pub(crate) fn lower(starts: &mut Vec<u32>, first: usize)
    requires { ArePositive first starts.old.items }
    ensures { starts.new.items ≡ lowered first starts.old.items }
{
    lower_each(starts.as_mut_slice(), first);
}

/// Each number from this one on is one less. It takes a slice, of which a compiler knows that it stays where it is, so that it
/// lowers some at once.
#[tactic(auto, using(crate::proofs::Lowering::positive_here, crate::proofs::Lowering::one_lower, crate::proofs::Lowering::positive_on, crate::proofs::Lowering::lowered_past))]
fn lower_each(starts: &mut [u32], first: usize)
    requires { ArePositive first starts.old }
    ensures { starts.new ≡ lowered first starts.old }
{
    for i in first..starts.len() {
        starts[i] -= 1;
    }
}

/// Adds an element behind the others, which are so many with those before the chunks. It comes back if there is no memory for it.
pub(crate) fn push_behind<T>(
    alloc: Global,
    chunks: &mut Vec<Vec<T>>,
    starts: &mut Vec<u32>,
    len: u32,
    value: T,
) -> Result<(), T>
    ensures starts { (n : ℕ) → starts.old.items ≡ starts_from n (map (λ c. c.items) chunks.old.items) → len ≡ n + length (joined (map (λ c. c.items) chunks.old.items)) → starts.new.items ≡ starts_from n (map (λ c. c.items) chunks.new.items) }
    ensures pushed { OnOk result (joined (map (λ c. c.items) chunks.new.items) ≡ joined (map (λ c. c.items) chunks.old.items) ++ value ∷ []) }
    ensures back { IfErr result (λ v. v ≡ value) }
    ensures same { OnErr result (joined (map (λ c. c.items) chunks.new.items) ≡ joined (map (λ c. c.items) chunks.old.items)) }
{
    if open_last(alloc, chunks, starts, len).is_err() {
        return Err(value);
    }
    let last = chunks.len() - 1;
    match chunks[last].push(value) {
        Ok(()) => Ok(()),
        Err(failed) => Err(failed.value),
    }
}

/// Adds a chunk with nothing in it, if the last one takes no more elements.
fn open_last<T>(
    alloc: Global,
    chunks: &mut Vec<Vec<T>>,
    starts: &mut Vec<u32>,
    len: u32,
) -> Result<(), AllocError>
    ensures there { OnOk result (0 < length chunks.new.items) }
    ensures starts { (n : ℕ) → starts.old.items ≡ starts_from n (map (λ c. c.items) chunks.old.items) → len ≡ n + length (joined (map (λ c. c.items) chunks.old.items)) → starts.new.items ≡ starts_from n (map (λ c. c.items) chunks.new.items) }
    ensures same { joined (map (λ c. c.items) chunks.new.items) ≡ joined (map (λ c. c.items) chunks.old.items) }
{
    if !is_full(chunks) {
        return Ok(());
    }
    chunks.reserve(1)?;
    starts.reserve(1)?;
    chunks.push_reserved(Vec::new(alloc));
    starts.push_reserved(len);
    Ok(())
}

/// Whether the last chunk takes no more elements. It is so if there is no chunk.
fn is_full<T>(chunks: &Vec<Vec<T>>) -> bool
    ensures { result ≡ false → 0 < length chunks.now.items }
{
    let count = chunks.len();
    count == 0 || chunks[count - 1].len() >= MOST
}

/// Joins a chunk with those beside it, where two together are as many as one chunk has at most.
pub(crate) fn tidy<T: Drop>(chunks: &mut Vec<Vec<T>>, starts: &mut Vec<u32>, chunk: usize)
    requires there { chunk < length chunks.old.items }
    requires count { length starts.old.items ≡ length chunks.old.items }
    ensures starts { (n : ℕ) → starts.old.items ≡ starts_from n (map (λ c. c.items) chunks.old.items) → starts.new.items ≡ starts_from n (map (λ c. c.items) chunks.new.items) }
    ensures same { joined (map (λ c. c.items) chunks.new.items) ≡ joined (map (λ c. c.items) chunks.old.items) }
{
    join(chunks, starts, chunk);
    if chunk > 0 {
        join(chunks, starts, chunk - 1);
    }
}

/// Joins a chunk with the one behind it, if both together are as many as one chunk has at most.
fn join<T: Drop>(chunks: &mut Vec<Vec<T>>, starts: &mut Vec<u32>, chunk: usize)
    requires there { chunk < length chunks.old.items }
    requires count { length starts.old.items ≡ length chunks.old.items }
    ensures there { chunk < length chunks.new.items }
    ensures count { length starts.new.items ≡ length chunks.new.items }
    ensures starts { (n : ℕ) → starts.old.items ≡ starts_from n (map (λ c. c.items) chunks.old.items) → starts.new.items ≡ starts_from n (map (λ c. c.items) chunks.new.items) }
    ensures same { joined (map (λ c. c.items) chunks.new.items) ≡ joined (map (λ c. c.items) chunks.old.items) }
{
    if chunks.len() - chunk < 2 {
        return;
    }
    let more = chunks[chunk + 1].len();
    if more > MOST || chunks[chunk].len() > MOST - more {
        return;
    }
    if chunks[chunk].reserve(more).is_err() {
        return;
    }
    let mut next = chunks.remove(chunk + 1);
    let _start = starts.remove(chunk + 1);
    let Ok(()) = chunks[chunk].append(&mut next) else {
        unreachable!()
    };
}

ghost use Rattle.std.specs.Prelude.{◌≡◌, ℕ, ◌+◌, ◌<◌, ◌≤◌, ◌++◌, ◌∷◌, [], true, false, length, map, slice_index, IfErr, OnOk, OnErr};
ghost use Rattle.ti_chunked.specs.Chunks.{ArePositive, joined, lowered, starts_from};
