//! Keys of elements, and binary searches over the keys of a chunk and of chunks.

/// A key of elements, which is a number. A type stands for it, so that elements may be of any type.
///
/// # Examples
///
/// ```rattle
/// use ti_chunked::{Chunked, KeyOf};
///
/// #[derive(Drop)]
/// struct Seat {
///     number: u32,
/// }
///
/// struct Number;
///
/// impl KeyOf<Seat> for Number {
///     ghost key = { λ s. s.number };
///
///     fn key(seat: &Seat) -> u32 {
///         seat.number
///     }
/// }
///
/// let mut seats = Chunked::new(rt.alloc());
/// for half in 0..1000 {
///     assert!(rt; seats.push(Seat { number: 2 * half }).is_ok());
/// }
/// assert!(rt; seats.partition_point::<Number>(301) == 151);
/// ```
pub trait KeyOf<T> {
    /// The key of an element.
    ghost key: { T → ℕ };

    /// The key of an element.
    fn key(item: &T) -> u32
        ensures { result ≡ key item.now };
}

/// An index of a chunk: the key of the element before it is below this one, and that of the element at it is not. It is a binary
/// search.
pub(crate) fn place_in<T, K: KeyOf<T>>(chunk: &Vec<T>, key: u32) -> usize
    ensures within { result ≤ length chunk.now.items }
    ensures below { (i : ℕ) (x : T) → i + 1 ≡ result → slice_get chunk.now.items i ≡ Some x → K.key x < key }
    ensures from { (x : T) → slice_get chunk.now.items result ≡ Some x → key ≤ K.key x }
{
    let mut low = 0;
    let mut high = chunk.len();
    while low < high {
        let middle = low + (high - low) / 2;
        if K::key(&chunk[middle]) < key {
            low = middle + 1;
        } else {
            high = middle;
        }
    }
    low
}

/// Whether there is a first element, and its key is below this one.
fn begins_below<T, K: KeyOf<T>>(chunk: &Vec<T>, key: u32) -> bool
    ensures yes { result ≡ true → 0 < length chunk.now.items }
    ensures below { result ≡ true → (x : T) → slice_get chunk.now.items 0 ≡ Some x → K.key x < key }
    ensures from { result ≡ false → (x : T) → slice_get chunk.now.items 0 ≡ Some x → key ≤ K.key x }
{
    !chunk.is_empty() && K::key(&chunk[0]) < key
}

/// An index of chunks: the chunk before it begins with a key below this one, and the chunk at it does not. It is a binary
/// search.
pub(crate) fn chunks_below<T, K: KeyOf<T>>(chunks: &Vec<Vec<T>>, key: u32) -> usize
    ensures within { result ≤ length chunks.now.items }
    ensures some { (i : ℕ) (c : _) → i + 1 ≡ result → slice_get chunks.now.items i ≡ Some c → 0 < length c.items }
    ensures below { (i : ℕ) (c : _) (x : T) → i + 1 ≡ result → slice_get chunks.now.items i ≡ Some c → slice_get c.items 0 ≡ Some x → K.key x < key }
    ensures from { (c : _) (x : T) → slice_get chunks.now.items result ≡ Some c → slice_get c.items 0 ≡ Some x → key ≤ K.key x }
{
    let mut low = 0;
    let mut high = chunks.len();
    while low < high {
        let middle = low + (high - low) / 2;
        if begins_below::<T, K>(&chunks[middle], key) {
            low = middle + 1;
        } else {
            high = middle;
        }
    }
    low
}

/// Whether there is a chunk at this index, and it has nothing in it.
pub(crate) fn is_empty_at<T>(chunks: &Vec<Vec<T>>, index: usize) -> bool
    ensures { result ≡ false → (c : _) → slice_get chunks.now.items index ≡ Some c → 0 < length c.items }
{
    index < chunks.len() && chunks[index].is_empty()
}

ghost use Rattle.std.specs.Prelude.{◌≡◌, ℕ, ◌+◌, ◌<◌, ◌≤◌, true, false, length, slice_get, Some};
