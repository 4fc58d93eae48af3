//! A list that only proofs read. It takes no memory, and its calls do nothing at run time.

use std::marker::{Model, PhantomData};

/// How values of one type are read as values of another.
pub trait Reads<S, T> {
    ghost read: { S → T };

    /// Reads one value.
    fn read(thing: &S) -> T
        ensures { result ≡ read thing.now };
}

/// What happened so far, the earliest first. Clauses read it as `items`.
#[derive(Drop)]
pub struct GhostList<T> {
    of: PhantomData<T>,
    pub ghost items: { List T },
}

impl<T> Model for GhostList<T> {
    ghost also_owns = { λ _. ftrue };
}

// It owns nothing.
unsafe impl<T: Send> Send for GhostList<T> {}

unsafe impl<T: Sync> Sync for GhostList<T> {}

impl<T> GhostList<T> {
    /// An empty list.
    pub fn new() -> GhostList<T>
        ensures { result.items ≡ [] }
    {
        GhostList { of: PhantomData }
    }

    /// The list with one more item at the end.
    pub fn and(&self, _item: &T) -> GhostList<T>
        ensures { result.items ≡ self.now.items ++ _item.now ∷ [] }
    {
        GhostList { of: PhantomData }
    }

    /// The list with all of another after it, each item as `M` reads it.
    pub fn and_all<S, M: Reads<S, T>>(&self, _more: &GhostList<S>) -> GhostList<T>
        ensures { result.items ≡ self.now.items ++ map M.read _more.now.items }
    {
        GhostList { of: PhantomData }
    }
}

ghost use Rattle.std.specs.Prelude.{◌≡◌, List, [], ◌∷◌, ◌++◌, map};
ghost use Rattle.std.specs.Borrow.{ftrue};
