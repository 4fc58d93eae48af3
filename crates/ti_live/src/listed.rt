//! A list that contracts compare by its elements.

use std::alloc::{AllocError, AllocFailed, Global};
use std::marker::Model;

/// Items in their order. Contracts see them as a list.
#[derive(Drop, Debug)]
pub struct Listed<T: Drop> {
    items: Vec<T>,
}

impl<T: Drop> Model for Listed<T> {
    ghost use Rattle.std.specs.Prelude.{List};

    ghost Value = { List T };

    ghost view = { λ e. e.items.items };
}

impl<T: Drop> Listed<T> {
    /// Makes an empty list. It takes no memory until an item is added.
    pub fn new(alloc: Global) -> Self
        ensures { result ≡ [] }
    {
        Listed {
            items: Vec::new(alloc),
        }
    }

    /// Makes an empty list with room for `count` items, so that adding them takes no memory. The error is lack of memory.
    pub fn with_room(alloc: Global, count: usize) -> Result<Self, AllocError>
        ensures { IfOk result (λ items. items ≡ []) }
    {
        Ok(Listed {
            items: Vec::with_capacity(alloc, count)?,
        })
    }

    /// Adds an item at the end. The only error is lack of memory. Then nothing changes, and the error gives the item back.
    pub fn push(&mut self, item: T) -> Result<(), AllocFailed<T>>
        ensures ok { OnOk result (self.new ≡ self.old ++ item ∷ []) }
        ensures err { OnErr result (self.new ≡ self.old) }
    {
        self.items.push(item)?;
        Ok(())
    }

    /// The items, in their order.
    pub fn as_slice(&self) -> &[T]
        ensures { result.now ≡ self.now }
    {
        self.items.as_slice()
    }
}

impl<T: Drop> From<Vec<T>> for Listed<T> {
    ghost use Rattle.std.specs.Prelude.{◌≡◌};

    ghost from_gives = { λ v l. l ≡ v.items };

    fn from(items: Vec<T>) -> Self {
        Listed { items }
    }
}

ghost use Rattle.std.specs.Prelude.{◌≡◌, ◌++◌, ◌∷◌, [], IfOk, OnOk, OnErr};
