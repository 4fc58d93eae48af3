//! The names of a document, by their numbers.

use indexmap::IndexSet;
use std::alloc::{AllocError, Global};
use std::marker::Model;

/// At most 65,536 different names, numbered from 0 in their order. A name is found by its text in O(1), and so is a text by
/// its number. Contracts see the list of the names' bytes.
#[derive(Drop)]
pub struct Names {
    set: IndexSet<String>,
}

impl Model for Names {
    ghost use Rattle.std.specs.Prelude.{List, ℕ, ◌≤◌, length, map, string_bytes};

    ghost Value = { List (List ℕ) };

    ghost view = { λ n. map string_bytes n.set.keys };

    ghost invariant = { λ n. length n.set.keys ≤ 65536 };
}

impl Names {
    /// Makes an empty list. It takes no memory until a name is added.
    pub fn new(alloc: Global) -> Self
        ensures { result ≡ [] }
    {
        Names {
            set: IndexSet::new(alloc),
        }
    }

    /// Makes an empty list with room for `room` names. The error is lack of memory.
    pub fn with_room(alloc: Global, room: usize) -> Result<Self, AllocError>
        ensures { IfOk result (λ names. names ≡ []) }
    {
        let set = IndexSet::with_capacity(alloc, room)?;
        Ok(Names { set })
    }

    /// How many names there are, at most 65,536.
    pub fn len(&self) -> usize
        ensures length { result ≡ length self.now }
        ensures few { length self.now ≤ 65536 }
    {
        self.set.len()
    }

    /// The number of a name, which is its place. `None` if the name is not here.
    #[tactic(auto, using(crate::proofs::NameLaws::number_in_texts))]
    pub fn number(&self, name: &str) -> Option<u32>
        ensures { result ≡ number_in self.now name.now }
    {
        let index = self.set.get_index_of(name)?;
        Some(index as u32)
    }

    /// Whether the name is here.
    #[tactic(auto, using(crate::proofs::NameLaws::is_among_texts))]
    pub fn contains(&self, name: &str) -> bool
        ensures { result ≡ is_among self.now name.now }
    {
        self.set.contains(name)
    }

    /// The name of this number. `None` if no name has it.
    pub fn name(&self, number: u32) -> Option<&str>
        ensures { option_copied result ≡ slice_get self.now number }
    {
        let name = self.set.get_index(number as usize)?;
        Some(name.as_str())
    }

    /// A length in bytes that no name exceeds. It looks at each name.
    #[tactic(auto, using(crate::proofs::NameLaws::within))]
    pub fn longest(&self) -> usize
        ensures { AreNamesWithin result self.now }
    {
        let mut longest = 0;
        for at in 0..self.len() {
            if let Some(name) = self.name(at as u32) {
                longest = longest.max(name.len());
            }
        }
        longest
    }

    /// Adds a name at the end if it is not here yet, and gives whether it was added. If memory runs out, the names stay as
    /// they were.
    #[tactic(auto, using(crate::proofs::NameLaws::is_among_texts))]
    pub fn add(&mut self, alloc: Global, name: &str) -> Result<bool, AllocError>
        requires { length self.old < 65536 }
        ensures added { IfOk result (λ added. added ≡ not (is_among self.old name.now)) }
        ensures names { IfOk result (λ added. self.new ≡ (if added then self.old ++ name.now ∷ [] else self.old)) }
        ensures err { OnErr result (self.new ≡ self.old) }
    {
        let name = String::from_str(alloc, name)?;
        let (_, added) = self.set.insert_full(name)?;
        Ok(added)
    }
}

/// The names of a document's threads, agents and methods. The number of a name is its place in the document's array.
#[derive(Drop)]
pub struct Cast {
    pub threads: Names,
    pub agents: Names,
    pub methods: Names,
}

ghost use Rattle.std.specs.Prelude.{◌≡◌, ◌<◌, ◌≤◌, ◌++◌, ◌∷◌, [], length, IfOk, OnErr, not, slice_get, option_copied, if◌then◌else◌};
ghost use Rattle.ti_script.specs.Names.{number_in, is_among};
ghost use Rattle.ti_script.specs.Bounds.{AreNamesWithin};
