//! The texts of a profile, each once. A message names a text by its number.

use indexmap::IndexSet;
use std::alloc::{AllocError, Global};

/// Texts in the order in which they were first added. None is there twice.
#[derive(Drop)]
pub(crate) struct Texts<'t> {
    texts: IndexSet<&'t str>,
}

impl<'t> Texts<'t> {
    /// No text yet.
    pub(crate) fn new(alloc: Global) -> Self
        ensures { strings_in result ≡ [] }
    {
        Texts {
            texts: IndexSet::new(alloc),
        }
    }

    /// Adds a text, unless it is there. The error is lack of memory. Then nothing has changed.
    pub(crate) fn add(&mut self, text: &'t str) -> Result<(), AllocError>
        ensures added { OnOk result (strings_in self.new ≡ with_string (strings_in self.old) text.now) }
        ensures kept { OnErr result (strings_in self.new ≡ strings_in self.old) }
    {
        self.texts.insert_full(text)?;
        Ok(())
    }

    /// The number of a text: its place. How many texts there are, if it is not there.
    pub(crate) fn number(&self, text: &str) -> u64
        ensures { result ≡ number_of (strings_in self.now) text.now }
    {
        match self.texts.get_index_of(text) {
            Some(place) => place as u64,
            None => self.texts.len() as u64,
        }
    }

    /// The texts.
    pub(crate) fn strings(&self) -> &[&'t str]
        ensures { map (λ s. s.now) result.now ≡ strings_in self.now }
    {
        self.texts.as_slice()
    }
}

ghost use Rattle.std.specs.Prelude.{◌≡◌, [], map, OnOk, OnErr};
ghost use Rattle.ti_pprof.specs.Strings.{number_of, strings_in, with_string};
