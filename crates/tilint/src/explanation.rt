//! What is said of a document: a place in it, and words for people.

use crate::place::Place;
use std::alloc::{AllocError, Global};

/// What is said of a place in a document.
#[derive(Drop, Debug)]
pub struct Explanation {
    pub place: Place,
    pub words: String,
}

impl Explanation {
    /// These words about this place.
    pub(crate) fn at(place: Place, words: String) -> Self
        ensures { result.place ≡ place }
    {
        Explanation { place, words }
    }

    /// These fixed words about this place.
    pub(crate) fn fixed(alloc: Global, place: Place, words: &str) -> Result<Self, AllocError>
        ensures { IfOk result (λ x. x.place ≡ place) }
    {
        let words = String::from_str(alloc, words)?;
        Ok(Explanation { place, words })
    }
}

ghost use Rattle.std.specs.Prelude.{◌≡◌, IfOk};
