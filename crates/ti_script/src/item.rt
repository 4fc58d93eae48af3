//! Items and their elements, by their numbers.

use crate::located::{LocatedFault, Part};

/// What an item begins with. An event of a walk begins with its subject, and any other item with its word.
#[derive(Clone, Copy)]
pub(crate) enum Lead {
    Subject,
    Word,
}

/// An item by its number, counted from 1.
#[derive(Clone, Copy)]
pub(crate) struct Item {
    pub(crate) number: u32,
    pub(crate) lead: Lead,
}

/// An element of an item, by its place, counted from 0.
#[derive(Clone, Copy)]
pub(crate) struct Spot {
    pub(crate) item: u32,
    pub(crate) element: u32,
}

impl Item {
    /// The item of an event of a walk.
    pub(crate) fn of_walk(number: u32) -> Self
        ensures { result ≡ walk_item number }
    {
        Item {
            number,
            lead: Lead::Subject,
        }
    }

    /// The item of an operation or a call of a live script, or of an entry of a history.
    pub(crate) fn of_list(number: u32) -> Self
        ensures { result ≡ listed_item number }
    {
        Item {
            number,
            lead: Lead::Word,
        }
    }

    /// The fault that the item as a whole has the wrong shape.
    pub(crate) fn shape(self) -> LocatedFault
        ensures { result ≡ shape_of self }
    {
        LocatedFault::Shape {
            item: self.number,
            part: Part::Whole,
        }
    }

    /// The place of its subject.
    pub(crate) fn subject(self) -> Spot
        ensures { result ≡ subject_of self }
    {
        Spot {
            item: self.number,
            element: 0,
        }
    }

    fn word_place(self) -> u32
        ensures place { result ≡ word_place self.lead }
        ensures small { result ≤ 1 }
    {
        match self.lead {
            Lead::Subject => 1,
            Lead::Word => 0,
        }
    }

    /// The element this many places after its word.
    pub(crate) fn behind_word(self, places: u32) -> Spot
        requires { places ≤ 5 }
        ensures { result ≡ behind_word self places }
    {
        Spot {
            item: self.number,
            element: self.word_place() + places,
        }
    }

    /// The place of its word.
    pub(crate) fn word(self) -> Spot
        ensures { result ≡ behind_word self 0 }
    {
        self.behind_word(0)
    }
}

impl Spot {
    /// The fault that the element has the wrong shape.
    pub(crate) fn shape(self) -> LocatedFault
        ensures { result ≡ shape_at self }
    {
        LocatedFault::Shape {
            item: self.item,
            part: Part::Element(self.element),
        }
    }

    /// The fault that the element has a wrong name.
    pub(crate) fn name(self) -> LocatedFault
        ensures { result ≡ name_at self }
    {
        LocatedFault::Name {
            item: self.item,
            part: Part::Element(self.element),
        }
    }
}

ghost use Rattle.std.specs.Prelude.{◌≡◌, ◌≤◌};
ghost use Rattle.ti_script.specs.Spots.{shape_of, shape_at, name_at, subject_of, word_place, behind_word, walk_item, listed_item};
