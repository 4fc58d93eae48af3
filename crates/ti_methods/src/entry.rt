//! A class in its slot, with what shows where it stands in the list.

use crate::info::ClassInfo;
use crate::law::SeenClasses;
use boxcar::Keeps;

/// A class that was defined, beside a beginning of the list that has it under its number.
#[derive(Drop)]
pub(crate) struct Entry {
    pub(crate) class: ClassInfo,
    /// The number of its first method.
    pub(crate) first: u32,
    pub(crate) seen: SeenClasses,
}

/// Each class stands under its number.
pub(crate) struct Numbers;

impl Keeps<Entry> for Numbers {
    ghost use Rattle.ti_methods.specs.Rules.{IsEntry};

    ghost holds = { λ tag index entry. IsEntry tag index entry };
}

/// For each method, the number of a class, which has to be looked at.
pub(crate) struct Hints;

impl Keeps<u32> for Hints {
    ghost holds = { λ _ _ _. Unit {0} };
}
