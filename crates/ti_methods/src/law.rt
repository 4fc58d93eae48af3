//! The list of all classes, which exists in proofs alone, and the word that all handles of a table share.

use crate::info::ClassInfo;
use boxcar::tag::Names;
use logbook::{Gain, Plain, Play, Rule, Seen, Word};

/// The rule of the list: the word has the number of classes and of methods.
pub struct Law;

impl Rule<ClassInfo, u64> for Law {
    ghost use Rattle.std.specs.Prelude.{[]};
    ghost use base.Fml.{ftrue};
    ghost use Rattle.ti_methods.specs.Rules.{IsKept};

    ghost holds = { λ cells log. IsKept cells log };

    ghost first = { [] };

    ghost hinted = { λ n log. Unit {0} };

    ghost shows = { λ log. [] };

    ghost keeps = { λ names log. ftrue };

    ghost moves = { λ ask before after answer. Unit {0} };
}

/// Callers trade nothing.
pub struct Nothing;

impl Gain<ClassInfo, u64> for Nothing {
    ghost use base.Fml.{ftrue};

    ghost after = { λ names about answer. ftrue };
}

/// A step that looks.
pub struct Look;

impl Play<ClassInfo, u64> for Look {
    ghost use Rattle.ti_methods.specs.Rules.{Looks};

    ghost then = { Looks };
}

/// A step that adds a class.
pub struct Add;

impl Play<ClassInfo, u64> for Add {
    ghost use Rattle.ti_methods.specs.Rules.{Adds};

    ghost then = { Adds };
}

impl Plain<ClassInfo, ClassInfo, u64> for Add {
    ghost use Rattle.std.specs.Prelude.{None};

    ghost ask = { λ class. class };

    ghost state = { λ class. None };
}

/// How many classes and methods there are: in the high and in the low half.
pub(crate) type Count = Word<ClassInfo, u64, Law>;

/// The classes that were seen.
pub(crate) type SeenClasses = Seen<ClassInfo, u64, Law>;

/// By which numbers a clause tells one table from another.
pub struct BookNumbers;

impl Names<SeenClasses> for BookNumbers {
    ghost use Rattle.ti_methods.specs.Rules.{numbers_of};

    ghost numbers = { λ s. numbers_of s.book };
}
