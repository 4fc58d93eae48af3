//! A runtime's classes: how it defines them, and how its agents reach them.

use crate::service::Service;
use ti_methods::{ClassError, ClassInfo, Classes, Defined};

impl Service {
    /// Defines a class with its methods (this profile). From now on every agent is told of it. The class has the next number,
    /// and its methods have the next numbers of methods. They are never used again, and what they name never changes. A
    /// runtime that learns of a method late defines one more class with the same signature.
    ///
    /// It neither waits nor holds the roster. Nothing changes but which classes the handle has seen. The class comes back
    /// with an error:
    ///
    /// - 216 `Full` (this profile): there would be 2^32 classes, or 2^32 methods.
    /// - 110 OUT_OF_MEMORY: there is no memory for it.
    /// - 215 `Busy` (this profile): other definitions were in the way. Try again.
    pub fn define_class(&mut self, class: ClassInfo) -> Result<Defined, (ClassError, ClassInfo)>
        ensures rest { self.new ≡ with_classes self.old self.new.cell.classes }
        ensures book { self.new.cell.classes.book ≡ self.old.cell.classes.book }
        ensures grows { IsPrefix self.old.cell.classes.seen self.new.cell.classes.seen }
        ensures defined { IfOk result (λ d. IsDefined self.old.cell.classes self.new.cell.classes class d) }
        ensures refused { IfErr result (λ r. RefusesClass self.new.cell.classes.seen class r.0) }
        ensures back { IfErr result (λ r. r.1 ≡ class) }
    {
        self.classes.define_class(class)
    }

    /// The handle's classes: what is asked of them is asked of the service's.
    pub(crate) fn classes(&mut self) -> &mut Classes
        ensures* writes_back { sem 𝓛 (Lends the_row classes_row self.entry result (with_classes self.old)) }
        ensures value { result.now ≡ self.old.cell.classes }
    {
        &mut self.classes
    }
}

ghost use Rattle.std.specs.Prelude.{◌≡◌, IfOk, IfErr};
ghost use Rattle.std.specs.Borrow.{Lends, sem};
ghost use mathlib.Core.List.{IsPrefix};
ghost use Rattle.ti_methods.specs.Classes.{IsDefined, RefusesClass};
ghost use Rattle.ti_methods.specs.contracts.classes.Classes.{the_row as classes_row};
ghost use Rattle.ti_service.specs.contracts.service.Service.{the_row};
ghost use Rattle.ti_service.specs.Service.{with_classes};
