//! The classes that are told when they are defined.

use crate::desk::Desk;
use ti_service::{ClassCalls, ClassNo};

/// A class that was defined, and is to be told.
#[derive(Drop)]
pub(crate) struct Prepared {
    pub(crate) class: u32,
    pub(crate) signature: String,
}

impl Desk {
    /// The class that is told next. `None` if it is not defined, or cannot be told now (110, 215).
    pub(crate) fn next_prepared(&mut self) -> Option<Prepared>
        ensures rest { self.new ≡ record self.old { agent = self.new.agent } }
        ensures known { IsPrefix (classes_of self.old.agent) (classes_of self.new.agent) }
        ensures next { IfSome result (λ p. p.class ≡ self.old.next_class) }
        ensures signature { IfSome result (λ p. IsSignature (classes_of self.new.agent) (record { 0 = p.class }) (string_bytes p.signature)) }
    {
        let class = u32::try_from(self.next_class).ok()?;
        let told = self.agent.get_class_signature(self.alloc, ClassNo(class));
        match told {
            Ok(signature) => Some(Prepared { class, signature }),
            Err(_) => None,
        }
    }
}

ghost use Rattle.std.specs.Prelude.{◌≡◌, string_bytes, IfSome};
ghost use mathlib.Core.List.{IsPrefix};
ghost use Rattle.ti_methods.specs.Classes.{IsSignature};
ghost use Rattle.ti_service.specs.Classes.{classes_of};
