//! The box of what a handle holds, as a pointer that C keeps.
ghost use Rattle.std.specs.Prelude.{◌≡◌, Option, Some, None};
ghost use Rattle.ti_capi.specs.declared.held.Held.{Held as HeldValue};
ghost use Rattle.ti_capi.specs.Owning.{held_coded, held_owns};

use crate::held::Held;
use crate::parts::Parts;
use std::alloc::Global;
use std::marker::Model;

/// The box, or nothing.
#[derive(Drop)]
#[repr(C)]
pub struct HeldAt {
    pub(crate) at: *mut u8,
    pub(crate) alloc: Global,
    pub ghost held: { Option HeldValue } by { held_coded },
}

impl Model for HeldAt {
    ghost also_owns = { λ p. held_owns p.alloc p.at p.held };
}

impl HeldAt {
    /// Nothing.
    pub fn none(alloc: Global) -> HeldAt
        ensures { result.held ≡ None }
    {
        HeldAt {
            at: std::ptr::null_mut(),
            alloc,
        }
    }

    /// The pointer of a box.
    pub fn of(parts: Parts<Held, Global>) -> HeldAt
        ensures { result.held ≡ Some parts.value }
    {
        let Parts { ptr, alloc } = parts;
        HeldAt {
            at: ptr as *mut u8,
            alloc,
        }
    }

    /// The box again.
    pub fn into_parts(self) -> Parts<Held, Global>
        requires { (x : HeldValue) × (self.held ≡ Some x) }
        ensures { self.held ≡ Some result.value }
    {
        let HeldAt { at, alloc } = self;
        Parts {
            ptr: at as *mut Held,
            alloc,
        }
    }
}

unsafe impl Send for HeldAt {}
