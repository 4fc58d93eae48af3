//! The handle.
ghost use Rattle.std.specs.Prelude.{◌≡◌, ◌==◌, is_some, None, Some};
ghost use Rattle.ti_capi.specs.Handles.{service_in, watch_in};

use crate::held::{Held, SERVICE, WATCH, is_kind};
use crate::held_at::HeldAt;
use crate::parts::Parts;
use std::alloc::Global;
use std::marker::Model;
use std::mem::replace;

/// A handle, or nothing: memory of the caller's, which starts as zeros.
#[repr(C)]
#[derive(Drop)]
pub struct CqHandle {
    /// The number of the kind of what it holds, and the number of no kind if it holds nothing.
    pub(crate) kind: u32,
    pub(crate) place: HeldAt,
}

/// A handle of the service.
pub type CqService = CqHandle;
/// A handle of a thread.
pub type CqThread = CqHandle;
/// A handle of an environment.
pub type CqEnv = CqHandle;
/// A handle of a door.
pub type CqDoor = CqHandle;
/// A handle of a watch.
pub type CqWatch = CqHandle;

impl Model for CqHandle {
    ghost use Rattle.ti_capi.specs.Handles.{Handle};
    ghost use Rattle.ti_capi.specs.Kinds.{IsKindOf};

    ghost Value = { Handle };

    ghost view = { λ h. record { kind = h.kind; place = h.place } };

    ghost inverse = { λ s. record { kind = s.kind; place = s.place } };

    ghost invariant = { λ h. IsKindOf h.kind h.place.held };
}

impl CqHandle {
    fn none(alloc: Global) -> CqHandle
        ensures kind { result.kind ≡ 0 }
        ensures held { result.place.held ≡ None }
    {
        CqHandle {
            kind: 0,
            place: HeldAt::none(alloc),
        }
    }

    fn of(held: Box<Held>) -> CqHandle
        ensures { result.place.held ≡ Some held.value }
    {
        CqHandle {
            kind: held.kind(),
            place: HeldAt::of(Parts::of(held)),
        }
    }

    /// Whether it is as it was at first.
    pub(crate) fn is_empty(&self) -> bool
        ensures { result ≡ (self.now.kind == 0) }
    {
        self.kind == 0
    }

    /// Whether it is a handle of the service.
    pub(crate) fn is_service(&self) -> bool
        ensures { result ≡ is_some (service_in self.now) }
    {
        self.kind == SERVICE
    }

    /// Whether it is a handle of a watch.
    pub(crate) fn is_watch(&self) -> bool
        ensures { result ≡ is_some (watch_in self.now) }
    {
        self.kind == WATCH
    }

    /// Frees the box, if there is one. It is empty then.
    pub(crate) fn clear(&mut self, alloc: Global)
        ensures kind { self.new.kind ≡ 0 }
        ensures held { self.new.place.held ≡ None }
    {
        let CqHandle { kind, place } = replace(self, CqHandle::none(alloc));
        if is_kind(kind) {
            let _ = place.into_parts().into_box();
        }
    }

    /// The box into it.
    pub(crate) fn put(&mut self, held: Box<Held>)
        ensures { self.new.place.held ≡ Some held.value }
    {
        let _ = replace(self, CqHandle::of(held));
    }
}
