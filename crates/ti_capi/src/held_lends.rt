//! What a box lends, and what is in it.
ghost use Rattle.std.specs.Prelude.{◌≡◌, Some};
ghost use Rattle.std.specs.Option.{option_map};
ghost use Rattle.std.specs.Borrow.{Lends, LendsIf, sem};
ghost use Rattle.ti_service.specs.contracts.service.Service.{the_row as service_row};
ghost use Rattle.ti_capi.specs.contracts.held.Held.{the_row as held_row};
ghost use Rattle.ti_capi.specs.contracts.held.HeldDoor.{the_row as box_row};
ghost use Rattle.ti_capi.specs.contracts.held.HeldEnv.{the_row as env_row};
ghost use Rattle.ti_capi.specs.contracts.held.HeldThread.{the_row as thread_row};
ghost use Rattle.ti_capi.specs.contracts.held_at.HeldAt.{the_row as at_row};
ghost use Rattle.ti_capi.specs.declared.held.Held.{Held as HeldValue};
ghost use Rattle.ti_capi.specs.declared.held.Held.TheVariants.{Door as OfDoor, Env, Service as OfService, Thread, Watch as OfWatch};
ghost use Rattle.ti_capi.specs.Handles.{door_box_of, env_of, holding, service_of, thread_of, watch_of};
ghost use Rattle.ti_wanted.specs.contracts.watch.Watch.{the_row as watch_row};

use crate::held::{Held, HeldDoor, HeldEnv, HeldThread};
use crate::held_at::HeldAt;
use ti_service::Service;
use ti_wanted::Watch;

impl HeldAt {
    /// What is in the box.
    pub fn as_mut(&mut self) -> &mut Held
        requires { (x : HeldValue) × (self.old.held ≡ Some x) }
        ensures* writes_back { sem 𝓛 (Lends at_row held_row self.entry result (holding self.old)) }
        ensures value { self.old.held ≡ Some result.now }
    {
        unsafe { &mut *(self.at as *mut Held) }
    }
}

impl Held {
    /// The handle of the service, if it is one.
    pub(crate) fn service(&mut self) -> Option<&mut Service>
        ensures* writes_back { sem 𝓛 (LendsIf held_row service_row self.entry result OfService self.old) }
        ensures value { option_map (λ r. r.now) result ≡ service_of (Some self.old) }
    {
        match self {
            Held::Service(service) => Some(service),
            _ => None,
        }
    }

    /// The thread with its service, if it is one.
    pub(crate) fn thread(&mut self) -> Option<&mut HeldThread>
        ensures* writes_back { sem 𝓛 (LendsIf held_row thread_row self.entry result Thread self.old) }
        ensures value { option_map (λ r. r.now) result ≡ thread_of (Some self.old) }
    {
        match self {
            Held::Thread(thread) => Some(thread),
            _ => None,
        }
    }

    /// The environment with its trace, if it is one.
    pub(crate) fn env(&mut self) -> Option<&mut HeldEnv>
        ensures* writes_back { sem 𝓛 (LendsIf held_row env_row self.entry result Env self.old) }
        ensures value { option_map (λ r. r.now) result ≡ env_of (Some self.old) }
    {
        match self {
            Held::Env(env) => Some(env),
            _ => None,
        }
    }

    /// The door with its box, if it is one.
    pub(crate) fn door(&mut self) -> Option<&mut HeldDoor>
        ensures* writes_back { sem 𝓛 (LendsIf held_row box_row self.entry result OfDoor self.old) }
        ensures value { option_map (λ r. r.now) result ≡ door_box_of (Some self.old) }
    {
        match self {
            Held::Door(held) => Some(held),
            _ => None,
        }
    }

    /// The watch, if it is one.
    pub(crate) fn watch(&mut self) -> Option<&mut Watch>
        ensures* writes_back { sem 𝓛 (LendsIf held_row watch_row self.entry result OfWatch self.old) }
        ensures value { option_map (λ r. r.now) result ≡ watch_of (Some self.old) }
    {
        match self {
            Held::Watch(watch) => Some(watch),
            _ => None,
        }
    }
}
