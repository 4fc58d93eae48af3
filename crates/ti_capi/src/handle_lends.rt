//! What a handle lends. A handle of another kind lends nothing.
ghost use Rattle.std.specs.Prelude.{◌≡◌};
ghost use Rattle.std.specs.Option.{option_map};
ghost use Rattle.std.specs.Borrow.{LendsIf, sem};
ghost use Rattle.ti_service.specs.contracts.service.Service.{the_row as service_row};
ghost use Rattle.ti_capi.specs.contracts.handle.CqHandle.{the_row};
ghost use Rattle.ti_capi.specs.contracts.held.HeldDoor.{the_row as box_row};
ghost use Rattle.ti_capi.specs.contracts.held.HeldEnv.{the_row as env_row};
ghost use Rattle.ti_capi.specs.contracts.held.HeldThread.{the_row as thread_row};
ghost use Rattle.ti_capi.specs.Handles.{door_box_in, env_in, service_in, thread_in, watch_in, with_door_box, with_held_env, with_held_thread, with_service, with_watch};
ghost use Rattle.ti_wanted.specs.contracts.watch.Watch.{the_row as watch_row};

use crate::handle::CqHandle;
use crate::held::{DOOR, ENV, HeldDoor, HeldEnv, HeldThread, SERVICE, THREAD, WATCH};
use ti_service::Service;
use ti_wanted::Watch;

impl CqHandle {
    /// The handle of the service.
    pub(crate) fn service(&mut self) -> Option<&mut Service>
        ensures* writes_back { sem 𝓛 (LendsIf the_row service_row self.entry result (with_service self.old) self.old) }
        ensures value { option_map (λ r. r.now) result ≡ service_in self.old }
    {
        if self.kind == SERVICE {
            self.place.as_mut().service()
        } else {
            None
        }
    }

    /// The thread with its service.
    pub(crate) fn held_thread(&mut self) -> Option<&mut HeldThread>
        ensures* writes_back { sem 𝓛 (LendsIf the_row thread_row self.entry result (with_held_thread self.old) self.old) }
        ensures value { option_map (λ r. r.now) result ≡ thread_in self.old }
    {
        if self.kind == THREAD {
            self.place.as_mut().thread()
        } else {
            None
        }
    }

    /// The environment with its trace.
    pub(crate) fn held_env(&mut self) -> Option<&mut HeldEnv>
        ensures* writes_back { sem 𝓛 (LendsIf the_row env_row self.entry result (with_held_env self.old) self.old) }
        ensures value { option_map (λ r. r.now) result ≡ env_in self.old }
    {
        if self.kind == ENV {
            self.place.as_mut().env()
        } else {
            None
        }
    }

    /// The door with its box.
    pub(crate) fn held_door(&mut self) -> Option<&mut HeldDoor>
        ensures* writes_back { sem 𝓛 (LendsIf the_row box_row self.entry result (with_door_box self.old) self.old) }
        ensures value { option_map (λ r. r.now) result ≡ door_box_in self.old }
    {
        if self.kind == DOOR {
            self.place.as_mut().door()
        } else {
            None
        }
    }

    /// The watch.
    pub(crate) fn watch(&mut self) -> Option<&mut Watch>
        ensures* writes_back { sem 𝓛 (LendsIf the_row watch_row self.entry result (with_watch self.old) self.old) }
        ensures value { option_map (λ r. r.now) result ≡ watch_in self.old }
    {
        if self.kind == WATCH {
            self.place.as_mut().watch()
        } else {
            None
        }
    }
}

/// Binds what lies behind a full handle: the agent of an environment, a thread or a door. Behind another one there is nothing, and
/// the function for C that asks ends with the code `CQ_MISUSED`.
macro_rules! behind {
    ($what:ident in $held:expr) => {
        let Some(held) = $held else {
            return crate::codes::CQ_MISUSED;
        };
        let Some($what) = &mut held.$what else {
            return crate::codes::CQ_MISUSED;
        };
    };
}

/// Binds the service behind a full handle, by which an empty handle is to be filled. With another handle in the place of one of them
/// the function for C that asks ends with the code `CQ_MISUSED`.
macro_rules! makes {
    ($service:ident for $handle:ident) => {
        let Some($service) = $service.service() else {
            return crate::codes::CQ_MISUSED;
        };
        if !$handle.is_empty() {
            return crate::codes::CQ_MISUSED;
        }
    };
}

pub(crate) use behind;
pub(crate) use makes;
