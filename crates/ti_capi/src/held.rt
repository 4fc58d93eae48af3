//! What lies behind a handle.

use crate::any_door::AnyDoor;
use crate::held_trace::HeldTrace;
use ti_service::{Agent, Service};
use ti_thread::HostThread;
use ti_types::{Frame, StackInfo};
use ti_wanted::Watch;

/// The kind of a handle of the service.
pub(crate) const SERVICE: u32 = 1;
/// The kind of a handle of a thread.
pub(crate) const THREAD: u32 = 2;
/// The kind of a handle of an environment.
pub(crate) const ENV: u32 = 3;
/// The kind of a handle of a door.
pub(crate) const DOOR: u32 = 4;
/// The kind of a handle of a watch.
pub(crate) const WATCH: u32 = 5;

/// What a handle holds. Each variant has a kind of its own.
#[derive(Drop)]
pub enum Held {
    Service(Service),
    Thread(HeldThread),
    Env(HeldEnv),
    Door(HeldDoor),
    Watch(Watch),
}

/// A thread, and a handle of its service, by which it is given back.
#[derive(Drop)]
pub struct HeldThread {
    pub service: Service,
    /// `None` only while a call works on it.
    pub thread: Option<HostThread>,
    /// Room for the frames that the runtime gives.
    pub frames: Vec<Frame>,
}

/// An environment.
#[derive(Drop)]
pub struct HeldEnv {
    /// `None` while a call works on it, and while it makes a trace step by step.
    pub agent: Option<Agent>,
    /// The trace that it makes. It has the agent.
    pub trace: Option<HeldTrace>,
    /// What the last trace tells. `None` if there was none, or it was given up.
    pub stacks: Option<Vec<StackInfo>>,
}

/// A door.
#[derive(Drop)]
pub struct HeldDoor {
    /// `None` only while a call works on it.
    pub door: Option<AnyDoor>,
}

impl Held {
    /// The number of its kind.
    pub(crate) fn kind(&self) -> u32
        ensures { result ≡ kind_of self.now }
    {
        match self {
            Held::Service(_) => SERVICE,
            Held::Thread(_) => THREAD,
            Held::Env(_) => ENV,
            Held::Door(_) => DOOR,
            Held::Watch(_) => WATCH,
        }
    }
}

/// Whether a number is that of a kind.
pub(crate) fn is_kind(number: u32) -> bool
    ensures { result ≡ is_kind number }
{
    number == SERVICE || number == THREAD || number == ENV || number == DOOR || number == WATCH
}

ghost use Rattle.std.specs.Prelude.{◌≡◌};
ghost use Rattle.ti_capi.specs.Kinds.{is_kind, kind_of};
