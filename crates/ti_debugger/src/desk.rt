//! The agent, with the threads that it watches.

use crate::about::About;
use crate::asked::Asked;
use crate::crowd::Crowd;
use crate::halted::Stops;
use crate::meeting::enable_events;
use crate::objects::Objects;
use std::alloc::Global;
use ti_service::{Agent, Service, ServiceTries};
use ti_types::{Caps, TiError};

/// The agent, with the threads that it watches, and what it tells of the runtime.
#[derive(Drop)]
pub(crate) struct Desk {
    pub(crate) alloc: Global,
    pub(crate) agent: Agent,
    pub(crate) about: About,
    pub(crate) crowd: Crowd,
    /// When threads are met next.
    pub(crate) next_meeting: u64,
    /// Ends of threads were lost, so that each thread has to be looked at.
    pub(crate) lost: bool,
    /// The number of the class that is told next.
    pub(crate) next_class: u64,
    /// As many classes were told as are told at once, so that more may be there.
    pub(crate) more_classes: bool,
    /// How many times the agent has resumed a thread, or let it go on that had stopped. It stays at 2^64 - 1.
    pub(crate) resumptions: u64,
    pub(crate) stops: Stops,
    /// The runtime waits for its first debugger.
    pub(crate) starts: bool,
    /// The runtime tells variables.
    pub(crate) tells: bool,
    pub(crate) asked: Asked,
    pub(crate) objects: Objects,
}

impl Desk {
    /// An agent that watches nobody yet.
    pub(crate) fn new(alloc: Global, agent: Agent, about: About, now: u64) -> Desk
        ensures free { result.crowd.list.items ≡ [] }
        ensures resumptions { result.resumptions ≡ 0 }
        ensures about { result.about ≡ about }
        ensures starts { result.starts ≡ false }
        ensures variables { (result.tells ≡ false) × (result.asked ≡ Nothing) × (result.objects.list.items ≡ []) × (result.objects.numbers ≡ 0) }
    {
        let mut agent = agent;
        let _it_can_be_had = agent.add_capabilities(Caps::CAN_SUSPEND);
        let _later_if_busy = enable_events(&mut agent);
        Desk {
            alloc,
            agent,
            about,
            crowd: Crowd::new(alloc),
            next_meeting: now,
            lost: false,
            next_class: 0,
            more_classes: false,
            resumptions: 0,
            stops: Stops::new(alloc),
            starts: false,
            tells: false,
            asked: Asked::Nothing,
            objects: Objects::new(alloc),
        }
    }

    /// Nothing is asked any more, and what was told of values is gone.
    pub(crate) fn forget_variables(&mut self)
        ensures asked { self.new.asked ≡ Nothing }
        ensures objects { (self.new.objects.list.items ≡ []) × (self.new.objects.numbers ≡ 0) }
        ensures rest { self.new ≡ record self.old { asked = self.new.asked; objects = self.new.objects } }
    {
        self.asked = Asked::Nothing;
        self.objects = Objects::new(self.alloc);
    }

    /// Frees the texts and tables that were told of a thread. All others stay.
    pub(crate) fn forget(&mut self, thread: u32)
        ensures forgets { Forgets thread self.old self.new }
        ensures rest { Works self.old self.new }
    {
        self.objects.forget(thread);
    }

    /// Disposes of the agent. The errors are those of `ServiceTries::dispose_now`. Then the threads are watched as before.
    pub(crate) fn dispose(self) -> Result<Service, (TiError, Desk)>
        ensures disposed { IfOk result (λ s. Disposes (state_of self.agent) s) }
        ensures refused { IfErr result (λ r. StaysOn (state_of self.agent) (state_of r.1.agent) r.0) }
        ensures events { IfErr result (λ r. r.1.agent.home.events ≡ self.agent.home.events) }
        ensures rest { IfErr result (λ r. r.1 ≡ record self { agent = r.1.agent }) }
    {
        match self.agent.dispose_now(self.alloc) {
            Ok(service) => Ok(service),
            Err((error, agent)) => Err((error, Desk { agent, ..self })),
        }
    }
}

ghost use Rattle.std.specs.Prelude.{◌≡◌, [], false, IfOk, IfErr};
ghost use Rattle.ti_debugger.specs.declared.asked.Asked.TheVariants.{Nothing};
ghost use Rattle.ti_service.specs.Leaving.{Disposes, StaysOn};
ghost use Rattle.ti_service.specs.Memberships.{state_of};
ghost use Rattle.ti_debugger.specs.Desks.{Works};
ghost use Rattle.ti_debugger.specs.Serving.{Forgets};
