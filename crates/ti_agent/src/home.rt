//! What an environment belongs to.

use crate::env::Env;
use std::alloc::Global;
use ti_chunked::Chunked;
use ti_env::EnvState;
use ti_types::{Caps, EnvNo, Limits};

/// What an environment belongs to: a service, or nothing (`Alone`). It goes where the environment goes, so whoever puts one
/// environment in the place of another moves both.
///
/// The environment always belongs there: `about` holds of its number and its limits, and `holds` of each of its desks.
pub trait Home: Drop {
    ghost use Rattle.ti_types.specs.declared.caps.Caps.{Caps as CapsOf};
    ghost use Rattle.ti_types.specs.declared.limits.Limits.{Limits};
    ghost use Rattle.ti_types.specs.declared.numbers.EnvNo.{EnvNo};
    ghost use Rattle.ti_agent.specs.Spots.{Spot};

    /// Whether it may be the home of an environment of this number, under these limits.
    ghost about: { Self → EnvNo → Limits → Type 0 };

    /// Whether a desk of an environment there may be at this cell, at a thread of this number.
    ghost holds: { Self → Spot → Type 0 };

    /// The capabilities that environments there can have.
    ghost potential: { Self → CapsOf };

    /// The capabilities that environments there can have (JVM TI 11, GetPotentialCapabilities).
    fn potential(&self) -> Caps
        ensures can_be_had { result ≡ potential self.now };
}

/// The home of an environment that belongs to nothing.
#[derive(Drop)]
pub struct Alone;

impl Home for Alone {
    ghost use Rattle.ti_agent.specs.Env.{potential_caps};

    ghost about = { λ h e l. Unit {0} };

    ghost holds = { λ h s. Unit {0} };

    ghost potential = { λ h. potential_caps };

    fn potential(&self) -> Caps {
        Caps::CAN_SUSPEND.add(Caps::CAN_POP_FRAME)
    }
}

impl<H: Home> Env<H> {
    /// Makes an environment that belongs there, has done nothing, and is at no thread yet (this profile). It takes no memory.
    pub fn at_home(alloc: Global, home: H, env: EnvNo, limits: Limits) -> Env<H>
        requires about { H.about home env limits }
        ensures { result ≡ record { home = home; env = record { env = env; state = env_at_no_thread limits; desks = [] } } }
    {
        Env {
            home,
            env,
            state: EnvState::at_no_thread(alloc, limits),
            desks: Chunked::new(alloc),
        }
    }

    /// Takes the environment from its home. It gives both: what the environment belonged to, and the environment as it was,
    /// which belongs to nothing now.
    pub fn leave_home(self) -> (H, Env)
        ensures home { result.0 ≡ self.home }
        ensures env { result.1.env ≡ self.env }
        ensures was { IsAtHome H.about H.holds self.home self.env }
    {
        let Env {
            home,
            env,
            state,
            desks,
        } = self;
        let env = Env {
            home: Alone,
            env,
            state,
            desks,
        };
        (home, env)
    }

    /// Gives a home to an environment that belongs to nothing. The environment and each of its desks may be there.
    pub fn come_home(home: H, env: Env) -> Env<H>
        requires { IsAtHome H.about H.holds home env.env }
        ensures { result ≡ record { home = home; env = env.env } }
    {
        let Env {
            home: _,
            env,
            state,
            desks,
        } = env;
        Env {
            home,
            env,
            state,
            desks,
        }
    }

    /// What is always true of it: the environment and each of its desks may be in its home.
    pub fn facts(&self)
        ensures { IsAtHome H.about H.holds self.now.home self.now.env }
    {
        let _ = &self.desks;
    }
}

ghost use Rattle.std.specs.Prelude.{◌≡◌, []};
ghost use Rattle.ti_env.specs.Env.{env_at_no_thread};
ghost use Rattle.ti_agent.specs.Home.{IsAtHome};
