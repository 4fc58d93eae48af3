//! The roster as it lies in its cell.

use crate::roster::Roster;
use std::alloc::{AllocError, Global};
use std::marker::Model;
use ti_types::{Limits, TiError};

/// A roster in a box, so that moving it moves a pointer. Contracts see it as the roster.
#[derive(Drop)]
pub struct ParkedRoster {
    pub(crate) roster: Box<Roster>,
}

impl Model for ParkedRoster {
    ghost use Rattle.ti_roster.specs.Log.{Log};

    ghost Value = { Log };

    ghost view = { λ p. p.roster.value };
}

impl ParkedRoster {
    /// A roster of nobody. 110 OUT_OF_MEMORY if there is no memory for it.
    pub(crate) fn new(alloc: Global, limits: Limits) -> Result<ParkedRoster, TiError>
        ensures new { IfOk result (λ r. r ≡ record { items = []; limits = limits; user = None }) }
        ensures memory { IfErr result (λ e. e ≡ OutOfMemory) }
    {
        match Box::new(alloc, Roster::new(alloc, limits)?) {
            Ok(roster) => Ok(ParkedRoster { roster }),
            Err(refused) => Err(AllocError::from(refused).into()),
        }
    }

    /// How much has happened.
    #[inline(always)]
    pub(crate) fn len(&self) -> u64
        ensures len { result ≡ length self.now.items }
        ensures fits { result < 2 ^ 62 }
    {
        self.roster.len()
    }
}

ghost use Rattle.std.specs.Prelude.{◌≡◌, ◌<◌, ◌^◌, [], None, length, IfOk, IfErr};
ghost use Rattle.ti_types.specs.declared.error.TiError.TheVariants.{OutOfMemory};
