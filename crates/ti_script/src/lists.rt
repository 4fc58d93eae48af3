//! Reads the operations of one thread, and the calls of one agent.

use crate::agent_call::call_in;
use crate::located::LocatedFault;
use crate::names::Cast;
use crate::operation::operation_in;
use serde_json::Value;
use std::alloc::Global;
use ti_live::{AgentCall, Listed};
use ti_types::{EnvNo, Event, ThreadNo};

/// The list of what these values mean. Each is read with its item's number, from the first on, up to the first fault.
macro_rules! list_of {
    ($alloc:ident, $values:ident, |$item:ident from $first:expr, $value:ident| $read:expr) => {{
        let mut list = Listed::with_room($alloc, $values.len())?;
        let mut $item = $first;
        for $value in $values {
            let one = $read?;
            list.push(one)?;
            $item += 1;
        }
        Ok(list)
    }};
}

pub(crate) use list_of;

/// The operations of one thread. Their items are numbered from `first` on.
pub(crate) fn operations_in(
    alloc: Global,
    cast: &Cast,
    thread: ThreadNo,
    first: u32,
    values: &[Value],
) -> Result<Listed<Event>, LocatedFault>
    requires { first + length values.now < 2 ^ 32 }
    ensures { Gives (λ events. events) result (operations_in cast.now thread first (map view values.now)) }
{
    list_of!(alloc, values, |item from first, value| operation_in(cast, item, thread, value))
}

/// The calls of one agent. Their items are numbered from `first` on.
pub(crate) fn calls_of_one(
    alloc: Global,
    cast: &Cast,
    agent: EnvNo,
    first: u32,
    values: &[Value],
) -> Result<Listed<AgentCall>, LocatedFault>
    requires { first + length values.now < 2 ^ 32 }
    ensures { Gives (λ calls. calls) result (calls_of_one cast.now agent first (map view values.now)) }
{
    list_of!(alloc, values, |item from first, value| call_in(alloc, cast, item, agent, value))
}

ghost use Rattle.std.specs.Prelude.{◌+◌, ◌<◌, ◌^◌, length, map};
ghost use Rattle.serde_json.specs.View.{view};
ghost use Rattle.ti_script.specs.Faults.{Gives};
ghost use Rattle.ti_script.specs.Lives.{operations_in, calls_of_one};
