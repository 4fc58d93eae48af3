//! Who is there: the list of a service's threads and environments, behind one word.
//!
//! A `RosterCell` has one place, in which the `Roster` lies, and one word: the lock bit, and how much has happened. Whoever
//! holds the cell has set the lock bit and taken the roster out. Each user has a seat, and knows what it has seen.
//!
//! This crate uses `atomic_table`, which has the word and the place, `ti_trail`, the desks of `ti_agent`, and the stops of
//! `ti_stops`. It promises:
//!
//! - There is one list of what happened, whatever the users do. It begins with all that a seat has seen (`specs/Rule`).
//! - A hold gives the roster with that list. What it adds is seen by every later hold.
//! - A thread's number is how many threads came before it. So no two are equal, and none comes again.
//! - The events of threads' lives can be read one by one, in the order in which they happened. The last 4,096 are kept.
//! - A thread that the roster starts is noted as started by the same hold, if and only if it has started; so for its end.
//! - What was asked about stops, and who waits, is what the list says. Each call that changed something is in it, with its
//!   caller.
//! - An environment that comes has a number that no other has. Nobody but its own seat takes its desks.
//! - A hold is stored: one that is let go of is a compile error.
//! - `hold_now` does not wait. `hold` sleeps after some looks, and `store` wakes it. `store_quietly` does not. No contract
//!   says either.
#![tactic(auto)]

mod coming;
mod events;
mod hold;
mod info;
mod lends;
mod life;
mod life_event;
mod life_modes;
mod newcomer;
mod parked;
mod roster;
mod roster_cell;
mod row;
mod seat;
mod shared_roster;
mod stage;
mod view;
mod word;

pub use coming::Coming;
pub use hold::RosterHold;
pub use info::ThreadInfo;
pub use life_event::{LifeAt, LifeEvent, LifeKind, NextLife, ToldLife};
pub use life_modes::LifeModes;
pub use newcomer::Newcomer;
pub use roster::Roster;
pub use roster_cell::RosterCell;
pub use seat::RosterSeat;
pub use shared_roster::SharedRoster;
pub use ti_stops::{Stop, StopCall, StopError, StopKind, StopReply};
pub use view::RosterView;
