//! Stops: where environments want threads to stop, and which threads wait for them.
//!
//! An environment asks for breakpoints, single steps and pops of frames (JVM TI 11). A runtime says where its threads come to.
//! A thread that reaches a place at which an environment stops it waits, until each such environment lets it go on. `Stops` has
//! all of this, and one call for it, `Stops::call`.
//!
//! This crate uses the values of `ti_types` alone. It has no locks and no threads. It promises:
//!
//! - What a call gives is `outcome`, and what it changes is `after` (`specs/Stops`). A call that tells no news changes nothing,
//!   and neither does one that is refused.
//! - No environment's call changes what another one asked for, or lets a thread go on that waits for another one. What an
//!   environment is told depends on its own calls and on where threads come, and not on other environments (`specs/Shares`).
#![tactic(auto)]

mod call;
mod error;
mod kind;
mod laws;
mod lists;
mod stop;
mod stops;

pub use call::{StopCall, StopReply};
pub use error::StopError;
pub use kind::StopKind;
pub use laws::{
    nobody_else_lets_go, others_change_nothing, shares_are_own, threads_wait_until_ended,
};
pub use stop::Stop;
pub use stops::Stops;
