//! Live runs: each thread and each agent of a script has a thread of the operating system of its own.
//!
//! This crate depends on three others. A walk uses the typed hand-overs of `ti_handshake`. An agent's calls are made by the
//! environments of `ti_agent`. And `ti_report` says when a report fits its script. For every schedule, users may rely on
//! this:
//!
//! - A report that is given fits its script. Each reply is what the thread's own history replies to that call. Every history
//!   is legal, and each thread's own entries are its walk's operations.
//! - All seats are back before a cell is closed. So its history has the entries of all users, and no other.
//!
//! Nothing is promised about when a run ends, or that it ends. A thread that is left suspended and wants to return waits for
//! ever.
#![tactic(auto)]

mod activities;
mod agent_calls;
mod cells;
mod closed_cells;
mod fault;
mod gate;
mod live_run;
mod thread_walk;

pub use fault::RunFault;
pub use gate::{Gate, Open};
pub use live_run::run_live;
