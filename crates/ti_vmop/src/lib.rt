//! Global operations: an environment stops threads, reads them while they are standing, and lets them go.
//!
//! A thread is standing for an environment when that environment's stop is in force and the thread does not run.
//!
//! This crate uses `ti_handshake`, whose desks these are, and `ti_env`, which counts what the environment may spend. It
//! promises:
//!
//! - `stop_all` answers when each listed thread has been seen standing. If a budget does not suffice, it stops none.
//! - A desk sees its thread standing after some prefix of the history. Until the environment lets the thread go, all that
//!   the desk sees begins with that prefix. After it there is no entry of the thread's own (`desks_stay`).
//! - A read shows the mode of that prefix, and its frames after the pops since (`fronts_tell` of `ti_replay`).
//! - Only `Standing::go` makes a `Round`, and a `Standing` has to be spent by it, at the cells where it was made.
//! - `stop_one_now` and its like do one thing at one thread, and never wait. If the thread's cell is in use, nothing changes.
//! - No call takes memory.
//!
//! It does not promise that `stop_all` answers: it waits for each thread to hand over.
#![tactic(auto)]

mod global_stops;
mod laws;
mod one_thread;
mod one_thread_tries;

pub use global_stops::{Round, Standing, VmTurn, stop_all};
pub use laws::desks_stay;
pub use one_thread_tries::{go_again_now, go_one_now, read_one_now, see_one_now, stop_one_now};
