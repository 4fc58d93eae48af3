//! All threads and environments in one core, driven by one event after another.
//!
//! This crate uses `ti_slot` (one thread's state, waiting calls and history), `ti_env` (capabilities, budgets and words of
//! an environment), and the definitions of `ti_replay`. A thread that runs has its frames and its log beside its slot. A
//! hand-over and an end move them in.
//!
//! It promises, for every list of events, that the outcome of each event is what the definitions say of it:
//!
//! - `Core::step`, from a core that refines for the events so far.
//! - `Core::take`, for calls that waited.
//! - The list calls (`suspend_list` and its kin), for one event at each thread of a list.
//! - `Core::run`, for a whole list of events.
//!
//! `laws` says what follows for the outcomes: noninterference, stored words, one state under a stop.
#![tactic(auto)]

mod engine;
mod events;
pub mod laws;
mod lists;
mod outcomes;
mod thread;

pub use engine::Core;
