//! When a report of a live run fits its script, and `fits`, which tests it.
//!
//! A report has each agent's replies and each thread's history. It fits if all of this is so:
//!
//! - Every history is legal.
//! - Each agent's calls, with their replies, use up in order the entries that the agent left in the histories. Each call has
//!   the reply of its own entry.
//! - Each thread's own entries and refusals are those of its walk.
//!
//! The definitions are `specs/Fits`, over `specs/Doings`, `specs/Told`, `specs/Walks` and `specs/Refusals`. The test goes
//! over each history five times, and over each reply and each operation once.
//!
//! This crate depends on `ti_types`, on `ti_replay` for what a history replies, and on `ti_live` for the values. Users may
//! rely on this: `fits` gives true if, and only if, the report fits. That is so for any script and any report, wherever they
//! come from.
#![tactic(auto)]

mod account;
mod agents;
mod book;
mod events;
mod list_codes;
mod one_call;
mod packed_entry;
mod packed_reply;
mod refusals;
mod same;
mod stacks;
mod walks;
mod whole;
mod whole_report;

pub use whole_report::fits;
