//! Runs over a shared cell whose contracts say what its history is at the end, for every schedule. They also test what no clause
//! says: that each hold goes through, and that a poll is clear if nobody calls for the thread.
//!
//! Nothing depends on this crate.
#![tactic(auto)]

#[cfg(test)]
mod cells;
#[cfg(test)]
mod clear_polls;
