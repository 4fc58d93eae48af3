//! A thread in any state, for a caller that cannot know the state when it compiles.
//!
//! `ti_handshake` has a type for each state, so that a program in Rattle cannot even ask a thread in native code to poll. A
//! caller in another language has one handle of a thread all the time. This crate has one type, `AnyThread`, whose calls are
//! refused if the thread is in no state for them. No call waits. It promises:
//!
//! - A call that fits the thread's state is that state's own call, with its clauses.
//! - A call that does not fit it, or that is refused, changes nothing.
//! - `HostThread`, which is such a thread and a count, tells its runtime how many of its frames were popped. Until the runtime
//!   has taken note of them, it may not set all frames.
#![tactic(auto)]

mod any_thread;
mod changes;
mod host_thread;
pub mod laws;
mod turn;
mod turns;

pub use any_thread::{AnyThread, TurnOutcome};
pub use host_thread::{HostThread, Pops};
pub use turn::Turn;
