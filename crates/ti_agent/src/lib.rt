//! The JVM TI calls of an environment over running threads.
//!
//! This crate depends on three others. `ti_env` says what reaches a thread, and `ti_handshake` has the desks that the
//! environment keeps. `ti_vmop` stops threads, reads them and lets them go. The crates above may rely on this:
//!
//! - A call that reaches no thread is refused from what the environment itself keeps, and changes nothing.
//! - Any other call adds its one entry at the desk of its thread, and spends one call there. Its answer is the desk's.
//! - A trace of several threads stops each of them before it reads the first. It lets none go before it has read the last.
//! - Such a trace takes all of its memory before any stop.
//! - The same trace can be made step by step, without a wait. What comes of it is the same (`Gathering`).
//! - A call that takes no runtime never waits. If it finds its thread's cell in use, nothing changes.
//! - Desks come and go with their threads. What was spent at a desk goes with it.
//! - What an environment belongs to goes where the environment goes (`Home`). Its desks stay where they may be there.
#![tactic(auto)]

mod answers;
mod deadlines;
mod desks;
mod discarding;
mod ensure_resumed;
mod env;
mod free_desk;
mod gathering;
mod gathering_begins;
mod gathering_steps;
mod home;
mod list_tries;
mod lists;
mod manner;
mod own;
mod posts;
mod quiesce;
mod thread_counts;
mod traces;
mod tries;

pub use env::Env;
pub use free_desk::FreeDesk;
pub use gathering::{Gathering, Phase};
pub use home::{Alone, Home};
pub use manner::{Manner, Within};
pub use ti_types::StackInfo;
