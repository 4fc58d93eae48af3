//! The service for C, C++ and every language that calls C: the functions of `c/cebdyraq.h`.
//!
//! A handle is a struct of the caller's own, which starts as zeros and is then written by this library alone. No function
//! waits. One that finds a thread's cell or the list of threads in use answers 215, and nothing has changed.
//!
//! It promises, of each function and under the duties that the header names:
//!
//! - Its code, the numbers and the frames that it writes are those of the call behind it, whose clauses hold.
//! - If a handle is empty or of another kind, the code is 304. Then nothing changes, and nothing is written.
//! - While an environment makes a trace step by step, its other calls have the code 304 too, and change nothing.
#![tactic(auto)]

mod any_door;
mod class_defines;
mod class_parts;
mod class_reads;
mod class_values;
mod class_writes;
mod codes;
mod door_questions;
mod doors;
mod env_collects;
mod env_events;
mod env_list;
mod env_own;
mod env_posts;
mod env_resumed;
mod env_stops;
mod env_traces;
mod for_c;
mod handle;
mod handle_lends;
mod held;
mod held_at;
mod held_lends;
mod held_trace;
mod parts;
mod service_calls;
mod thread_frames;
mod thread_lives;
mod thread_pops;
mod thread_steps;
mod thread_stops;
mod thread_turns;
mod values;
mod watches;
mod writes;

pub use any_door::AnyDoor;
pub use class_values::{CqClassRanges, CqLineEntry, CqMethodName, CqMethodRanges, CqRange};
pub use door_questions::{CqQuestion, CqValue, CqVariable};
pub use handle::{CqDoor, CqEnv, CqHandle, CqService, CqThread, CqWatch};
pub use held::{Held, HeldDoor, HeldEnv, HeldThread};
pub use held_at::HeldAt;
pub use parts::Parts;
pub use thread_stops::Reach;
pub use values::{CqAnswer, CqEvent, CqFrame, CqStackInfo, CqStop, CqThreadInfo, CqTicket};
