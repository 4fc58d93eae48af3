//! The values of thread inspection, and the tables over them.
//!
//! The values are threads, environments, frames, calls, entries of a thread's history, events, answers and errors. The
//! tables have the state bits, the capabilities, the numbers of errors, and the ranges of the limits.
//!
//! This crate uses no other crate of this repository. It promises:
//!
//! - Each value is the list, set or number that `specs/` names, so contracts compare values by their meaning.
//! - A `Limits` is within its ranges.
//! - A `TraceBuf` takes all of its memory when it is made, so filling it cannot fail.
#![tactic(auto)]

mod answer;
mod call;
mod caps;
mod entry;
mod error;
mod event;
mod limits;
mod lists;
mod numbers;
mod place;
mod pop;
mod stack;
mod state;
mod step;
mod trace;
mod view;

pub use answer::Answer;
pub use call::{Call, needs};
pub use caps::Caps;
pub use entry::Entry;
pub use error::TiError;
pub use event::{Event, Outcome, Ticket};
pub use limits::Limits;
pub use lists::{FrameList, WordList};
pub use numbers::{EnvNo, MethodNo, ThreadNo};
pub use place::{Frame, Place};
pub use pop::popping_refusal;
pub use stack::StackInfo;
pub use state::{JavaState, Kind, Mode, Safe, java_state, state_bits};
pub use step::Step;
pub use trace::TraceBuf;
pub use view::ThreadView;
