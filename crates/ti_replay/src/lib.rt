//! The plain meaning of a thread's history, and programs that compute it.
//!
//! The definitions say which histories are legal, what they leave of a thread, and what they reply. They also say which
//! history a list of events leaves of each thread, and what the outcome of each event is. They are in `specs/`, and the head
//! of each file says what it has. They are short and slow. The code goes over a history once.
//!
//! This crate uses `ti_types` alone. It promises:
//!
//! - `replay` and `reply_at` compute what the definitions say.
//! - The tests of `rules` and the tables of `costs` and `answers` are parts of the definitions. Slots and cores share them.
//! - `laws` says what is true of all histories and all lists of events.
#![tactic(auto)]

mod all_answers;
pub mod answers;
pub mod costs;
mod fault;
pub mod laws;
mod one_answer;
mod progress;
mod replays;
pub mod rules;
mod view;

pub use costs::Costs;
pub use fault::ReplayFault;
pub use replays::{replay, replies, reply_at};
