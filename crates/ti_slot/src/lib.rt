//! One thread: its state, its waiting calls, and its history.
//!
//! A `Slot` is between a thread and those who ask about it. While the thread does not run, its frames are here, and every
//! call is answered from them at once. While it runs, it has its frames with it. A call that reads them waits until the
//! thread hands them over, and takes place then.
//!
//! This crate uses `ti_replay`, which says what a history means, `ti_frames`, `ti_ops` and `ti_trail`. It promises:
//!
//! - The history of a slot is legal. Each call adds to it exactly the entries that the definition of events gives. The Back
//!   of a poll is added by `back`.
//! - Each answer is the reply that the definitions read off the history. A call is refused exactly when their tables have a
//!   refusal. A refused event changes nothing else.
//! - The answer to a call that waited is collected once.
//! - The frames are with the running thread or here, and never at both: they are moved.
//! - Only `Slot::new` takes memory, and its only error is lack of it.
#![tactic(auto)]

mod asked;
mod call_answers;
mod condition;
mod hand_rules;
mod new_entries;
mod slot;
mod slot_owner;

pub use asked::Asked;
pub use slot::Slot;
