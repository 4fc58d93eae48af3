//! What an environment keeps: its capabilities, its own word, and how many calls it has spent at each thread.
//!
//! This crate uses `ti_types` alone. It promises:
//!
//! - `admit`, `admit_stop` and `admit_read` give the first refusal of their table (`specs/Env`), and change nothing.
//! - `spend` takes one call from what is left at that thread, and nothing else.
//! - `remove_place` tells what was spent at that place, and changes what is spent at no other.
//! - Capabilities and the word are those that this environment's own calls made.
#![tactic(auto)]

mod env_state;

pub use env_state::EnvState;
