//! Lists of what happened. Proofs read them, and they take memory only if they are to be read again.
#![tactic(auto)]

mod ghost_list;
mod record;

pub use ghost_list::{GhostList, Reads};
pub use record::{Record, Recording};
