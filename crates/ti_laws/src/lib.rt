//! Laws of two runs: what an environment is told of a thread depends on that thread's own steps, on the environment's own calls, and on
//! those calls of others that change the thread for all. Others' looks, and the words that they keep, change nothing of it.
//!
//! Below it stand the histories (`ti_replay`), all that an environment does at threads (`ti_agent`), and the list of who came and
//! went and what was asked of stops (`ti_roster`). Nothing stands on it: its functions do nothing, and their contracts are the laws.
#![tactic(auto)]

mod histories;
mod runs;
mod stops;

pub use histories::{answers_agree, histories_tell_alike, others_looks_tell_nothing};
pub use runs::{calls_agree, lists_are_deeds, posts_agree, runs_agree};
pub use stops::{own_calls_are_seen, stops_are_own};
