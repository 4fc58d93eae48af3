//! Stacks, counted in bounded memory, and the profile that `go tool pprof` reads.
//!
//! `Counts` counts stacks by thread and state. All of its memory is taken when it is made, and what does not fit is counted
//! too. `encode` writes the counts as a Profile message of `profile.proto`, without gzip. Functions, threads and states are
//! numbers, which `Names` gives names.
//!
//! Users may rely on this: `encode` gives exactly the bytes of `specs/Profile`, and the counts add up to the number of stacks
//! that were put in.
#![tactic(auto)]

mod counting;
mod labels;
mod messages;
mod named;
mod names;
mod places;
mod profile;
mod samples;
mod stacks;
mod table;
mod texts;
mod wire;

pub use counting::{Counts, TOTAL_LIMIT};
pub use names::{About, Function, Names, Unit};
pub use profile::encode;
pub use stacks::{Frame, Node, Trie};
pub use table::{Row, Table};
