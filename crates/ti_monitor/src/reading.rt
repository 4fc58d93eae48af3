//! What was read of the threads' stacks.

use ti_http::Labels;
use ti_pprof::{About, Counts, Names};
use ti_types::ThreadNo;

/// What is to be read.
#[derive(Clone, Copy, Debug, PartialEq, Eq)]
pub enum Order {
    /// Each thread's stack once, now.
    Once,
    /// Each thread's stack over and over.
    Over {
        /// For so many seconds, 1 to 300.
        seconds: u16,
        /// So often a second, 1 to 1,000.
        rate: u16,
        labels: Labels,
    },
}

/// A thread that was there.
#[derive(Clone, Copy, Debug, PartialEq, Eq)]
pub struct Seen {
    pub thread: ThreadNo,
    /// As it was attached with.
    pub priority: i32,
    /// The state in which it was last seen: a place in `names.states`.
    pub state: u32,
}

/// What texts tell beyond the names of a profile.
#[derive(Drop)]
pub struct Details {
    /// The threads' names as they are. In `Names::threads`, the texts of a profile's labels, control characters are escaped.
    pub threads: Vec<String>,
    /// Whether functions are native methods, by their places in `Names::functions`.
    pub natives: Vec<bool>,
}

/// What was read: how often each stack was seen, and the names of all numbers in it.
#[derive(Drop)]
pub struct Reading {
    /// A sample's thread is a place in `seen` and in `names.threads`, and its state one in `names.states`. Its frames'
    /// functions are places in `names.functions`.
    pub counts: Counts,
    pub names: Names,
    pub details: Details,
    pub about: About,
    /// The threads, in the order in which they were met.
    pub seen: Vec<Seen>,
}
