//! The calls that wait at one thread, and the answers that are not collected yet.
//!
//! This crate uses `ti_types` alone. It promises of `PendingOps`:
//!
//! - The calls that wait are taken in the order they were posted, each with its buffer.
//! - An answer that was delivered to a ticket is collected once, and only by that ticket's environment and number.
//! - At most a window of each environment's calls wait or have an answer that is not collected. Only these are kept. Of the
//!   others only their number is left.
//! - A call is posted, passed, taken and answered in a constant time. To collect goes over the answers that are there, the
//!   earliest posted first, so it finds that one at once. (No contract says this.)
//! - Only `PendingOps::new` takes memory, and its only error is lack of it. The room for calls is not filled in advance.
#![tactic(auto)]

mod outbox_entry;
mod pending;
mod status;

pub use pending::{Pending, PendingOps};
pub use status::CallStatus;
