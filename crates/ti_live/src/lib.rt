//! The values of a live run: its script, an agent's calls, the replies to them, and the report.
//!
//! This crate depends on `ti_types` alone. It has no rules: `ti_script` says which calls a document may have, and
//! `ti_report` which report fits a script. Contracts compare these values by the lists, numbers and answers that their
//! fields have.
#![tactic(auto)]

mod call;
mod listed;
mod reply;
mod report;

pub use call::AgentCall;
pub use listed::Listed;
pub use reply::Reply;
pub use report::{LiveReport, Refusal, Script};
