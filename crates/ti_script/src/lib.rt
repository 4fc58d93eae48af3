//! Scripts: JSON documents of walks, live runs and histories, and the texts of outcomes and replies.
//!
//! This crate depends on `ti_types` for the values of walks, and on `ti_live` for those of live runs. `serde_json` reads a
//! document as a tree, and `indexmap` numbers the names. The crates above may rely on this:
//!
//! - `read_walk` gives what `specs/Walks.antt` says of the tree. Otherwise it gives the first fault, in the order of
//!   `specs/Head.antt` and then `specs/Events.antt`.
//! - `read_live` does the same by `specs/Lives.antt`, and `read_history` by `specs/Histories.antt`.
//! - `locate_walk`, `locate_live` and `locate_history` give the same, and the fault with the part at fault.
//! - The text functions give the texts of `specs/Texts.antt` and `specs/LiveTexts.antt`, byte for byte.
#![tactic(auto)]

mod agent_call;
mod bound;
mod element;
mod entry;
mod event;
mod fault;
mod head;
mod history;
mod history_document;
mod item;
mod lists;
mod live;
mod live_bound;
mod live_document;
mod live_text;
mod located;
mod names;
mod operation;
mod said;
mod service_event;
mod text;
mod thread_event;
mod tree;
mod walk;
mod walk_document;

pub use bound::line_bound;
pub use fault::{LimitName, ScriptFault};
pub use history::{EntryList, History};
pub use history_document::{locate_history, read_history};
pub use live::Live;
pub use live_bound::{reply_bound, thread_line_bound};
pub use live_document::{locate_live, read_live};
pub use live_text::{
    agents_text, refusal_line, replies_text, reply_line, reply_text, thread_text, verdict_line,
};
pub use located::{LocatedFault, MemberName, Part};
pub use names::{Cast, Names};
pub use text::{line_text, outcome_text};
pub use ti_live::Reply;
pub use walk::{EventList, Walk};
pub use walk_document::{locate_walk, read_walk};
