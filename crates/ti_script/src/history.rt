//! The history that a document says.

use ti_live::Listed;
use ti_types::{Entry, Limits};

/// Entries in their order. Contracts see them as a list.
pub type EntryList = Listed<Entry>;

/// A history: the limits under which it was made, and the entries of one thread in their order. The limits have one thread.
/// The history need not be legal. Source: this profile.
#[derive(Drop)]
pub struct History {
    pub limits: Limits,
    pub entries: EntryList,
}
