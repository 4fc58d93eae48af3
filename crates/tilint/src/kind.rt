//! The three kinds of documents.

use serde_json::Value;
use ti_script::MemberName;

/// A kind of document.
#[derive(Clone, Copy, Debug, PartialEq, Eq)]
pub enum Kind {
    /// A walk, of `tiwalk walk`.
    Walk,
    /// A live script, of `tiwalk live`.
    Live,
    /// A history, of `tiwalk check`.
    History,
}

impl Kind {
    /// What such a document is called.
    pub(crate) fn text(self) -> &'static str {
        match self {
            Kind::Walk => "a walk",
            Kind::Live => "a live script",
            Kind::History => "a history",
        }
    }

    /// The argument for such a document.
    pub(crate) fn argument(self) -> &'static str {
        match self {
            Kind::Walk => "walk",
            Kind::Live => "live",
            Kind::History => "check",
        }
    }

    /// The members of such a document.
    pub(crate) fn members(self) -> &'static [&'static str] {
        match self {
            Kind::Walk => &["limits", "threads", "agents", "methods", "events"],
            Kind::Live => &["limits", "threads", "agents", "methods", "walks", "calls"],
            Kind::History => &["format", "limits", "agents", "entries"],
        }
    }

    /// The kind of document that has this member, and no other kind has it.
    fn with_member(member: &str) -> Option<Kind> {
        match member {
            "events" => Some(Kind::Walk),
            "walks" => Some(Kind::Live),
            "entries" => Some(Kind::History),
            _ => None,
        }
    }

    /// The kind of document that a tree seems to be, if it has the items of one kind alone.
    pub(crate) fn of(tree: &Value) -> Option<Kind> {
        let mut found = None;
        for member in ["events", "walks", "entries"] {
            if tree.get(member).is_some() {
                if found.is_some() {
                    return None;
                }
                found = Kind::with_member(member);
            }
        }
        found
    }
}
