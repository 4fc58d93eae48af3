//! What is wrong with a document.

use std::fmt;
use thiserror::Error;

/// A limit that a document does not keep. Its text is the limit's name in a document, in small letters. `input` limits the
/// bytes of a document, and `calls_list` the calls of a live script. Source: this profile.
#[derive(Clone, Copy, Debug, PartialEq, Eq)]
pub enum LimitName {
    Input,
    Depth,
    Own,
    Calls,
    Threads,
    Agents,
    Methods,
    Events,
    Walks,
    CallsList,
    Entries,
    Format,
}

impl LimitName {
    /// The limit's name in a document.
    pub fn text(self) -> &'static str
        ensures { result.now ≡ limit_text self }
    {
        match self {
            LimitName::Input => "input",
            LimitName::Depth => "depth",
            LimitName::Own => "own",
            LimitName::Calls => "calls",
            LimitName::Threads => "threads",
            LimitName::Agents => "agents",
            LimitName::Methods => "methods",
            LimitName::Events => "events",
            LimitName::Walks => "walks",
            LimitName::CallsList => "calls_list",
            LimitName::Entries => "entries",
            LimitName::Format => "format",
        }
    }
}

impl fmt::Display for LimitName {
    ghost use Rattle.std.specs.Prelude.{Some};
    ghost use Rattle.ti_script.specs.LimitNames.{limit_text};

    ghost output = { λ which. Some (limit_text which) };

    fn fmt<W: fmt::Write>(&self, f: &mut fmt::Formatter<W>) -> fmt::Result {
        f.write_str(self.text())
    }
}

/// Why a document is no script: its first fault, in the order in which documents are examined. Items are numbered from 1,
/// and item 0 is the head. `LocatedFault` also has the part of the item that is at fault. Source: this profile.
#[derive(Clone, Copy, Debug, PartialEq, Eq, Error)]
pub enum ScriptFault {
    /// The bytes are not UTF-8, or no JSON text.
    #[error("the document is no JSON")]
    Json,
    /// A wrong kind of value, a wrong number of elements, an unknown word, or a number out of its range.
    #[error("item {item} has the wrong shape")]
    Shape { item: u32 },
    /// A name that is malformed, given twice, or not declared where it is looked up.
    #[error("item {item} has a wrong name")]
    Name { item: u32 },
    /// A number or a count that is out of its limit.
    #[error("the limit {which} is passed")]
    Limit { which: LimitName },
    /// Memory ran out for the tree, the names or the items.
    #[error("no memory")]
    Memory,
}

ghost use Rattle.std.specs.Prelude.{◌≡◌};
ghost use Rattle.ti_script.specs.LimitNames.{limit_text};
